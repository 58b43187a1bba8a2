// The nodes, layers, links and channels of a wiring.
ghost use Rattle.std.specs.Prelude.{◌≡◌, ℕ, ◌<◌, ◌≤◌, map};
ghost use Rattle.wiring.specs.Links.{ends_of, fresh};
ghost use Rattle.wiring.specs.Topologies.{channels, end_of, from, into, starts};
ghost use Rattle.wiring.specs.Wirings.{topology};

use crate::links::Link;
use crate::partners::partner_of;
use crate::wirings::Wiring;

/// The end of a link that a channel of it starts at.
fn start(link: Link, channel: u8) -> u8
    ensures { result ≡ end_of channel (ends_of link) }
{
    if channel % 2 == 0 {
        link.first
    } else {
        link.second
    }
}

impl Wiring {
    /// The number of nodes.
    pub fn nodes(&self) -> u8
        ensures { result ≡ (topology self.now).nodes }
    {
        self.nodes
    }

    /// The number of layers.
    pub fn layers(&self) -> u8
        ensures { result ≡ (topology self.now).layers }
    {
        self.layers
    }

    /// The links, their loads at 1.
    pub fn links(&self) -> &[Link]
        ensures { result.now ≡ map fresh (topology self.now).links }
    {
        &self.links[..self.count as usize]
    }

    /// The number of channels, two for each link.
    pub fn channels(&self) -> u8
        ensures { result ≡ channels (topology self.now) }
    {
        2 * self.count
    }

    /// The node that a channel starts at; 0 where the wiring has no such channel.
    pub fn from(&self, channel: u8) -> u8
        ensures { result ≡ from (topology self.now) channel }
    {
        self.links()
            .get(channel as usize / 2)
            .map_or(0, |link| start(*link, channel))
    }

    /// The node that a channel ends at; 0 where the wiring has no such channel.
    pub fn into(&self, channel: u8) -> u8
        ensures { result ≡ into (topology self.now) channel }
    {
        partner_of(channel).map_or(0, |partner| self.from(partner))
    }

    /// Whether the wiring has the channel and it starts at the node.
    pub fn starts(&self, channel: u8, node: u8) -> bool
        ensures { result ≡ starts (topology self.now) channel node }
    {
        channel < self.channels() && self.from(channel) == node
    }
}

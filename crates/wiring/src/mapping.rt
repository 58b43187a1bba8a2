// Networks, from wirings.
ghost use Rattle.std.specs.Prelude.{◌≡◌};
ghost use Rattle.wiring.specs.Networks.{net};
ghost use Rattle.wiring.specs.Owned.{own, Owns};
ghost use Rattle.wiring.specs.Wirings.{topology};

use crate::networks::Network;
use crate::own::Ports;
use crate::wirings::Wiring;

impl<'a> Network<'a> {
    /// The network of a wiring.
    pub fn new(wiring: &'a Wiring) -> Network<'a>
        ensures { net result ≡ topology wiring.now }
    {
        let ports = Ports::new(wiring);
        Network { wiring, ports }
    }

    /// The wiring.
    pub fn wiring(&self) -> &'a Wiring
        ensures { topology result.now ≡ net self.now }
    {
        self.wiring
    }

    /// A node's own channels, upward; none where there is no such node.
    pub fn own(&self, node: u8) -> &[u8]
        ensures answer { result.now ≡ own (net self.now) node }
        ensures exact { Owns (net self.now) node result.now }
    {
        self.ports.own(node)
    }
}

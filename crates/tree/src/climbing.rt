// Up channels: each node's lowest channel to a node one level nearer to the root.
ghost use Rattle.std.specs.Prelude.{◌≡◌, ℕ, ◌<◌, None, slice_index_or};
ghost use Rattle.wiring.specs.Levels.{padded};
ghost use Rattle.wiring.specs.Networks.{net};
ghost use Rattle.tree.specs.Escapes.{AllClimb};
ghost use Rattle.tree.specs.Ups.{or_zero, one_below, up_among, up_channels, Up};
ghost use Rattle.tree.specs.Trees.{net_of, ups_of};

use crate::tables::at_node;
use crate::trees::EscapeTree;
use wiring::Network;

/// A node's level, 0 where it has none.
fn level_at(levels: &[Option<u8>; 64], node: u8) -> u8
    ensures { result ≡ or_zero (slice_index_or levels.now node None) }
{
    at_node(levels, node).unwrap_or(0)
}

/// Whether a node is one level nearer to the root than another.
fn is_one_below(levels: &[Option<u8>; 64], near: u8, far: u8) -> bool
    ensures { result ≡ one_below levels.now near far }
{
    let level = level_at(levels, far);
    level > 0 && level_at(levels, near) == level - 1
}

/// The lowest of a node's own channels that leads to a node one level nearer.
fn up_channel(network: &Network, levels: &[Option<u8>; 64], node: u8) -> Option<u8>
    ensures { result ≡ up_among (net network.now) levels.now node }
{
    let wiring = network.wiring();
    let leads_nearer = |channel: &u8| is_one_below(levels, wiring.into(*channel), node);
    network.own(node).iter().copied().find(leads_nearer)
}

impl<'a> EscapeTree<'a> {
    /// The escape tree below a root; without up channels where the root is no node.
    pub fn new(network: &Network<'a>, root: u8) -> EscapeTree<'a>
        ensures wiring { net_of result ≡ net network.now }
        ensures root { result.root ≡ root }
        ensures ups { result.ups ≡ padded (up_channels (net network.now) root) }
        ensures lowest { (n : ℕ) → Up (net network.now) root n (slice_index_or result.ups n None) }
        ensures climb { AllClimb (net network.now) root result.ups }
    {
        let wiring = network.wiring();
        let levels = wiring.levels(root);
        let mut ups = [None; 64];
        // Not `array::from_fn`: it would ask at each of 64 places whether there is a node.
        for node in 0..wiring.nodes() {
            ups[node as usize] = up_channel(network, &levels, node);
        }
        EscapeTree { wiring, root, ups }
    }

    /// A node's channel up: its lowest channel to a node one level nearer to the root.
    pub fn up(&self, node: u8) -> Option<u8>
        ensures answer { result ≡ slice_index_or (ups_of self.now) node None }
        ensures lowest { Up (net_of self.now) self.now.root node result }
    {
        at_node(&self.ups, node)
    }
}

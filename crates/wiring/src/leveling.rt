// Levels: each node's least number of channels to a root.
ghost use Rattle.std.specs.Prelude.{◌≡◌};
ghost use Rattle.wiring.specs.Levels.{levels, padded, LevelsLeast};
ghost use Rattle.wiring.specs.Wirings.{topology};

use crate::joining::Graph;
use crate::wirings::Wiring;

impl Wiring {
    /// Each node's level below a root; none past the last node, and none at all where the root is no node.
    pub fn levels(&self, root: u8) -> [Option<u8>; 64]
        ensures answer { result ≡ padded (levels (topology self.now) root) }
        ensures least { LevelsLeast (topology self.now) root result }
    {
        let mut ranks = [None; 64];
        let graph = Graph {
            nodes: self.nodes,
            links: self.links(),
        };
        graph.find_levels(&mut ranks[..self.nodes as usize], root);
        ranks
    }
}

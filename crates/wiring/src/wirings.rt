// Wirings, with what they keep to in the type.
ghost use Rattle.std.specs.Prelude.{◌≡◌, ◌*◌, ◌≤◌, false, map, length, take, is_some};
ghost use Rattle.wiring.specs.Links.{drawn, ends_of, fresh};
ghost use Rattle.wiring.specs.Topologies.{channels};
ghost use Rattle.wiring.specs.Soundness.{topology_fault};

use crate::links::Link;

/// A wiring in which nothing is wrong: its links join different nodes, and every node is joined to node 0.
#[derive(Debug, Drop)]
pub struct Wiring {
    pub(crate) nodes: u8,
    pub(crate) layers: u8,
    /// How many of the links there are. Memory is fixed, so they lie in an array with room for all: std has no list of that kind, and no other library stands under the controller.
    pub(crate) count: u8,
    pub(crate) links: [Link; 120],
    ghost few: { nodes ≤ 64 },
    ghost room: { count ≤ 120 },
    ghost held: { length links ≡ 120 },
    ghost pairs: { 2 * count ≡ channels (drawn nodes layers (take count links)) },
    ghost begun: { take count links ≡ map fresh (map ends_of (take count links)) },
    ghost sound: { is_some (topology_fault (drawn nodes layers (take count links))) ≡ false },
}

// Escape trees, tied to their wiring in the type.
ghost use Rattle.std.specs.Prelude.{◌≡◌};
ghost use Rattle.wiring.specs.Levels.{padded};
ghost use Rattle.wiring.specs.Wirings.{topology};
ghost use Rattle.tree.specs.Ups.{up_channels};

use wiring::Wiring;

/// The escape tree of a layer: each node's channel up to the root.
#[derive(Drop)]
pub struct EscapeTree<'a> {
    pub(crate) wiring: &'a Wiring,
    pub(crate) root: u8,
    pub(crate) ups: [Option<u8>; 64],
    ghost climbs: { ups ≡ padded (up_channels (topology wiring.now) root) },
}

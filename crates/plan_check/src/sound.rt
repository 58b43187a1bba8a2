// Cells that keep their rules.
ghost use Rattle.wiring.specs.Networks.{net};
ghost use Rattle.plan_check.specs.Rules.{Sound};

use wiring::{Cells, Network};

/// A table of cells, every one of which keeps its rules, and the network that it is for.
#[derive(Drop)]
pub(crate) struct SoundCells<'a, T: Cells> {
    pub(crate) network: Network<'a>,
    pub(crate) cells: &'a T,
    ghost sound: { Sound (net network) (T.Cells.meant cells.now) },
}

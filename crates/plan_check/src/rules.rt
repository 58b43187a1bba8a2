// The rules that a cell keeps.
ghost use Rattle.std.specs.Prelude.{◌≡◌};
ghost use Rattle.fault.specs.Faults.{judged};
ghost use Rattle.wiring.specs.Lists.{first_some};
ghost use Rattle.wiring.specs.Topologies.{all_nodes};
ghost use Rattle.wiring.specs.Wirings.{topology};
ghost use Rattle.plan_check.specs.Rules.{layer_of, lowest_other, cell_fault, first_fault};

use fault::Fault;
use wiring::{Cell, Cells, Wiring};

/// The lowest node other than a destination.
fn lowest_but(destination: u8) -> u8
    ensures { result ≡ lowest_other destination }
{
    if destination == 0 { 1 } else { 0 }
}

/// The layer of a destination: that in the cell for it of the lowest other node.
pub(crate) fn layer_to<T: Cells>(cells: &T, destination: u8) -> u8
    ensures { result ≡ layer_of (T.Cells.meant cells.now) destination }
{
    match cells.cell(destination, lowest_but(destination)) {
        Cell::Empty => 0,
        Cell::Hop { layer, .. } => layer,
    }
}

/// A table of cells, and the wiring that it is judged for.
#[derive(Drop)]
pub(crate) struct Candidate<'a, T> {
    pub(crate) wiring: &'a Wiring,
    pub(crate) cells: &'a T,
}

impl<T: Cells> Candidate<'_, T> {
    /// The rule that the cell of a node for a destination breaks, the lowest number first.
    fn check_cell(&self, destination: u8, node: u8) -> Result<(), Fault>
        ensures { result ≡ judged (cell_fault (topology self.now.wiring.now) (T.Cells.meant self.now.cells.now) destination node) }
    {
        match self.cells.cell(destination, node) {
            Cell::Empty if destination == node => Ok(()),
            Cell::Empty => Err(Fault::CellEmpty { destination, node }),
            Cell::Hop { .. } if destination == node => {
                Err(Fault::OwnCellFilled { destination, node })
            }
            Cell::Hop { channel, .. } if !self.wiring.starts(channel, node) => {
                Err(Fault::StartsElsewhere { destination, node })
            }
            Cell::Hop { layer, .. } if layer >= self.wiring.layers() => {
                Err(Fault::LayerTooHigh { destination, node })
            }
            Cell::Hop { layer, .. } if layer != layer_to(self.cells, destination) => {
                Err(Fault::LayerDiffers { destination, node })
            }
            Cell::Hop { .. } => Ok(()),
        }
    }

    /// The first faulty cell for a destination, node by node.
    fn check_row(&self, destination: u8) -> Result<(), Fault>
        ensures { result ≡ judged (first_some (cell_fault (topology self.now.wiring.now) (T.Cells.meant self.now.cells.now) destination) (all_nodes (topology self.now.wiring.now))) }
    {
        for node in 0..self.wiring.nodes() {
            self.check_cell(destination, node)?;
        }
        Ok(())
    }

    /// The first faulty cell, destination by destination.
    pub(crate) fn check_rules(&self) -> Result<(), Fault>
        ensures { result ≡ judged (first_fault (topology self.now.wiring.now) (T.Cells.meant self.now.cells.now)) }
    {
        for destination in 0..self.wiring.nodes() {
            self.check_row(destination)?;
        }
        Ok(())
    }
}

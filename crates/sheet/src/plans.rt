// Plan sheets as they are read.
ghost use Rattle.std.specs.Prelude.{◌≡◌};
ghost use Rattle.sheet.specs.Plans.{plan_of, plan_seen, cells_in, whole_plan, read_plan};
ghost use Rattle.sheet.specs.Written.{OneSheet};

use crate::reading::byte_at;
use crate::{Letter, Reader, check_contents};
use fault::Fault;
use wiring::{Cell, Cells};

/// The number of nodes, and the bytes of the cells: two a cell, channel and layer, destination by destination and node by node
/// within each. 255, 255 is the empty cell.
#[derive(Clone, Copy, PartialEq, Eq, Debug)]
pub struct PlanSheet<'a> {
    pub nodes: u8,
    pub cells: &'a [u8],
}

impl Cells for PlanSheet<'_> {
    ghost meant = { λ p. cells_in (plan_of p) };

    fn cell(&self, destination: u8, node: u8) -> Cell {
        let at = 2 * (self.nodes as usize * destination as usize + node as usize);
        match (byte_at(self.cells, at), byte_at(self.cells, at + 1)) {
            (255, 255) => Cell::Empty,
            (channel, layer) => Cell::Hop { channel, layer },
        }
    }
}

/// A plan for 1 to 64 nodes, with a cell for each destination and node.
fn whole_plan(nodes: u8, cells: &[u8]) -> Result<PlanSheet<'_>, Fault>
    ensures { plan_seen result ≡ whole_plan (record { nodes = nodes; cells = cells.now }) }
{
    if !(1..=64).contains(&nodes) {
        return Err(Fault::NodeCount);
    }
    if cells.len() != 2 * nodes as usize * nodes as usize {
        return Err(Fault::PlanSize);
    }
    Ok(PlanSheet { nodes, cells })
}

/// The plan in a sheet.
pub fn read_plan(bytes: &[u8]) -> Result<PlanSheet<'_>, Fault>
    ensures answer { plan_seen result ≡ read_plan bytes.now }
    ensures one_sheet { OneSheet (plan_seen result) bytes.now }
{
    check_contents(bytes, &[Letter::N, Letter::P])?;
    let mut reader = Reader::new(bytes);
    let nodes = byte_at(reader.body(), 0);
    let cells = reader.body();
    whole_plan(nodes, cells)
}

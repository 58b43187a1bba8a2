// Cells kept as they are.
ghost use Rattle.wiring.specs.Topologies.{starts};
ghost use Rattle.wiring.specs.Wirings.{topology};
ghost use Rattle.cards.specs.Decks.{entry};

use crate::grids::Grid;
use crate::stores::Store;
use std::alloc::{AllocError, Global};
use wiring::{Cell, Wiring};

/// The channel and the layer of every cell.
#[derive(Drop)]
pub struct Channels {
    wiring: Wiring,
    cells: Grid<Cell>,
}

impl Store for Channels {
    ghost owned = { λ s n c. starts (topology s.wiring) c n };

    ghost held = { λ s. entry s.cells.cells.items };

    fn new(heap: Global, wiring: Wiring) -> Result<Channels, AllocError> {
        let cells = Vec::from_elem(heap, Cell::Empty, 4096)?;
        let cells = Grid { cells };
        Ok(Channels { wiring, cells })
    }

    fn owns(&self, node: u8, channel: u8) -> bool {
        self.wiring.starts(channel, node)
    }

    fn get(&self, node: u8, destination: u8) -> Cell {
        self.cells.get_or(node, destination, Cell::Empty)
    }

    fn set(&mut self, node: u8, destination: u8, cell: Cell) {
        self.cells.set(node, destination, cell);
    }
}

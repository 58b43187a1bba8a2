// Cells kept by ports.
ghost use Rattle.std.specs.Prelude.{is_some};
ghost use Rattle.wiring.specs.Spans.{owned as listed};
ghost use Rattle.cards.specs.Decks.{grid};
ghost use Rattle.cards.specs.Porting.{port_of, no_cell, standing_by};

use crate::grids::Grid;
use crate::ports::{PortCell, find_port, read_port, to_port};
use crate::stores::Store;
use std::alloc::{AllocError, Global};
use wiring::{Cell, Ports, Wiring};

/// The port and the layer of every cell.
#[derive(Drop)]
pub struct Numbered {
    ports: Ports,
    cells: Grid<Option<PortCell>>,
}

impl Store for Numbered {
    ghost owned = { λ s n c. is_some (port_of (listed s.ports n) c) };

    ghost held = { λ s. standing_by (listed s.ports) (grid no_cell s.cells.cells.items) };

    fn new(heap: Global, wiring: Wiring) -> Result<Numbered, AllocError> {
        let cells = Vec::from_elem(heap, None, 4096)?;
        let cells = Grid { cells };
        let ports = Ports::new(&wiring);
        Ok(Numbered { ports, cells })
    }

    fn owns(&self, node: u8, channel: u8) -> bool {
        find_port(self.ports.own(node), channel).is_some()
    }

    fn get(&self, node: u8, destination: u8) -> Cell {
        let kept = self.cells.get_or(node, destination, None);
        read_port(self.ports.own(node), kept)
    }

    fn set(&mut self, node: u8, destination: u8, cell: Cell) {
        let kept = to_port(self.ports.own(node), cell);
        self.cells.set(node, destination, kept);
    }
}

// A plan made by hand.
ghost use Rattle.std.specs.Prelude.{◌≡◌, ◌+◌, ◌*◌, [], ◌∷◌, if◌then◌else◌, nat_lt, slice_index_or, slice_set};
ghost use Rattle.wiring.specs.declared.table.Cell.TheVariants.{Empty, Hop};

use wiring::{Cell, Cells};

/// The cells of three nodes, destination by destination.
#[derive(Drop)]
pub struct Grid {
    pub cells: [Cell; 9],
}

/// A cell of layer 0.
pub(crate) fn hop(channel: u8) -> Cell
    ensures { result ≡ Hop channel 0 }
{
    Cell::Hop { channel, layer: 0 }
}

impl Grid {
    /// A plan for three nodes in a line, all in layer 0.
    pub(crate) fn line() -> Grid
        ensures { result.cells ≡ Empty ∷ Hop 1 0 ∷ Hop 3 0 ∷ Hop 0 0 ∷ Empty ∷ Hop 3 0 ∷ Hop 0 0 ∷ Hop 2 0 ∷ Empty ∷ [] }
    {
        Grid {
            cells: [
                Cell::Empty,
                hop(1),
                hop(3),
                hop(0),
                Cell::Empty,
                hop(3),
                hop(0),
                hop(2),
                Cell::Empty,
            ],
        }
    }

    /// Every route upward round a triangle, destinations 0 and 2 in layer 0.
    pub(crate) fn round(layer: u8) -> Grid
        ensures { result.cells ≡ Empty ∷ Hop 2 0 ∷ Hop 4 0 ∷ Hop 0 layer ∷ Empty ∷ Hop 4 layer ∷ Hop 0 0 ∷ Hop 2 0 ∷ Empty ∷ [] }
    {
        let zero = Cell::Hop { channel: 0, layer };
        let four = Cell::Hop { channel: 4, layer };
        Grid {
            cells: [
                Cell::Empty,
                hop(2),
                hop(4),
                zero,
                Cell::Empty,
                four,
                hop(0),
                hop(2),
                Cell::Empty,
            ],
        }
    }

    /// The same with another cell at a place, where there is such a place.
    pub(crate) fn with(self, place: usize, cell: Cell) -> Grid
        ensures { result.cells ≡ (if nat_lt place 9 then slice_set self.cells place cell else self.cells) }
    {
        let mut cells = self.cells;
        // By index: after a `get_mut` no element is known.
        if place < 9 {
            cells[place] = cell;
        }
        Grid { cells }
    }
}

impl Cells for Grid {
    ghost meant = { λ g d n. (if nat_lt (3 * d + n) 9 then slice_index_or g.cells (3 * d + n) Empty else Empty) };

    fn cell(&self, destination: u8, node: u8) -> Cell {
        let at = 3 * destination as usize + node as usize;
        self.cells.get(at).copied().unwrap_or(Cell::Empty)
    }
}

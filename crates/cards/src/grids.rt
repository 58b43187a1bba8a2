// A cell of each card for each destination.
ghost use Rattle.std.specs.Prelude.{◌≡◌, ◌<◌, vec_len};
ghost use Rattle.cards.specs.Decks.{changed, grid};

/// The cells of 64 cards for 64 destinations, card by card.
#[derive(Drop)]
pub(crate) struct Grid<C> {
    pub(crate) cells: Vec<C>,
    ghost whole: { vec_len cells ≡ 4096 },
}

impl<C: Copy> Grid<C> {
    /// The cell of a card for a destination; `past` where there is no such card or destination.
    pub(crate) fn get_or(&self, node: u8, destination: u8, past: C) -> C
        ensures { result ≡ grid past self.now.cells.items node destination }
    {
        if node >= 64 || destination >= 64 {
            return past;
        }
        self.cells[64 * node as usize + destination as usize]
    }

    /// Changes one cell.
    pub(crate) fn set(&mut self, node: u8, destination: u8, cell: C)
        requires within { (node < 64) × (destination < 64) }
        ensures { (z : C) → grid z self.new.cells.items ≡ changed (grid z self.old.cells.items) node destination cell }
    {
        self.cells[64 * node as usize + destination as usize] = cell;
    }
}

// What every bank of cards does.
ghost use Rattle.std.specs.Prelude.{◌≡◌};
ghost use Rattle.bank.specs.Banks.{View, seated_answer, own_answer, gate_answer, cell_answer, set_answer, set_after, clear_answer, clear_after, put_answer, put_after};

use fault::Fault;
use wiring::Cell;

/// For each node number 0 to 63: whether a card is seated, which channels are its own, whether its gate is open, and 64 cells.
// Node and destination stay two parameters: each test and each fault speaks of one of them.
pub trait Bank {
    ghost view: { Self → View };

    /// Whether a card is seated at the number.
    fn seated(&self, node: u8) -> bool
        ensures { result ≡ seated_answer (view self.now) node };

    /// Whether the channel is the card's own.
    fn own(&self, node: u8, channel: u8) -> bool
        ensures { result ≡ own_answer (view self.now) node channel };

    /// Whether the card's gate is open.
    fn gate(&self, node: u8) -> Result<bool, Fault>
        ensures { result ≡ gate_answer (view self.now) node };

    /// The card's cell for a destination.
    fn cell(&self, node: u8, destination: u8) -> Result<Cell, Fault>
        ensures { result ≡ cell_answer (view self.now) node destination };

    /// Opens or shuts the card's gate.
    fn set_gate(&mut self, node: u8, open: bool) -> Result<(), Fault>
        ensures answer { result ≡ set_answer (view self.old) node }
        ensures after { view self.new ≡ set_after (view self.old) node «open» };

    /// Empties the card's cell for a destination.
    fn clear(&mut self, node: u8, destination: u8) -> Result<(), Fault>
        ensures answer { result ≡ clear_answer (view self.old) node destination }
        ensures after { view self.new ≡ clear_after (view self.old) node destination };

    /// Fills the card's cell for a destination.
    fn put(&mut self, node: u8, destination: u8, channel: u8, layer: u8) -> Result<(), Fault>
        ensures answer { result ≡ put_answer (view self.old) node destination channel layer }
        ensures after { view self.new ≡ put_after (view self.old) node destination channel layer };
}

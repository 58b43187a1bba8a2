// What the cards of a bank hold, in one form or another.
ghost use Rattle.std.specs.Prelude.{◌≡◌, ℕ, ◌<◌, Bool, true, IfOk};
ghost use Rattle.wiring.specs.declared.table.Cell.{Cell as Held};
ghost use Rattle.wiring.specs.Wirings.{topology};
ghost use Rattle.cards.specs.Decks.{changed, Holds, EmptyFor};

use std::alloc::{AllocError, Global};
use wiring::{Cell, Wiring};

/// The cells of 64 cards for 64 destinations, and each card's own channels.
pub trait Store {
    /// Which channels are the card's own.
    ghost owned: { Self → ℕ → ℕ → Bool };

    /// The cell of a card for a destination.
    ghost held: { Self → ℕ → ℕ → Held };

    /// A store for a wiring, every cell empty.
    fn new(heap: Global, wiring: Wiring) -> Result<Self, AllocError>
        ensures { IfOk result (λ s. EmptyFor (topology wiring) (owned s) (held s)) };

    /// Whether the channel is the card's own.
    fn owns(&self, node: u8, channel: u8) -> bool
        ensures { result ≡ owned self.now node channel };

    fn get(&self, node: u8, destination: u8) -> Cell
        ensures { result ≡ held self.now node destination };

    /// Changes one cell.
    fn set(&mut self, node: u8, destination: u8, cell: Cell)
        requires within { (node < 64) × (destination < 64) × Holds (owned self.old node) cell }
        ensures owned { owned self.new ≡ owned self.old }
        ensures held { held self.new ≡ changed (held self.old) node destination cell };
}

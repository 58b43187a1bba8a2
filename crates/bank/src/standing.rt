// The cells standing in a bank, as a table.
ghost use Rattle.bank.specs.Banks.{standing};

use crate::Bank;
use wiring::{Cell, Cells};

/// A bank, looked at as a table of cells. A card that is not seated has empty cells.
pub struct Standing<'a, B> {
    pub bank: &'a B,
}

impl<B: Bank> Cells for Standing<'_, B> {
    ghost meant = { λ s. standing (B.Bank.view s.bank.now) };

    fn cell(&self, destination: u8, node: u8) -> Cell {
        self.bank.cell(node, destination).unwrap_or(Cell::Empty)
    }
}

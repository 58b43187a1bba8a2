// Cards in memory are a bank.
ghost use Rattle.std.specs.Prelude.{◌≡◌};
ghost use Rattle.bank.specs.Banks.{View, clear_answer, seated_answer, set_answer};
ghost use Rattle.cards.specs.Views.{cards_view};

use crate::decks::Cards;
use crate::stores::Store;
use bank::Bank;
use fault::Fault;
use wiring::Cell;

impl<S: Store> Cards<S> {
    /// Whether a card is seated.
    fn find_card(&self, node: u8) -> Result<(), Fault>
        ensures { result ≡ set_answer (⟦<Cards<S> as Bank>⟧.view self.now) node }
    {
        if self.seated(node) {
            Ok(())
        } else {
            Err(Fault::NotSeated { node })
        }
    }

    /// Whether a cell may be changed: a card is seated, it has the cell, and its gate is shut.
    fn may_change(&self, node: u8, destination: u8) -> Result<(), Fault>
        ensures { result ≡ clear_answer (⟦<Cards<S> as Bank>⟧.view self.now) node destination }
    {
        self.find_card(node)?;
        if destination >= 64 {
            return Err(Fault::NoSuchDestination { destination });
        }
        if self.gates[node as usize] {
            return Err(Fault::GateOpen { node });
        }
        Ok(())
    }
}

impl<S: Store> Bank for Cards<S> {
    ghost view = { λ b. cards_view b.nodes b.gates (S.Store.owned b.store) (S.Store.held b.store) };

    fn seated(&self, node: u8) -> bool {
        node < self.nodes
    }

    fn own(&self, node: u8, channel: u8) -> bool {
        self.seated(node) && self.store.owns(node, channel)
    }

    fn gate(&self, node: u8) -> Result<bool, Fault> {
        self.find_card(node)?;
        Ok(self.gates[node as usize])
    }

    fn cell(&self, node: u8, destination: u8) -> Result<Cell, Fault> {
        self.find_card(node)?;
        if destination >= 64 {
            return Err(Fault::NoSuchDestination { destination });
        }
        Ok(self.store.get(node, destination))
    }

    fn set_gate(&mut self, node: u8, open: bool) -> Result<(), Fault> {
        self.find_card(node)?;
        self.gates[node as usize] = open;
        Ok(())
    }

    fn clear(&mut self, node: u8, destination: u8) -> Result<(), Fault> {
        self.may_change(node, destination)?;
        self.store.set(node, destination, Cell::Empty);
        Ok(())
    }

    fn put(&mut self, node: u8, destination: u8, channel: u8, layer: u8) -> Result<(), Fault> {
        self.may_change(node, destination)?;
        if !self.store.owns(node, channel) {
            return Err(Fault::NotOwn { node });
        }
        if layer >= 8 {
            return Err(Fault::NoSuchLayer { layer });
        }
        self.store
            .set(node, destination, Cell::Hop { channel, layer });
        Ok(())
    }
}

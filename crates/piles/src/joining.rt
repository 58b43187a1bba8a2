// Joined cabinets.
ghost use Rattle.std.specs.Prelude.{◌≡◌, ◌<◌, ◌≤◌, Ok, Err};
ghost use Rattle.fault.specs.declared.faults.Fault.TheVariants.{BadMap};
ghost use Rattle.piles.specs.Cabinets.{joined_view, side_of};

use crate::cabinets::{Joined, Side};
use crate::mapping::Rejected;
use crate::places::told;
use bank::Bank;
use fault::Fault;
use wiring::Cell;

impl<A: Bank, B: Bank> Joined<A, B> {
    /// The two banks as one; a split over 64 is refused by 28, and the banks handed back.
    pub fn new(split: u8, first: A, second: B) -> Result<Joined<A, B>, Rejected<(A, B)>>
        ensures { elim result [ Ok j ↦ (j.split ≡ split) × (j.first ≡ first) × (j.second ≡ second) × (split ≤ 64) | Err e ↦ (e.fault ≡ BadMap) × (e.bank ≡ (first, second)) × (64 < split) ] }
    {
        if split > 64 {
            return Err(Rejected {
                fault: Fault::BadMap,
                bank: (first, second),
            });
        }
        Ok(Joined {
            split,
            first,
            second,
        })
    }

    /// The two banks.
    pub fn into_parts(self) -> (A, B)
        ensures { result ≡ (self.first, self.second) }
    {
        let Joined {
            split: _,
            first,
            second,
        } = self;
        (first, second)
    }

    /// Where a node stands.
    fn side(&self, node: u8) -> Result<Side, Fault>
        ensures { result ≡ side_of self.now.split node }
    {
        if node >= 64 {
            Err(Fault::NotSeated { node })
        } else if node < self.split {
            Ok(Side::First(node))
        } else {
            Ok(Side::Second(node - self.split))
        }
    }
}

impl<A: Bank, B: Bank> Bank for Joined<A, B> {
    ghost view = { λ j. joined_view j.split (A.Bank.view j.first) (B.Bank.view j.second) };

    fn seated(&self, node: u8) -> bool {
        match self.side(node) {
            Ok(Side::First(number)) => self.first.seated(number),
            Ok(Side::Second(number)) => self.second.seated(number),
            Err(_) => false,
        }
    }

    fn own(&self, node: u8, channel: u8) -> bool {
        match self.side(node) {
            Ok(Side::First(number)) => self.first.own(number, channel),
            Ok(Side::Second(number)) => self.second.own(number, channel),
            Err(_) => false,
        }
    }

    fn gate(&self, node: u8) -> Result<bool, Fault> {
        match self.side(node)? {
            Side::First(number) => self.first.gate(number),
            Side::Second(number) => told(self.second.gate(number), node),
        }
    }

    fn cell(&self, node: u8, destination: u8) -> Result<Cell, Fault> {
        match self.side(node)? {
            Side::First(number) => self.first.cell(number, destination),
            Side::Second(number) => told(self.second.cell(number, destination), node),
        }
    }

    fn set_gate(&mut self, node: u8, open: bool) -> Result<(), Fault> {
        match self.side(node)? {
            Side::First(number) => self.first.set_gate(number, open),
            Side::Second(number) => told(self.second.set_gate(number, open), node),
        }
    }

    fn clear(&mut self, node: u8, destination: u8) -> Result<(), Fault> {
        match self.side(node)? {
            Side::First(number) => self.first.clear(number, destination),
            Side::Second(number) => told(self.second.clear(number, destination), node),
        }
    }

    fn put(&mut self, node: u8, destination: u8, channel: u8, layer: u8) -> Result<(), Fault> {
        match self.side(node)? {
            Side::First(number) => self.first.put(number, destination, channel, layer),
            Side::Second(number) => told(
                self.second.put(number, destination, channel, layer),
                node,
            ),
        }
    }
}

// Slot maps.
ghost use Rattle.std.specs.Prelude.{◌≡◌, ◌↔◌, IsTrue, Ok, Err, Some, nat_lt, slice_index};
ghost use Rattle.fault.specs.Faults.{shown_fault};
ghost use Rattle.fault.specs.declared.faults.Fault.TheVariants.{BadMap, NotSeated};
ghost use Rattle.wiring.specs.Lists.{only_if};
ghost use Rattle.piles.specs.Slots.{Small, Apart, slot_view};

use crate::places::told;
use crate::slots::SlotMap;
use bank::Bank;
use fault::Fault;
use std::error::Error;
use std::fmt;
use wiring::Cell;

/// A bank that is handed back, and why.
#[derive(Drop)]
pub struct Rejected<B> {
    pub fault: Fault,
    pub bank: B,
}

// By hand: a derive would ask that the bank can be shown.
impl<B> fmt::Debug for Rejected<B> {
    fn fmt<W: fmt::Write>(&self, f: &mut fmt::Formatter<W>) -> fmt::Result {
        let fault = self.fault;
        write!(f, "Rejected({fault:?})")
    }
}

impl<B> fmt::Display for Rejected<B> {
    ghost output = { λ r. Some (shown_fault r.fault) };

    fn fmt<W: fmt::Write>(&self, f: &mut fmt::Formatter<W>) -> fmt::Result {
        let fault = self.fault;
        write!(f, "{fault}")
    }
}

impl<B: Drop> Error for Rejected<B> {}

/// Whether the numbers are those from 0 to 63 in some order.
fn permutes(map: &[u8; 64]) -> bool
    ensures { IsTrue result ↔ Small map.now × Apart map.now }
{
    let mut seen = [false; 64];
    for &slot in map {
        if slot >= 64 {
            return false;
        }
        if seen[slot as usize] {
            return false;
        }
        seen[slot as usize] = true;
    }
    true
}

impl<B: Bank> SlotMap<B> {
    /// The bank behind the map; one that is no permutation is refused by 28, and the bank handed back.
    pub fn new(map: [u8; 64], below: B) -> Result<SlotMap<B>, Rejected<B>>
        ensures { elim result [ Ok s ↦ (s.map ≡ map) × (s.below ≡ below) × (Small map × Apart map) | Err e ↦ (e.fault ≡ BadMap) × (e.bank ≡ below) × (Small map × Apart map → ⊥) ] }
    {
        if permutes(&map) {
            Ok(SlotMap { map, below })
        } else {
            Err(Rejected {
                fault: Fault::BadMap,
                bank: below,
            })
        }
    }

    /// The bank below.
    pub fn into_below(self) -> B
        ensures { result ≡ self.below }
    {
        let SlotMap { map: _, below } = self;
        below
    }

    /// Where a node stands in the bank below.
    fn slot(&self, node: u8) -> Result<u8, Fault>
        ensures { result ≡ only_if (nat_lt node 64) (NotSeated node) (Ok (slice_index self.now.map node)) }
    {
        if node < 64 {
            Ok(self.map[node as usize])
        } else {
            Err(Fault::NotSeated { node })
        }
    }
}

impl<B: Bank> Bank for SlotMap<B> {
    ghost view = { λ s. slot_view s.map (B.Bank.view s.below) };

    fn seated(&self, node: u8) -> bool {
        self.slot(node).is_ok_and(|slot| self.below.seated(slot))
    }

    fn own(&self, node: u8, channel: u8) -> bool {
        self.slot(node)
            .is_ok_and(|slot| self.below.own(slot, channel))
    }

    fn gate(&self, node: u8) -> Result<bool, Fault> {
        let slot = self.slot(node)?;
        told(self.below.gate(slot), node)
    }

    fn cell(&self, node: u8, destination: u8) -> Result<Cell, Fault> {
        let slot = self.slot(node)?;
        told(self.below.cell(slot, destination), node)
    }

    fn set_gate(&mut self, node: u8, open: bool) -> Result<(), Fault> {
        let slot = self.slot(node)?;
        told(self.below.set_gate(slot, open), node)
    }

    fn clear(&mut self, node: u8, destination: u8) -> Result<(), Fault> {
        let slot = self.slot(node)?;
        told(self.below.clear(slot, destination), node)
    }

    fn put(&mut self, node: u8, destination: u8, channel: u8, layer: u8) -> Result<(), Fault> {
        let slot = self.slot(node)?;
        told(self.below.put(slot, destination, channel, layer), node)
    }
}

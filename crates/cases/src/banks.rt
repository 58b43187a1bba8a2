// A flat bank, and port cards behind two slot maps that undo each other in a joined cabinet, under one list of calls.
use bank::Bank;
use cards::{FlatBank, PortCards};
use fault::Fault;
use piles::{Joined, SlotMap};
use std::alloc::Global;
use std::array;
use std::test::Fail;
use wiring::Cell;

/// Three nodes in a line, two layers.
const LINE: [u8; 22] = [
    3, 76, 0, 16, 0, 4, 78, 0, 20, 0, 1, 86, 0, 21, 0, 1, 0, 1, 1, 2, 3, 2,
];

/// A call that changes a card.
#[derive(Clone, Copy, Debug)]
enum Call {
    /// At a node for a destination, a channel and a layer.
    Put(u8, u8, u8, u8),
    /// At a node for a destination.
    Clear(u8, u8),
    /// At a node: open or shut.
    SetGate(u8, bool),
}

const CALLS: [Call; 60] = [
    Call::SetGate(0, true),
    Call::Put(200, 0, 1, 1),
    Call::Put(200, 0, 4, 1),
    Call::Put(0, 0, 3, 1),
    Call::Put(3, 0, 3, 1),
    Call::Put(3, 2, 4, 1),
    Call::SetGate(200, false),
    Call::SetGate(0, true),
    Call::Put(0, 0, 0, 0),
    Call::Put(0, 2, 3, 0),
    Call::Put(1, 0, 0, 0),
    Call::Put(1, 63, 1, 7),
    Call::Put(200, 255, 239, 7),
    Call::Put(2, 63, 239, 8),
    Call::Put(0, 1, 0, 8),
    Call::SetGate(1, false),
    Call::Put(200, 63, 1, 8),
    Call::SetGate(2, false),
    Call::Put(3, 64, 1, 1),
    Call::Clear(0, 3),
    Call::Put(1, 63, 2, 1),
    Call::Clear(2, 63),
    Call::SetGate(0, true),
    Call::Put(0, 1, 0, 0),
    Call::Put(0, 0, 0, 1),
    Call::Clear(1, 0),
    Call::Put(3, 1, 3, 1),
    Call::Put(64, 64, 0, 1),
    Call::Put(0, 3, 2, 7),
    Call::Put(1, 0, 1, 0),
    Call::Put(1, 0, 1, 0),
    Call::Put(2, 2, 3, 1),
    Call::SetGate(200, false),
    Call::SetGate(1, false),
    Call::Put(1, 2, 1, 0),
    Call::SetGate(200, true),
    Call::Put(1, 0, 2, 0),
    Call::Clear(2, 0),
    Call::Put(0, 64, 0, 0),
    Call::Put(1, 2, 2, 0),
    Call::SetGate(1, false),
    Call::SetGate(3, true),
    Call::Put(2, 0, 1, 1),
    Call::Put(200, 1, 4, 1),
    Call::SetGate(2, false),
    Call::SetGate(2, true),
    Call::Put(200, 0, 1, 1),
    Call::Put(0, 2, 0, 1),
    Call::Put(0, 0, 0, 7),
    Call::Clear(200, 2),
    Call::Put(1, 1, 1, 0),
    Call::Put(1, 1, 3, 0),
    Call::Put(0, 0, 0, 0),
    Call::Put(64, 1, 1, 0),
    Call::Put(2, 2, 3, 1),
    Call::SetGate(2, false),
    Call::Put(1, 1, 2, 1),
    Call::SetGate(3, true),
    Call::Clear(0, 0),
    Call::Put(2, 0, 3, 1),
];

type Pile = Joined<SlotMap<SlotMap<PortCards>>, FlatBank>;

/// The first three slots as given, and all others straight.
// The tour has the like: three lines, in a program and in a crate of tests.
fn turned(first: [u8; 3]) -> [u8; 64] {
    let mut map = array::from_fn(|node| node as u8);
    map[0..3].copy_from_slice(&first);
    map
}

fn behind(heap: Global) -> Result<SlotMap<SlotMap<PortCards>>, Fail> {
    let ports = PortCards::new(heap, &LINE)?;
    let below = SlotMap::new(turned([2, 0, 1]), ports)?;
    let pile = SlotMap::new(turned([1, 2, 0]), below)?;
    Ok(pile)
}

fn pile(heap: Global) -> Result<Pile, Fail> {
    let flat = FlatBank::new(heap, &LINE)?;
    let pile = Joined::new(64, behind(heap)?, flat)?;
    Ok(pile)
}

fn carry_out<B: Bank>(bank: &mut B, call: Call) -> Result<(), Fault> {
    match call {
        Call::Put(node, destination, channel, layer) => {
            bank.put(node, destination, channel, layer)
        }
        Call::Clear(node, destination) => bank.clear(node, destination),
        Call::SetGate(node, open) => bank.set_gate(node, open),
    }
}

/// What a bank tells of a card and a destination.
#[derive(Clone, Copy, PartialEq, Eq, Debug)]
struct Answers {
    seated: bool,
    gate: Result<bool, Fault>,
    cell: Result<Cell, Fault>,
}

fn ask<B: Bank>(bank: &B, node: u8, destination: u8) -> Answers {
    Answers {
        seated: bank.seated(node),
        gate: bank.gate(node),
        cell: bank.cell(node, destination),
    }
}

fn tell_same<A: Bank, B: Bank>(a: &A, b: &B) -> bool {
    (0..5).all(|node| (0..5).all(|destination| ask(a, node, destination)
        == ask(b, node, destination)))
}

#[test]
fn banks_tell_the_same(rt: HostRuntime) -> Result<(), Fail> {
    let mut a = FlatBank::new(rt.alloc(), &LINE)?;
    let mut b = pile(rt.alloc())?;
    for call in CALLS {
        assert_eq!(rt; carry_out(&mut a, call), carry_out(&mut b, call));
        assert!(rt; tell_same(&a, &b));
    }
    Ok(())
}

// A plan in banks of cards.
use crate::grid::Grid;
use crate::sheets::LINE;
use crate::showing::show;
use anyhow::anyhow;
use bank::Bank;
use cards::{FlatBank, PortCards};
use fault::Fault;
use piles::{Joined, SlotMap};
use std::alloc::Global;
use std::{array, io};
use wiring::{Cell, Cells};

/// Writes the cells of one destination.
fn write_to<B: Bank>(bank: &mut B, grid: &Grid, destination: u8) -> Result<(), Fault> {
    for node in 0..3 {
        match grid.cell(destination, node) {
            Cell::Empty => bank.clear(node, destination)?,
            Cell::Hop { channel, layer } => bank.put(node, destination, channel, layer)?,
        }
    }
    Ok(())
}

/// Writes the cells of a plan.
fn write_all<B: Bank>(bank: &mut B, grid: &Grid) -> Result<(), Fault> {
    for destination in 0..3 {
        write_to(bank, grid, destination)?;
    }
    Ok(())
}

/// Whether two banks tell the same cell.
fn tell_same<A: Bank, B: Bank>(a: &A, b: &B, node: u8, destination: u8) -> bool {
    let cell = a.cell(node, destination);
    cell.is_ok() && cell == b.cell(node, destination)
}

/// How many of a card's three cells two banks tell alike.
fn count_at<A: Bank, B: Bank>(a: &A, b: &B, node: u8) -> usize {
    (0..3u8)
        .filter(|&destination| tell_same(a, b, node, destination))
        .count()
}

/// How many of the nine cells two banks tell alike.
fn count_same<A: Bank, B: Bank>(a: &A, b: &B) -> usize {
    (0..3).fold(0usize, |sum, node| sum.saturating_add(count_at(a, b, node)))
}

/// The numbers 0, 1 and 2 go to the slots 1, 2 and 0, and all others stay.
// The tests have the like: three lines, in a program and in a crate of tests.
fn turned() -> [u8; 64] {
    let mut map = array::from_fn(|node| node as u8);
    map[0..3].copy_from_slice(&[1, 2, 0]);
    map
}

fn make_flat(heap: Global) -> anyhow::Result<FlatBank> {
    FlatBank::new(heap, &LINE).map_err(|_| anyhow!("no flat bank is made"))
}

fn make_ports(heap: Global) -> anyhow::Result<PortCards> {
    PortCards::new(heap, &LINE).map_err(|_| anyhow!("no port cards are made"))
}

/// Node 0 stands in port cards, nodes 1 and 2 behind a slot map in others.
fn make_cabinet(heap: Global) -> anyhow::Result<Joined<PortCards, SlotMap<PortCards>>> {
    let first = make_ports(heap)?;
    let below = make_ports(heap)?;
    let second = SlotMap::new(turned(), below)?;
    let cabinet = Joined::new(1, first, second)?;
    Ok(cabinet)
}

/// One refusal of each number that cards know.
fn show_refusals<B: Bank>(rt: &impl Print, bank: &mut B) -> io::Result<()> {
    show(rt, "put at node 4", bank.put(4, 0, 0, 0), "done")?;
    show(rt, "put for destination 64", bank.put(1, 64, 2, 0), "done")?;
    show(rt, "put of another's channel", bank.put(1, 0, 0, 0), "done")?;
    show(rt, "put in layer 8", bank.put(1, 0, 2, 8), "done")?;
    show(rt, "gate 1 opened", bank.set_gate(1, true), "done")?;
    show(rt, "put behind an open gate", bank.put(1, 0, 2, 0), "done")
}

/// Writes a plan into two banks of different make, and shows what they refuse.
pub(crate) fn fill_banks(rt: &HostRuntime) -> anyhow::Result<()> {
    let mut flat = make_flat(rt.alloc())?;
    let mut cabinet = make_cabinet(rt.alloc())?;
    let written = write_all(&mut flat, &Grid::line());
    show(rt, "plan into a flat bank", written, "done")?;
    let written = write_all(&mut cabinet, &Grid::line());
    show(
        rt,
        "plan into port cards behind a slot map in a cabinet",
        written,
        "done",
    )?;
    let same = count_same(&flat, &cabinet);
    println!(rt; "cells told alike: {same} of 9")?;
    show_refusals(rt, &mut cabinet)?;
    let behind = SlotMap::new([0; 64], flat).map_err(|rejected| rejected.fault);
    show(rt, "map to slot 0 alone", behind, "accepted")?;
    Ok(())
}

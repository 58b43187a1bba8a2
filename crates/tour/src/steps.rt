// Sheets, read and written.
use crate::grid::Grid;
use crate::sheets::{CUT_OFF, LINE};
use crate::showing::{show, show_bytes};
use anyhow::Context;
use sheet::{PlanSheet, read_plan, read_wiring, write_plan};
use std::io;
use wiring::{Cell, Cells, Ports, Wiring};

fn show_links(rt: &impl Print, wiring: &Wiring) -> io::Result<()> {
    for link in wiring.links() {
        let first = link.first;
        let second = link.second;
        println!(rt; "  link {first}-{second}")?;
    }
    Ok(())
}

fn show_own(rt: &impl Print, wiring: &Wiring) -> io::Result<()> {
    let ports = Ports::new(wiring);
    for node in 0..wiring.nodes() {
        print!(rt; "  node {node} owns channels")?;
        show_bytes(rt, ports.own(node))?;
    }
    Ok(())
}

/// Reads the wiring sheet and prints what it says.
pub(crate) fn read_line(rt: &impl Print) -> anyhow::Result<()> {
    println!(rt; "wiring sheet:")?;
    show_bytes(rt, &LINE)?;
    let wiring = read_wiring(&LINE).context("the wiring sheet")?;
    let nodes = wiring.nodes();
    let layers = wiring.layers();
    let channels = wiring.channels();
    println!(rt; "nodes {nodes}, layers {layers}, channels {channels}")?;
    show_links(rt, &wiring)?;
    show_own(rt, &wiring)?;
    Ok(())
}

fn show_cell(rt: &impl Print, plan: &PlanSheet<'_>, destination: u8, node: u8) -> io::Result<()> {
    match plan.cell(destination, node) {
        Cell::Empty => println!(rt; "  to {destination} from {node}: empty"),
        Cell::Hop { channel, layer } => println!(rt;
            "  to {destination} from {node}: channel {channel}, layer {layer}"
        ),
    }
}

fn show_plan(rt: &impl Print, plan: &PlanSheet<'_>) -> io::Result<()> {
    for destination in 0..plan.nodes {
        for node in 0..plan.nodes {
            show_cell(rt, plan, destination, node)?;
        }
    }
    Ok(())
}

/// Writes the sheet of a plan for the line, reads it back and prints its cells.
pub(crate) fn write_grid(rt: &impl Print) -> anyhow::Result<()> {
    let grid = Grid::line();
    let mut memory = [0u8; 32];
    let short = write_plan(3, &grid, &mut memory[0..29]);
    show(rt, "plan sheet into 29 bytes", short, "done")?;
    let length = write_plan(3, &grid, &mut memory).context("the plan sheet")?;
    println!(rt; "plan sheet, {length} bytes:")?;
    show_bytes(rt, &memory[0..30])?;
    let plan = read_plan(&memory[0..30]).context("the plan sheet, read back")?;
    show_plan(rt, &plan)?;
    Ok(())
}

/// What three damaged wiring sheets get.
pub(crate) fn read_damaged(rt: &impl Print) -> anyhow::Result<()> {
    show(rt, "no bytes", read_wiring(&[]), "accepted")?;
    show(
        rt,
        "last byte missing",
        read_wiring(&LINE[0..21]),
        "accepted",
    )?;
    show(rt, "node 2 not corded", read_wiring(&CUT_OFF), "accepted")?;
    Ok(())
}

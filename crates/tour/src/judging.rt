// The check, on plans made by hand.
use crate::grid::{Grid, hop};
use crate::sheets::{LINE_OF_TWO, TRIANGLE};
use crate::showing::show;
use anyhow::Context;
use plan_check::check_cells;
use sheet::read_wiring;
use std::io;
use wiring::{Cell, Cells, Wiring};

fn show_verdict(rt: &impl Print, name: &str, wiring: &Wiring, grid: &Grid) -> io::Result<()> {
    show(rt, name, check_cells(wiring, grid), "passes")
}

/// The channels of a route.
// No struct of wiring and grid: it would live for the printing alone.
fn show_route(
    rt: &impl Print,
    wiring: &Wiring,
    grid: &Grid,
    node: u8,
    destination: u8,
) -> io::Result<()> {
    print!(rt; "  route {node} to {destination}:")?;
    let mut at = node;
    for _ in 0..wiring.nodes() {
        let Cell::Hop { channel, .. } = grid.cell(destination, at) else {
            break;
        };
        print!(rt; " {channel}")?;
        at = wiring.into(channel);
    }
    println!(rt; "")
}

fn show_routes(rt: &impl Print, wiring: &Wiring, grid: &Grid, destination: u8) -> io::Result<()> {
    for node in (0..wiring.nodes()).filter(|&node| node != destination) {
        show_route(rt, wiring, grid, node, destination)?;
    }
    Ok(())
}

/// The plan for the line, and six plans that differ from it in a cell or two.
fn judge_line(rt: &impl Print, wiring: &Wiring) -> io::Result<()> {
    let plan = Grid::line();
    show_verdict(rt, "plan for the line", wiring, &plan)?;
    for destination in 0..wiring.nodes() {
        show_routes(rt, wiring, &plan, destination)?;
    }
    let high = Cell::Hop {
        channel: 1,
        layer: 2,
    };
    let apart = Cell::Hop {
        channel: 3,
        layer: 1,
    };
    let changes = [
        ("own cell filled", 0, hop(0)),
        ("cell emptied", 1, Cell::Empty),
        ("channel of another node", 1, hop(0)),
        ("layer too high", 1, high),
        ("layer of one cell changed", 2, apart),
        ("to and fro between 1 and 2", 1, hop(2)),
    ];
    for (name, place, cell) in changes {
        show_verdict(rt, name, wiring, &Grid::line().with(place, cell))?;
    }
    Ok(())
}

/// Every route upward round the triangle, in one layer and then with destination 1 in a layer of its own.
fn judge_triangle(rt: &impl Print, wiring: &Wiring) -> io::Result<()> {
    show_verdict(rt, "upward round the triangle", wiring, &Grid::round(0))?;
    show_verdict(rt, "destination 1 in layer 1", wiring, &Grid::round(1))
}

/// Judges plans for a line and for a triangle.
pub(crate) fn judge(rt: &impl Print) -> anyhow::Result<()> {
    let line = read_wiring(&LINE_OF_TWO).context("the line's sheet")?;
    judge_line(rt, &line)?;
    let triangle = read_wiring(&TRIANGLE).context("the triangle's sheet")?;
    judge_triangle(rt, &triangle)?;
    Ok(())
}

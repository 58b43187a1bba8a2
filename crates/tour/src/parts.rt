// What planning is made of: the escape tree, the queue, and a try of dependencies.
use crate::sheets::RING;
use anyhow::Context;
use cost::{Cost, Load};
use marks::{Mark, Marks};
use queue::{Entry, Heap};
use sheet::read_wiring;
use std::io;
use tree::EscapeTree;
use wiring::{Dependency, Network};

fn show_node(rt: &impl Print, node: u8, level: Option<u8>, up: Option<u8>) -> io::Result<()> {
    print!(rt; "  node {node}:")?;
    if let Some(level) = level {
        print!(rt; " level {level}")?;
    }
    match up {
        Some(channel) => println!(rt; ", up channel {channel}"),
        None => println!(rt; ", the root"),
    }
}

/// The levels and up channels below node 0.
fn show_tree(rt: &impl Print, network: &Network) -> io::Result<()> {
    println!(rt; "ring of five, from root 0:")?;
    let levels = network.wiring().levels(0);
    let tree = EscapeTree::new(network, 0);
    for (node, level) in (0..5).zip(levels) {
        show_node(rt, node, level, tree.up(node))?;
    }
    Ok(())
}

/// The channel that each node takes to a destination along the tree.
fn show_escape(rt: &impl Print, network: &Network, destination: u8) -> io::Result<()> {
    print!(rt; "  tree routes to {destination}:")?;
    let tree = EscapeTree::new(network, 0);
    for route in tree.routes_to(destination).iter().take(5) {
        match route {
            Some(channel) => print!(rt; " {channel}")?,
            None => print!(rt; " -")?,
        }
    }
    println!(rt; "")
}

/// Four entries into a queue with room for three, and all out again.
fn show_queue(rt: &impl Print) -> io::Result<()> {
    println!(rt; "queue with room for three:")?;
    let mut memory = [Entry {
        cost: Load::zero(),
        key: 0,
    }; 3];
    let mut queue = Heap::new(&mut memory);
    for (load, key) in [(2, 4), (1, 9), (2, 1), (0, 7)] {
        let cost = Load::zero().step(load);
        match queue.push(Entry { cost, key }) {
            Ok(()) => println!(rt; "  load {load}, key {key}: waits")?,
            Err(error) => println!(rt; "  load {load}, key {key}: {error}")?,
        }
    }
    for _ in 0..3 {
        let Some(entry) = queue.pop() else {
            break;
        };
        let load = entry.cost.total();
        let key = entry.key;
        println!(rt; "  handed out: load {load}, key {key}")?;
    }
    Ok(())
}

/// Dependencies tried: four round the ring, the one that closes it, and one the other way.
fn show_trials(rt: &impl Print, network: &Network) -> io::Result<()> {
    println!(rt; "dependencies tried:")?;
    let mut run = [Mark::Unused; 57600];
    let mut marks = Marks::new(&mut run);
    for (channel, on) in [(0, 2), (2, 4), (4, 6), (6, 8), (8, 0), (1, 9)] {
        if marks.try_dependency(network, Dependency { channel, on }) {
            println!(rt; "  channel {channel} on {on}: used")?;
        } else {
            println!(rt; "  channel {channel} on {on}: blocked, it closes a cycle")?;
        }
    }
    Ok(())
}

/// Shows the parts of planning on a ring.
pub(crate) fn show_parts(rt: &impl Print) -> anyhow::Result<()> {
    let wiring = read_wiring(&RING).context("the ring's sheet")?;
    let network = Network::new(&wiring);
    show_tree(rt, &network)?;
    show_escape(rt, &network, 3)?;
    show_queue(rt)?;
    show_trials(rt, &network)?;
    Ok(())
}

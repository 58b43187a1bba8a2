// Runs many sheets, one a line in hexadecimal behind its kind, and prints what each gets: `accepted`,
// `passes`, or what the display shows.
#![tactic(auto)]

ghost use Rattle.std.specs.Prelude.{◌<◌, IfSome};

use anyhow::{Context, anyhow};
use fault::Fault;
use plan_check::check;
use sheet::{read_plan, read_wiring};
use std::alloc::Global;

/// The value of a hexadecimal digit. Capitals are none, which `char::to_digit` would take.
fn digit(byte: u8) -> Option<u8>
    ensures { IfSome result (λ d. d < 16) }
{
    match byte {
        b'0'..=b'9' => Some(byte - b'0'),
        b'a'..=b'f' => Some(byte - b'a' + 10),
        _ => None,
    }
}

/// The byte of two digits, where both are digits.
fn byte_of(high: u8, low: u8) -> Option<u8> {
    Some(16 * digit(high)? + digit(low)?)
}

/// The bytes that a text spells, two digits a byte; `-` spells none.
fn decoded(heap: Global, text: &str) -> anyhow::Result<Vec<u8>> {
    let mut bytes = Vec::new(heap);
    let (pairs, _) = text.as_bytes().as_chunks::<2>();
    for &[high, low] in pairs {
        // Not by `context`: it would make the room for an error at each byte.
        let Some(byte) = byte_of(high, low) else {
            return Err(anyhow!("not a hexadecimal digit"));
        };
        bytes.push(byte)?;
    }
    Ok(bytes)
}

/// Prints a word where a call is done, or the fault that refuses it.
fn show<T: Drop>(rt: &impl Print, answer: Result<T, Fault>, done: &str) -> anyhow::Result<()> {
    match answer {
        Ok(_) => println!(rt; "{done}")?,
        Err(fault) => println!(rt; "{fault}")?,
    }
    Ok(())
}

fn run_check(rt: &HostRuntime, texts: &str) -> anyhow::Result<()> {
    let (wiring, plan) = texts.split_once(' ').context("a check takes two sheets")?;
    let wiring = decoded(rt.alloc(), wiring)?;
    let plan = decoded(rt.alloc(), plan)?;
    show(rt, check(wiring.as_slice(), plan.as_slice()), "passes")
}

fn run(rt: &HostRuntime, line: &str) -> anyhow::Result<()> {
    match line.split_once(' ') {
        Some(("wiring", text)) => {
            let bytes = decoded(rt.alloc(), text)?;
            show(rt, read_wiring(bytes.as_slice()), "accepted")
        }
        Some(("plan", text)) => {
            let bytes = decoded(rt.alloc(), text)?;
            show(rt, read_plan(bytes.as_slice()), "accepted")
        }
        Some(("check", texts)) => run_check(rt, texts),
        _ => Err(anyhow!("a line is a kind and its sheets")),
    }
}

fn main(rt: HostRuntime) -> anyhow::Result<()> {
    for line in rt.lines(rt.alloc()) {
        let line = line?;
        run(&rt, line.as_str())?;
    }
    Ok(())
}

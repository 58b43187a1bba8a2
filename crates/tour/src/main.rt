// One small job from beginning to end: a wiring sheet is read, a plan made by hand is written and read back, damaged sheets are
// refused, plans are judged and written into banks of cards, and what planning is made of is shown on a ring.
#![tactic(auto)]

mod banking;
mod grid;
mod judging;
mod parts;
mod sheets;
mod showing;
mod steps;

use banking::fill_banks;
use judging::judge;
use parts::show_parts;
use steps::{read_damaged, read_line, write_grid};

fn main(rt: HostRuntime) -> anyhow::Result<()> {
    read_line(&rt)?;
    write_grid(&rt)?;
    read_damaged(&rt)?;
    judge(&rt)?;
    fill_banks(&rt)?;
    show_parts(&rt)?;
    Ok(())
}

// The check of forwarding cells against a wiring: the first rule that they break, or that they pass; and what passing means.
#![tactic(auto)]

mod cycles;
mod noting;
mod promises;
mod rules;
mod sets;
mod sheets;
mod sound;
mod verdict;

pub use promises::{no_packets_wait_in_a_circle, routes_arrive, verdict_is_exact};
pub use sheets::check;
pub use verdict::check_cells;

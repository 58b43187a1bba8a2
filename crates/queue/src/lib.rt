// A queue of entries by cost, in memory lent to it.
#![tactic(auto)]

mod entries;
mod heaps;
mod sifting;

pub use entries::Entry;
pub use heaps::{Heap, NoRoom};

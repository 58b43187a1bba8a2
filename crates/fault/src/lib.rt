// The faults by which every call of the product is refused.
#![tactic(auto)]

mod faults;

pub use faults::{Fault, Part, Place};

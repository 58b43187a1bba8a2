// Banks over banks.
#![tactic(auto)]

mod cabinets;
mod joining;
mod mapping;
mod places;
mod slots;

pub use cabinets::Joined;
pub use mapping::Rejected;
pub use slots::SlotMap;

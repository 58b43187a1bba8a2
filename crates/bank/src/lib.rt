// Banks of switch cards, by their meaning.
#![tactic(auto)]

mod banks;
mod standing;

pub use banks::Bank;
pub use standing::Standing;

// What a route costs: the trait of the kinds of cost, and three kinds.
#![tactic(auto)]

mod counts;
mod kinds;
mod loads;
mod pairs;
mod promises;

pub use counts::Hops;
pub use kinds::Cost;
pub use loads::Load;
pub use pairs::HopsThenLoad;
pub use promises::{at_most_is_total, kinds_compare_by_numbers};

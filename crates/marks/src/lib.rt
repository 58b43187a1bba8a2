// The marks of dependencies: which are used, which are blocked, and what a try of one more does.
#![tactic(auto)]

mod kinds;
mod marking;
mod searching;
mod spots;
mod squares;
mod trials;
mod trying;
mod visiting;
mod visits;

pub use kinds::Mark;
pub use squares::Marks;

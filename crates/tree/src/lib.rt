// Escape trees: from every node to every other along the channels of a tree, without a cycle of dependencies.
#![tactic(auto)]

mod climbing;
mod descending;
mod marking;
mod tables;
mod trees;

pub use trees::EscapeTree;

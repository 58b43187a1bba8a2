// Wirings: nodes, links and channels, and the cells of forwarding tables.
#![tactic(auto)]

mod channels;
mod dependencies;
mod joining;
mod laying;
mod leveling;
mod links;
mod making;
mod mapping;
mod networks;
mod own;
mod partners;
mod table;
mod wirings;

pub use dependencies::Dependency;
pub use links::Link;
pub use networks::Network;
pub use own::Ports;
pub use partners::{PARTNER, partner_of};
pub use table::{Cell, Cells};
pub use wirings::Wiring;

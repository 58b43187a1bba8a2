// Banks of cards held in memory.
#![tactic(auto)]

mod cards;
mod channels;
mod decks;
mod errors;
mod grids;
mod making;
mod numbered;
mod ports;
mod stores;

pub use channels::Channels;
pub use decks::Cards;
pub use errors::MakeError;
pub use numbered::Numbered;
pub use ports::PortCell;
pub use stores::Store;

/// Cards that keep channels.
pub type FlatBank = Cards<Channels>;

/// Cards that keep ports.
pub type PortCards = Cards<Numbered>;

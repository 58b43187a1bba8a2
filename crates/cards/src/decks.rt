// A bank of cards in memory: its gates, and a store for the cells.
ghost use Rattle.std.specs.Prelude.{◌≡◌, ◌≤◌, length};

/// Cards for the first nodes.
#[derive(Drop)]
pub struct Cards<S> {
    pub(crate) nodes: u8,
    pub(crate) gates: [bool; 64],
    pub(crate) store: S,
    ghost few: { nodes ≤ 64 },
    ghost all: { length gates ≡ 64 },
}

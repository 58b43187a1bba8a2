// Two banks joined into one.
ghost use Rattle.std.specs.Prelude.{◌≤◌};

/// Nodes below the split stand in the first bank, and node n from the split on at number n − split of the second.
#[derive(Drop)]
pub struct Joined<A, B> {
    pub(crate) split: u8,
    pub(crate) first: A,
    pub(crate) second: B,
    ghost low: { split ≤ 64 },
}

/// Where a node stands: in the first bank or the second, and at which number there.
#[derive(Clone, Copy)]
pub(crate) enum Side {
    First(u8),
    Second(u8),
}

// The kinds of marks.

/// The mark of a dependency of one channel on another.
#[derive(Clone, Copy, PartialEq, Eq, Debug)]
pub enum Mark {
    Unused,
    Used,
    Blocked,
}

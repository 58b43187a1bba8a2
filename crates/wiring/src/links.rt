// Links.
ghost use Rattle.std.specs.Prelude.{◌≡◌};
ghost use Rattle.wiring.specs.Links.{fresh};

/// A link joins two nodes by two channels, one in each direction.
#[derive(Clone, Copy, PartialEq, Eq, Debug)]
pub struct Link {
    pub first: u8,
    pub second: u8,
    /// The load of the channel from the first end to the second.
    pub forth: u32,
    /// The load of the channel from the second end to the first.
    pub back: u32,
}

impl Link {
    /// A link between two nodes, its loads at 1.
    pub fn new(first: u8, second: u8) -> Link
        ensures { result ≡ fresh (first, second) }
    {
        Link {
            first,
            second,
            forth: 1,
            back: 1,
        }
    }
}

// Dependencies of channels.
ghost use Rattle.std.specs.Prelude.{◌≡◌, ◌+◌, ◌*◌};

/// A packet on `channel` may wait for `on`.
#[derive(Clone, Copy, PartialEq, Eq, Debug)]
pub struct Dependency {
    pub channel: u8,
    pub on: u8,
}

impl Dependency {
    /// Its place in a square of 240 channels by 240, row by row, where both are below 240.
    pub fn place(self) -> usize
        ensures { result ≡ 240 * self.channel + self.on }
    {
        240 * self.channel as usize + self.on as usize
    }
}

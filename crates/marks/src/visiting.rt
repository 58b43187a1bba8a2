// Visits: begun, added to and taken from.
ghost use Rattle.std.specs.Prelude.{◌≡◌, ◌-◌, ◌<◌, true, false, replicate, slice_index, slice_set};
ghost use Rattle.marks.specs.Searches.{Grown, Seen, last_stacked};

use crate::visits::Visits;

impl Visits {
    /// The visits of a search that begins at a channel.
    pub(crate) fn begin(channel: u8) -> Visits
        requires { channel < 240 }
        ensures seen { result.seen ≡ slice_set (replicate 240 false) channel true }
        ensures stack { slice_index result.stack 0 ≡ channel }
        ensures count { result.count ≡ 1 }
    {
        let mut seen = [false; 240];
        let mut stack = [0u8; 240];
        seen[channel as usize] = true;
        stack[0] = channel;
        Visits {
            seen,
            stack,
            count: 1,
        }
    }

    /// Sees a channel: where it is new, it is still to be looked at.
    pub(crate) fn add(&mut self, channel: u8)
        requires { channel < 240 }
        ensures grown { Grown (λ y. y ≡ channel) self.old self.new }
        ensures found { Seen self.new channel }
    {
        if self.seen[channel as usize] {
            return;
        }
        self.seen[channel as usize] = true;
        self.stack[self.count] = channel;
        self.count += 1;
    }

    /// Takes a channel that is still to be looked at; none where there is none.
    pub(crate) fn take(&mut self) -> Option<u8>
        ensures answer { result ≡ last_stacked self.old }
        ensures seen { self.new.seen ≡ self.old.seen }
        ensures stack { self.new.stack ≡ self.old.stack }
        ensures count { self.new.count ≡ self.old.count - 1 }
    {
        if self.count == 0 {
            return None;
        }
        self.count -= 1;
        Some(self.stack[self.count])
    }
}

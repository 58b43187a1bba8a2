// A set of numbers below a limit.
ghost use Rattle.std.specs.Prelude.{◌≡◌, ◌<◌, true, false, length, replicate, slice_set, slice_index_or};

/// Places below N, marked where the set has them. Fixed memory: no `HashSet`.
#[derive(Drop)]
pub(crate) struct PlaceSet<const N: usize> {
    marks: [bool; N],
    // tried: without it the proofs do not know the length of the array inside a loop.
    ghost size: { length marks ≡ N },
}

impl<const N: usize> PlaceSet<N> {
    pub(crate) fn new() -> Self
        ensures { result.marks ≡ replicate N false }
    {
        PlaceSet { marks: [false; N] }
    }

    pub(crate) fn insert(&mut self, place: usize)
        requires { place < N }
        ensures { self.new.marks ≡ slice_set self.old.marks place true }
    {
        self.marks[place] = true;
    }

    pub(crate) fn contains(&self, place: usize) -> bool
        ensures { result ≡ slice_index_or self.now.marks place false }
    {
        self.marks.get(place).copied().unwrap_or(false)
    }
}

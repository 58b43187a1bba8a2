// Where the mark of a dependency stands.
ghost use Rattle.std.specs.Prelude.{◌≡◌, ◌<◌, false, MatchOption};
ghost use Rattle.marks.specs.Marked.{in_square};

use wiring::Dependency;

/// A dependency that has its place in the square: both its channels are below 240.
#[derive(Clone, Copy)]
pub(crate) struct Spot {
    pub(crate) dependency: Dependency,
    ghost within: { (dependency.channel < 240) × (dependency.on < 240) },
}

impl Spot {
    /// The spot of a dependency; none where either is no channel number.
    pub(crate) fn of(dependency: Dependency) -> Option<Spot>
        ensures { MatchOption result (in_square dependency.channel dependency.on ≡ false) (λ s. s.dependency ≡ dependency) }
    {
        if dependency.channel < 240 && dependency.on < 240 {
            Some(Spot { dependency })
        } else {
            None
        }
    }
}

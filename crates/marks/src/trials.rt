// A dependency on trial.
ghost use Rattle.std.specs.Prelude.{◌≡◌, ◌+◌, ◌*◌, ◌<◌, slice_set};

use crate::kinds::Mark;
use crate::spots::Spot;

/// A dependency on trial: it is marked as used, and unused again when the trial ends, unless it is kept.
pub(crate) struct Trial<'a> {
    run: &'a mut [Mark; 57600],
    place: usize,
    ghost within: { place < 57600 },
}

impl Drop for Trial<'_> {
    fn drop(self)
        ensures { self.exit.0.now ≡ slice_set self.entry.run.now self.entry.place Mark.Unused }
    {
        let Trial { run, place } = self;
        run[place] = Mark::Unused;
    }
}

impl<'a> Trial<'a> {
    /// Puts a dependency on trial.
    pub(crate) fn begin(run: &'a mut [Mark; 57600], spot: Spot) -> Trial<'a>
        ensures run { result.run.now ≡ slice_set run.old (240 * spot.dependency.channel + spot.dependency.on) Mark.Used }
        ensures place { result.place ≡ 240 * spot.dependency.channel + spot.dependency.on }
        ensures same { result.run.ghost_name ≡ run.entry.ghost_name }
    {
        let place = spot.dependency.place();
        run[place] = Mark::Used;
        Trial { run, place }
    }

    /// The marks, with the one on trial.
    pub(crate) fn run(&self) -> &[Mark; 57600]
        ensures { result.now ≡ self.now.run.now }
    {
        self.run
    }

    /// Ends the trial, and keeps the dependency used.
    pub(crate) fn keep(self)
        ensures { self.exit.0.now ≡ self.entry.run.now }
    {
        let Trial { run: _, place: _ } = self;
    }
}

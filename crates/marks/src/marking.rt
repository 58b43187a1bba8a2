// Marks: made, read and set.
ghost use Rattle.std.specs.Prelude.{◌≡◌};
ghost use Rattle.marks.specs.Marked.{mark_in, marked, with_mark, no_marks};

use crate::kinds::Mark;
use crate::spots::Spot;
use crate::squares::Marks;
use wiring::Dependency;

/// The mark of a dependency in a run; unused where either is no channel number.
pub(crate) fn mark_in(run: &[Mark; 57600], dependency: Dependency) -> Mark
    ensures { result ≡ mark_in run.now dependency.channel dependency.on }
{
    match Spot::of(dependency) {
        Some(spot) => run[spot.dependency.place()],
        None => Mark::Unused,
    }
}

/// Sets the mark of a dependency in a run; nothing changes where either is no channel number.
pub(crate) fn set_mark(run: &mut [Mark; 57600], dependency: Dependency, mark: Mark)
    ensures { mark_in run.new ≡ with_mark (mark_in run.old) dependency.channel dependency.on mark }
{
    if let Some(spot) = Spot::of(dependency) {
        run[spot.dependency.place()] = mark;
    }
}

impl<'a> Marks<'a> {
    /// Marks in a run that is lent, every one unused.
    pub fn new(run: &'a mut [Mark; 57600]) -> Marks<'a>
        ensures { marked result ≡ no_marks }
    {
        let mut marks = Marks { run };
        marks.clear();
        marks
    }

    /// The mark of a dependency; unused where either is no channel number.
    pub fn mark(&self, dependency: Dependency) -> Mark
        ensures { result ≡ marked self.now dependency.channel dependency.on }
    {
        mark_in(self.run, dependency)
    }

    /// Makes every mark unused.
    pub fn clear(&mut self)
        ensures { marked self.new ≡ no_marks }
    {
        self.run.fill(Mark::Unused);
    }

    /// Marks a dependency as used; nothing changes where either is no channel number.
    pub fn set_used(&mut self, dependency: Dependency)
        ensures { marked self.new ≡ with_mark (marked self.old) dependency.channel dependency.on Mark.Used }
    {
        set_mark(self.run, dependency, Mark::Used);
    }
}

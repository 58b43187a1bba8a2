// A dependency tried: used, unless it closes a cycle.
ghost use Rattle.std.specs.Prelude.{◌≡◌, true, false, if◌then◌else◌};
ghost use Rattle.wiring.specs.Networks.{net};
ghost use Rattle.plan_check.specs.Marks.{Follows};
ghost use Rattle.marks.specs.Marked.{mark_in, marked, with_mark};
ghost use Rattle.marks.specs.Searches.{Closes};
ghost use Rattle.marks.specs.Trials.{FreeOfCycles, TrialIs};
ghost use Rattle.marks.specs.Tries.{Tried, tried_after};

use crate::kinds::Mark;
use crate::marking::set_mark;
use crate::searching::closes_cycle;
use crate::spots::Spot;
use crate::squares::Marks;
use crate::trials::Trial;
use wiring::{Dependency, Network};

/// Puts an unused dependency on trial, and keeps it used unless it closes a cycle.
// Run and network stay two parameters: the guard takes the run alone.
fn use_unless_closing(run: &mut [Mark; 57600], network: &Network, spot: Spot) -> bool
    requires { mark_in run.old spot.dependency.channel spot.dependency.on ≡ Mark.Unused }
    ensures kept { result ≡ true → mark_in run.new ≡ with_mark (mark_in run.old) spot.dependency.channel spot.dependency.on Mark.Used }
    ensures back { result ≡ false → run.new ≡ run.old }
    ensures closed { result ≡ false → Closes (net network.now) (mark_in run.old) spot.dependency.channel spot.dependency.on }
    ensures free { result ≡ true → ¬ Closes (net network.now) (mark_in run.old) spot.dependency.channel spot.dependency.on }
{
    let trial = Trial::begin(run, spot);
    if closes_cycle(trial.run(), network, spot) {
        return false;
    }
    trial.keep();
    true
}

/// Tries an unused dependency: it is used from now on, or blocked where it closes a cycle.
fn try_unused(run: &mut [Mark; 57600], network: &Network, spot: Spot) -> bool
    requires { mark_in run.old spot.dependency.channel spot.dependency.on ≡ Mark.Unused }
    ensures after { mark_in run.new ≡ with_mark (mark_in run.old) spot.dependency.channel spot.dependency.on (if result then Mark.Used else Mark.Blocked) }
    ensures closed { result ≡ false → Closes (net network.now) (mark_in run.old) spot.dependency.channel spot.dependency.on }
    ensures free { result ≡ true → ¬ Closes (net network.now) (mark_in run.old) spot.dependency.channel spot.dependency.on }
{
    if use_unless_closing(run, network, spot) {
        return true;
    }
    set_mark(run, spot.dependency, Mark::Blocked);
    false
}

impl Marks<'_> {
    /// Tries a dependency: whether it may be used. One that is unused is used from now on, or blocked where it closes a cycle of used ones.
    pub fn try_dependency(&mut self, network: &Network, dependency: Dependency) -> bool
        ensures answer { Tried (net network.now) (marked self.old) dependency.channel dependency.on result }
        ensures trial { FreeOfCycles (net network.now) (marked self.old) → Follows (net network.now) dependency.channel dependency.on → TrialIs (net network.now) (marked self.old) dependency.channel dependency.on result (marked self.new) }
        ensures keeps { FreeOfCycles (net network.now) (marked self.old) → Follows (net network.now) dependency.channel dependency.on → FreeOfCycles (net network.now) (marked self.new) }
        ensures after { marked self.new ≡ tried_after (net network.now) (marked self.old) dependency.channel dependency.on result }
    {
        let channels = network.wiring().channels();
        if dependency.channel >= channels || dependency.on >= channels {
            return false;
        }
        match self.mark(dependency) {
            Mark::Blocked => false,
            Mark::Used => true,
            Mark::Unused => try_unused(self.run, network, Spot { dependency }),
        }
    }
}

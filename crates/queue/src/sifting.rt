// Entries moved up and down until every parent comes first.
ghost use Rattle.std.specs.Prelude.{◌≡◌, ◌+◌, ◌-◌, ◌*◌, ◌<◌, ◌≤◌, length, slice_index_or};
ghost use Rattle.std.specs.List.Sorted.{IsPermutation};
ghost use Rattle.std.specs.BinaryHeap.Sift.{IsGreaterChild, SiftsDown, SiftsUp};
ghost use Rattle.queue.specs.Order.{later, sooner};

use crate::entries::Entry;
use cost::Cost;

/// Whether the entry at `a` comes sooner than that at `b`.
fn comes_sooner<K: Cost>(run: &[Entry<K>], a: usize, b: usize) -> bool
    requires { (a < length run.now) × (b < length run.now) }
    ensures { (d : Entry K) → result ≡ sooner K.cmp (slice_index_or run.now a d) (slice_index_or run.now b d) }
{
    run[a] < run[b]
}

/// Moves the last entry up to its place.
#[tactic(auto, using(crate::proofs::OrderLaws::rising))]
pub(crate) fn sift_up<K: Cost>(run: &mut [Entry<K>])
    requires { 0 < length run.old }
    ensures shuffled { IsPermutation run.old run.new }
    ensures rises { SiftsUp (later K.cmp) run.old (length run.old - 1) run.new }
{
    let mut at = run.len() - 1;
    // A path in the tree and no run of places: no iterator walks it, and no method of slices sifts.
    while at > 0 {
        let parent = (at - 1) / 2;
        if !comes_sooner(run, at, parent) {
            return;
        }
        run.swap(parent, at);
        at = parent;
    }
}

/// The child that comes first.
fn first_child<K: Cost>(run: &[Entry<K>], parent: usize) -> usize
    requires { parent * 2 + 1 < length run.now }
    ensures bound { (result < length run.now) × (parent * 2 + 1 ≤ result) × (result ≤ parent * 2 + 2) }
    ensures best { IsGreaterChild (later K.cmp) run.now parent result (length run.now) }
{
    let left = parent * 2 + 1;
    let right = left + 1;
    if right < run.len() && comes_sooner(run, right, left) {
        return right;
    }
    left
}

/// Moves the first entry down to its place.
#[tactic(auto, using(crate::proofs::OrderLaws::sinking))]
pub(crate) fn sift_down<K: Cost>(run: &mut [Entry<K>])
    ensures shuffled { IsPermutation run.old run.new }
    ensures sinks { SiftsDown (later K.cmp) run.old 0 (length run.old) run.new }
{
    let len = run.len();
    let mut at = 0;
    // A path in the tree, as above.
    while at < len / 2 {
        let child = first_child(run, at);
        if !comes_sooner(run, child, at) {
            return;
        }
        run.swap(at, child);
        at = child;
    }
}

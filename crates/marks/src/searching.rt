// The search for a cycle that a dependency on trial closes.
ghost use Rattle.std.specs.Prelude.{◌≡◌, ℕ, true, false};
ghost use Rattle.wiring.specs.Networks.{net};
ghost use Rattle.marks.specs.Marked.{is_used, mark_in};
ghost use Rattle.marks.specs.Searches.{Grown, Next, Reach, Seen};

use crate::kinds::Mark;
use crate::marking::mark_in;
use crate::spots::Spot;
use crate::visits::Visits;
use wiring::{Dependency, Network};

/// Whether a dependency is used.
fn is_used(run: &[Mark; 57600], dependency: Dependency) -> bool
    ensures { result ≡ is_used (mark_in run.now dependency.channel dependency.on) }
{
    mark_in(run, dependency) == Mark::Used
}

/// Sees every channel that this one depends on by a used dependency.
fn look_at(run: &[Mark; 57600], network: &Network, visits: &mut Visits, channel: u8)
    ensures grown { Grown (Next (net network.now) (mark_in run.now) channel) visits.old visits.new }
    ensures found { (y : ℕ) → Next (net network.now) (mark_in run.now) channel y → Seen visits.new y }
{
    let own = network.own(network.wiring().into(channel));
    for &on in own {
        if is_used(run, Dependency { channel, on }) {
            visits.add(on);
        }
    }
}

/// Whether used dependencies lead back from the second channel to the first, so that this dependency closes a cycle of them.
pub(crate) fn closes_cycle(run: &[Mark; 57600], network: &Network, spot: Spot) -> bool
    ensures yes { result ≡ true → Reach (Next (net network.now) (mark_in run.now)) spot.dependency.on spot.dependency.channel }
    ensures no { result ≡ false → Reach (Next (net network.now) (mark_in run.now)) spot.dependency.on spot.dependency.channel → ⊥ }
{
    let mut visits = Visits::begin(spot.dependency.on);
    while !visits.seen[spot.dependency.channel as usize] {
        let Some(channel) = visits.take() else {
            return false;
        };
        look_at(run, network, &mut visits, channel);
    }
    true
}

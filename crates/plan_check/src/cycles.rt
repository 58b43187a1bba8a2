// Whether the dependencies of a layer have a cycle: channels that depend on nothing that is left are taken away until none can be.
ghost use Rattle.std.specs.Prelude.{◌≡◌, ℕ, ◌<◌, ◌&&◌, true, false, not};
ghost use Rattle.std.specs.List.{list_any, range_with_len};
ghost use Rattle.wiring.specs.Networks.{net};
ghost use Rattle.wiring.specs.Topologies.{channels};
ghost use Rattle.plan_check.specs.Cycles.{Deps, acyclic};
ghost use Rattle.plan_check.specs.Rules.{deps_in};
ghost use Rattle.plan_check.specs.Marks.{Noted, Swept, is_gone, mark};

use crate::sets::PlaceSet;
use crate::sound::SoundCells;
use wiring::{Cells, Dependency, Network};

/// The channels of a network, and the dependencies of a layer.
#[derive(Drop)]
struct Layer<'a> {
    network: &'a Network<'a>,
    noted: &'a PlaceSet<57600>,
}

impl Layer<'_> {
    /// Whether a channel depends on one of these that is left.
    fn is_held(&self, own: &[u8], gone: &PlaceSet<240>, channel: u8) -> bool
        ensures { result ≡ list_any (λ e. mark self.now.noted.now.marks channel e && not (is_gone gone.now.marks e)) own.now }
    {
        own.iter().any(|&on| self.noted.contains(Dependency { channel, on }.place())
            && !gone.contains(on as usize))
    }

    /// Takes away the channels that depend on nothing that is left, upward; whether there was one.
    fn sweep(&self, gone: &mut PlaceSet<240>) -> bool
        ensures { Swept (net self.now.network.now) self.now.noted.now.marks gone.old.marks gone.new.marks result }
    {
        let wiring = self.network.wiring();
        let mut taken = false;
        for channel in 0..wiring.channels() {
            if !gone.contains(channel as usize)
                && !self.is_held(self.network.own(wiring.into(channel)), gone, channel)
            {
                gone.insert(channel as usize);
                taken = true;
            }
        }
        taken
    }

    /// Whether a channel is left.
    fn any_left(&self, gone: &PlaceSet<240>) -> bool
        ensures { result ≡ list_any (λ c. not (is_gone gone.now.marks c)) (range_with_len 0 (channels (net self.now.network.now))) }
    {
        (0..self.network.wiring().channels()).any(|channel| !gone.contains(channel as usize))
    }

    /// Whether a channel stays however often they are taken away.
    fn cycle_stays(&self) -> bool
        ensures { (D : Deps) → Noted (net self.now.network.now) self.now.noted.now.marks D → result ≡ not (acyclic D) }
    {
        let mut gone = PlaceSet::new();
        while self.sweep(&mut gone) {}
        self.any_left(&gone)
    }
}

impl<T: Cells> SoundCells<'_, T> {
    /// Whether the dependencies of a layer have a cycle.
    pub(crate) fn has_cycle(&self, layer: u8) -> bool
        ensures { result ≡ not (acyclic (deps_in (net self.now.network) (T.Cells.meant self.now.cells.now) layer)) }
    {
        let mut noted = PlaceSet::new();
        self.note_layer(layer, &mut noted);
        let kept = Layer {
            network: &self.network,
            noted: &noted,
        };
        kept.cycle_stays()
    }
}

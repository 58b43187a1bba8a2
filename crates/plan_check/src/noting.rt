// The dependencies of a layer.
ghost use Rattle.std.specs.Prelude.{◌≡◌, ℕ, ◌<◌, []};
ghost use Rattle.wiring.specs.Lists.{fold};
ghost use Rattle.wiring.specs.Networks.{net};
ghost use Rattle.wiring.specs.Topologies.{all_nodes};
ghost use Rattle.plan_check.specs.Cycles.{Deps};
ghost use Rattle.plan_check.specs.Rules.{dep_at, deps_in};
ghost use Rattle.plan_check.specs.Marks.{Noted, Within, with_dep};

use crate::rules::layer_to;
use crate::sets::PlaceSet;
use crate::sound::SoundCells;
use wiring::{Cell, Cells, Dependency};

impl<T: Cells> SoundCells<'_, T> {
    /// The dependency that the cell of a node for a destination and the cell after it give.
    fn dependency_at(&self, destination: u8, node: u8) -> Option<Dependency>
        requires known { (destination < (net self.now.network).nodes) × (node < (net self.now.network).nodes) }
        ensures same { (D : Deps) → dep_at (net self.now.network) (T.Cells.meant self.now.cells.now) destination D node ≡ with_dep result D }
        ensures within { Within (net self.now.network) result }
    {
        let Cell::Hop { channel, .. } = self.cells.cell(destination, node) else {
            return None;
        };
        let next = self.network.wiring().into(channel);
        if next == destination {
            return None;
        }
        match self.cells.cell(destination, next) {
            Cell::Empty => None,
            Cell::Hop { channel: on, .. } => Some(Dependency { channel, on }),
        }
    }

    /// Notes the dependencies of the routes to a destination.
    fn note_to(&self, destination: u8, noted: &mut PlaceSet<57600>)
        requires known { destination < (net self.now.network).nodes }
        ensures { (D : Deps) → Noted (net self.now.network) noted.old.marks D → Noted (net self.now.network) noted.new.marks (fold (dep_at (net self.now.network) (T.Cells.meant self.now.cells.now) destination) D (all_nodes (net self.now.network))) }
    {
        for node in 0..self.network.wiring().nodes() {
            if let Some(dependency) = self.dependency_at(destination, node) {
                noted.insert(dependency.place());
            }
        }
    }

    /// Notes the dependencies of a layer in an empty set, which is lent: handed over by value, it would be copied.
    pub(crate) fn note_layer(&self, layer: u8, noted: &mut PlaceSet<57600>)
        requires none { Noted (net self.now.network) noted.old.marks [] }
        ensures { Noted (net self.now.network) noted.new.marks (deps_in (net self.now.network) (T.Cells.meant self.now.cells.now) layer) }
    {
        for destination in 0..self.network.wiring().nodes() {
            if layer_to(self.cells, destination) == layer {
                self.note_to(destination, noted);
            }
        }
    }
}

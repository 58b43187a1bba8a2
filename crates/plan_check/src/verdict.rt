// The verdict: the first faulty cell in sheet order, and after all cells the lowest layer with a cycle.
ghost use Rattle.std.specs.Prelude.{◌≡◌, MatchResult, None, Some};
ghost use Rattle.fault.specs.Faults.{judged};
ghost use Rattle.wiring.specs.Lists.{range, first_some};
ghost use Rattle.wiring.specs.Networks.{net};
ghost use Rattle.wiring.specs.Wirings.{topology};
ghost use Rattle.plan_check.specs.Rules.{first_fault, layer_fault, verdict};
ghost use Rattle.plan_check.specs.Verdicts.{Exact, Arrives, Moves};

use crate::rules::Candidate;
use crate::sound::SoundCells;
use fault::Fault;
use wiring::{Cells, Network, Wiring};

impl<'a, T: Cells> SoundCells<'a, T> {
    /// The cells, if each keeps its rules; the first faulty cell, if not.
    fn new(candidate: &Candidate<'a, T>) -> Result<SoundCells<'a, T>, Fault>
        ensures { MatchResult result (λ s. (net s.network ≡ topology candidate.now.wiring.now) × (s.cells.now ≡ candidate.now.cells.now) × (first_fault (topology candidate.now.wiring.now) (T.Cells.meant candidate.now.cells.now) ≡ None)) (λ f. first_fault (topology candidate.now.wiring.now) (T.Cells.meant candidate.now.cells.now) ≡ Some f) }
    {
        candidate.check_rules()?;
        Ok(SoundCells {
            network: Network::new(candidate.wiring),
            cells: candidate.cells,
        })
    }

    /// The lowest layer with a cycle.
    fn check_layers(&self) -> Result<(), Fault>
        ensures { result ≡ judged (first_some (layer_fault (net self.now.network) (T.Cells.meant self.now.cells.now)) (range 0 (net self.now.network).layers)) }
    {
        for layer in 0..self.network.wiring().layers() {
            if self.has_cycle(layer) {
                return Err(Fault::Cycle { layer });
            }
        }
        Ok(())
    }
}

/// Refuses cells for the first rule that they break.
fn judge<T: Cells>(candidate: &Candidate<T>) -> Result<(), Fault>
    ensures { result ≡ judged (verdict (topology candidate.now.wiring.now) (T.Cells.meant candidate.now.cells.now)) }
{
    SoundCells::new(candidate)?.check_layers()
}

/// Judges a table of cells for a wiring. Cells that pass lead everywhere, and packets on their routes never wait in a circle.
pub fn check_cells<T: Cells>(wiring: &Wiring, cells: &T) -> Result<(), Fault>
    ensures answer { result ≡ judged (verdict (topology wiring.now) (T.Cells.meant cells.now)) }
    ensures exact { Exact (topology wiring.now) (T.Cells.meant cells.now) result }
    ensures arrives { Arrives (topology wiring.now) (T.Cells.meant cells.now) result }
    ensures moves { Moves (topology wiring.now) (T.Cells.meant cells.now) result }
{
    judge(&Candidate { wiring, cells })
}

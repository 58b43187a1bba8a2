// Banks from a wiring sheet.
ghost use Rattle.std.specs.Prelude.{◌≡◌, MatchResult};
ghost use Rattle.cards.specs.Makings.{MadeFrom, NotMade};

use crate::decks::Cards;
use crate::errors::MakeError;
use crate::stores::Store;
use bank::Bank;
use sheet::read_wiring;
use std::alloc::Global;

impl<S: Store> Cards<S> {
    /// Cards for the nodes of the wiring in a sheet: gates shut, cells empty.
    pub fn new(heap: Global, sheet: &[u8]) -> Result<Cards<S>, MakeError>
        ensures { MatchResult result (λ b. MadeFrom sheet.now (⟦<Cards<S> as Bank>⟧.view b)) (λ e. NotMade sheet.now e) }
    {
        let wiring = read_wiring(sheet)?;
        let nodes = wiring.nodes();
        let gates = [false; 64];
        let store = S::new(heap, wiring)?;
        Ok(Cards {
            nodes,
            gates,
            store,
        })
    }
}

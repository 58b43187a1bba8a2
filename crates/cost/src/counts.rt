// Costs by hops.
ghost use Rattle.std.specs.Prelude.{◌≡◌, ◌≤◌};
ghost use Rattle.cost.specs.Steps.{most_hops, up_to};
ghost use Rattle.cost.specs.Bounds.{zero_fits, up_to_fits};
ghost use Rattle.std.proofs.Common.{rules, arith};

use crate::kinds::Cost;

/// The number of channels, which stops at 65,535.
#[derive(Clone, Copy, PartialEq, Eq, PartialOrd, Ord)]
pub struct Hops {
    count: u16,
    ghost few: { count ≤ most_hops },
}

impl Hops {
    /// The number of channels.
    pub fn count(&self) -> u16
        ensures { result ≡ self.now.count }
    {
        self.count
    }
}

impl Cost for Hops {
    ghost nil = { record { count = 0; few = zero_fits most_hops } };

    ghost stepped = { λ x _. record { count = up_to most_hops x.count 1; few = up_to_fits most_hops x.count 1 } };

    ghost identical = { Prim.grind (arith, Self.row.coded.inj) };

    ghost rises = { Prim.search rules };

    ghost keeps = { Prim.search rules };

    fn zero() -> Hops {
        Hops { count: 0 }
    }

    fn step(self, _load: u32) -> Hops {
        Hops {
            count: self.count.saturating_add(1),
        }
    }
}

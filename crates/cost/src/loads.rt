// Costs by load.
ghost use Rattle.std.specs.Prelude.{◌≡◌, ◌≤◌};
ghost use Rattle.cost.specs.Steps.{most_load, up_to};
ghost use Rattle.cost.specs.Bounds.{zero_fits, up_to_fits};
ghost use Rattle.std.proofs.Common.{rules, arith};

use crate::kinds::Cost;

/// The loads of the channels added up, which stops at 4,294,967,295.
// Not one generic type with `Hops`: they step by different numbers, so each would keep an impl of `Cost` of its own.
#[derive(Clone, Copy, PartialEq, Eq, PartialOrd, Ord)]
pub struct Load {
    total: u32,
    ghost light: { total ≤ most_load },
}

impl Load {
    /// The loads added up.
    pub fn total(&self) -> u32
        ensures { result ≡ self.now.total }
    {
        self.total
    }
}

impl Cost for Load {
    ghost nil = { record { total = 0; light = zero_fits most_load } };

    ghost stepped = { λ x n. record { total = up_to most_load x.total n; light = up_to_fits most_load x.total n } };

    ghost identical = { Prim.grind (arith, Self.row.coded.inj) };

    ghost rises = { Prim.search rules };

    ghost keeps = { Prim.search rules };

    fn zero() -> Load {
        Load { total: 0 }
    }

    fn step(self, load: u32) -> Load {
        Load {
            total: self.total.saturating_add(load),
        }
    }
}

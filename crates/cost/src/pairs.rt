// Costs by hops, then load.
ghost use Rattle.std.specs.Prelude.{◌≡◌, ◌≤◌};
ghost use Rattle.cost.specs.Steps.{most_hops, most_load, up_to, loaded};
ghost use Rattle.cost.specs.Bounds.{zero_fits, zero_spent, up_to_fits, loaded_fits, loaded_spent};
ghost use Rattle.std.proofs.Common.{rules, arith};

use crate::kinds::Cost;

/// Hops first, then load; 65,535 hops go only with the greatest load, so that a step keeps the order of two costs.
#[derive(Clone, Copy, PartialEq, Eq, PartialOrd, Ord)]
pub struct HopsThenLoad {
    hops: u16,
    load: u32,
    ghost few: { hops ≤ most_hops },
    ghost light: { load ≤ most_load },
    ghost spent: { (most_hops ≤ hops → load ≡ most_load) },
}

impl HopsThenLoad {
    /// The number of channels.
    pub fn hops(&self) -> u16
        ensures { result ≡ self.now.hops }
    {
        self.hops
    }

    /// The loads added up; the greatest load, once the hops are the greatest.
    pub fn load(&self) -> u32
        ensures { result ≡ self.now.load }
    {
        self.load
    }
}

impl Cost for HopsThenLoad {
    ghost nil = { record { hops = 0; load = 0; few = zero_fits most_hops; light = zero_fits most_load; spent = zero_spent } };

    ghost stepped = { λ x n. record { hops = up_to most_hops x.hops 1; load = loaded x.hops x.load n; few = up_to_fits most_hops x.hops 1; light = loaded_fits x.hops x.load n; spent = loaded_spent x.hops x.load n } };

    ghost identical = { Prim.grind (arith, Self.row.coded.inj) };

    ghost rises = { Prim.search rules };

    ghost keeps = { Prim.search rules };

    fn zero() -> HopsThenLoad {
        HopsThenLoad { hops: 0, load: 0 }
    }

    fn step(self, load: u32) -> HopsThenLoad {
        let hops = self.hops.saturating_add(1);
        let load = if hops < u16::MAX {
            self.load.saturating_add(load)
        } else {
            u32::MAX
        };
        HopsThenLoad { hops, load }
    }
}

// What the order of costs is known to be, said of every cost at once.
ghost use Rattle.std.specs.Prelude.{◌≡◌, true, false, leb};
ghost use Rattle.cost.specs.Order.{at_most};
ghost use Rattle.cost.specs.Steps.{lexed};

use crate::counts::Hops;
use crate::kinds::Cost;
use crate::loads::Load;
use crate::pairs::HopsThenLoad;

/// At-most is a total order, whatever the kind of cost.
pub fn at_most_is_total<K: Cost>()
    ensures itself { (x : K) → at_most K.cmp x x ≡ true }
    ensures apart { (x y : K) → at_most K.cmp x y ≡ true → at_most K.cmp y x ≡ true → x ≡ y }
    ensures chain { (x y z : K) → at_most K.cmp x y ≡ true → at_most K.cmp y z ≡ true → at_most K.cmp x z ≡ true }
    ensures total { (x y : K) → at_most K.cmp x y ≡ false → at_most K.cmp y x ≡ true }
{}

/// Hops and loads compare as numbers; of hops and load, the hops come first.
pub fn kinds_compare_by_numbers()
    ensures hops { (x y : Hops) → at_most ⟦<Hops as Ord>⟧.cmp x y ≡ leb x.count y.count }
    ensures load { (x y : Load) → at_most ⟦<Load as Ord>⟧.cmp x y ≡ leb x.total y.total }
    ensures pair { (x y : HopsThenLoad) → at_most ⟦<HopsThenLoad as Ord>⟧.cmp x y ≡ lexed x.hops x.load y.hops y.load }
{}

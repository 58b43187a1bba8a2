// The kinds of cost.
ghost use Rattle.std.specs.Prelude.{◌≡◌, true, ℕ};
ghost use Rattle.std.specs.declared.cmp.Ordering.TheVariants.{Equal};
ghost use Rattle.cost.specs.Order.{at_most};

/// A kind of cost: a total order in which equal costs are one and the same, and a step along a channel, which never lowers a cost and keeps the order of two.
pub trait Cost: Copy + Ord {
    /// The cost of staying.
    ghost nil: { Self };

    /// The cost after a channel of load n, as `stepped x n`.
    ghost stepped: { Self → ℕ → Self };

    /// The cost of staying.
    fn zero() -> Self
        ensures { result ≡ nil };

    /// The cost after a channel of this load.
    fn step(self, load: u32) -> Self
        ensures { result ≡ stepped self load };

    /// Costs that compare equal are one and the same.
    ghost identical: { (x y : Self) → Self.cmp x y ≡ Equal → x ≡ y };

    /// A step never lowers a cost.
    ghost rises: { (x : Self) (n : ℕ) → at_most Self.cmp x (stepped x n) ≡ true };

    /// A step keeps the order of two costs.
    ghost keeps: { (x y : Self) (n : ℕ) → at_most Self.cmp x y ≡ true → at_most Self.cmp (stepped x n) (stepped y n) ≡ true };
}

// What passing the check means, said of every valid wiring and every table of cells.
ghost use Rattle.plan_check.specs.Verdicts.{VerdictIsExact, RoutesArrive, NoPacketsWaitInACircle};

/// The verdict finds nothing exactly where none of the six rules is broken.
pub fn verdict_is_exact()
    ensures { VerdictIsExact }
{}

/// Cells that pass lead from every node to every other, and no route visits a node twice.
pub fn routes_arrive()
    ensures { RoutesArrive }
{}

/// Over cells that pass, one of every nonempty set of stalled packets is blocked by no other of the set.
pub fn no_packets_wait_in_a_circle()
    ensures { NoPacketsWaitInACircle }
{}

// The check of a plan sheet against a wiring sheet.
ghost use Rattle.std.specs.Prelude.{◌≡◌};
ghost use Rattle.plan_check.specs.Verdicts.{check_answer};

use crate::check_cells;
use fault::Fault;
use sheet::{read_plan, read_wiring};

/// Judges a plan sheet for a wiring sheet. All faults of the wiring sheet come before those of the plan sheet, and these before the
/// rules.
pub fn check(wiring_sheet: &[u8], plan_sheet: &[u8]) -> Result<(), Fault>
    ensures { result ≡ check_answer wiring_sheet.now plan_sheet.now }
{
    let wiring = read_wiring(wiring_sheet)?;
    let plan = read_plan(plan_sheet)?;
    if plan.nodes != wiring.nodes() {
        return Err(Fault::NodeCountDiffers);
    }
    check_cells(&wiring, &plan)
}

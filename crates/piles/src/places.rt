// Faults of a bank below, told at the number that was put to the top.
ghost use Rattle.std.specs.Prelude.{◌≡◌};
ghost use Rattle.piles.specs.Slots.{told_at, lifted};

use fault::Fault;

/// The fault with the number that was put to the top in place of the one below, where it names a card of the bank below.
fn moved(fault: Fault, node: u8) -> Fault
    ensures { result ≡ told_at fault node }
{
    match fault {
        Fault::NotSeated { .. } => Fault::NotSeated { node },
        Fault::GateOpen { .. } => Fault::GateOpen { node },
        Fault::NotOwn { .. } => Fault::NotOwn { node },
        other => other,
    }
}

/// An answer of the bank below, as the top gives it.
pub(crate) fn told<T>(answer: Result<T, Fault>, node: u8) -> Result<T, Fault>
    ensures { result ≡ lifted node answer }
{
    answer.map_err(|fault| moved(fault, node))
}

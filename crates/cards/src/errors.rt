// Why no bank is made.
ghost use Rattle.std.specs.Prelude.{◌≡◌, Some};
ghost use Rattle.cards.specs.Errors.{shown_error};

use fault::Fault;
use std::alloc::AllocError;
use std::error::Error;
use std::fmt;

/// Why no bank is made: the sheet is refused, or there is no memory for the cells.
#[derive(Clone, Copy, PartialEq, Eq, Debug)]
pub enum MakeError {
    Refused(Fault),
    NoMemory,
}

impl From<Fault> for MakeError {
    ghost use Rattle.cards.specs.declared.errors.MakeError.TheVariants.{Refused};

    ghost from_gives = { λ fault e. e ≡ Refused fault };

    fn from(fault: Fault) -> MakeError {
        Self::Refused(fault)
    }
}

impl From<AllocError> for MakeError {
    ghost use Rattle.cards.specs.declared.errors.MakeError.TheVariants.{NoMemory};

    ghost from_gives = { λ _ e. e ≡ NoMemory };

    fn from(_: AllocError) -> MakeError {
        Self::NoMemory
    }
}

impl fmt::Display for MakeError {
    ghost output = { λ e. Some (shown_error e) };

    fn fmt<W: fmt::Write>(&self, f: &mut fmt::Formatter<W>) -> fmt::Result {
        match self {
            MakeError::Refused(fault) => write!(f, "{fault}"),
            MakeError::NoMemory => write!(f, "out of memory"),
        }
    }
}

impl Error for MakeError {}

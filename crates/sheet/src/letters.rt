// The letters of contents lines.
ghost use Rattle.std.specs.Prelude.{◌≡◌, Some, codes};
ghost use Rattle.std.specs.Result.{result_ok, IfErr};
ghost use Rattle.sheet.specs.Letters.{code, letter_of, fit_size};

use std::error::Error;
use std::fmt;

/// What a line's body holds: links, the number of nodes, the number of layers, or the cells of a plan.
#[derive(Clone, Copy, PartialEq, Eq, Debug)]
pub enum Letter {
    L,
    N,
    V,
    P,
}

impl Letter {
    /// Whether a body may have this length. The cells of a plan are held to its number of nodes instead.
    pub fn fits(self, size: usize) -> bool
        ensures { result ≡ fit_size self size }
    {
        match self {
            Letter::L => size % 2 == 0 && size <= 240,
            Letter::N | Letter::V => size == 1,
            Letter::P => true,
        }
    }
}

/// The byte that stands in the line.
impl From<Letter> for u8 {
    ghost from_gives = { λ letter byte. byte ≡ code letter };

    fn from(letter: Letter) -> u8 {
        match letter {
            Letter::L => b'L',
            Letter::N => b'N',
            Letter::V => b'V',
            Letter::P => b'P',
        }
    }
}

/// A byte that stands for no letter.
#[derive(Clone, Copy, PartialEq, Eq, Debug)]
pub struct UnknownLetter {
    pub byte: u8,
}

impl fmt::Display for UnknownLetter {
    ghost output = { λ _. Some (codes "no letter of a sheet") };

    fn fmt<W: fmt::Write>(&self, f: &mut fmt::Formatter<W>) -> fmt::Result {
        write!(f, "no letter of a sheet")
    }
}

impl Error for UnknownLetter {}

/// The letter that a byte stands for.
impl TryFrom<u8> for Letter {
    type Error = UnknownLetter;

    ghost try_from_gives = { λ byte r. (result_ok r ≡ letter_of byte) × IfErr r (λ unknown. unknown.byte ≡ byte) };

    fn try_from(byte: u8) -> Result<Letter, UnknownLetter> {
        match byte {
            b'L' => Ok(Letter::L),
            b'N' => Ok(Letter::N),
            b'V' => Ok(Letter::V),
            b'P' => Ok(Letter::P),
            _ => Err(UnknownLetter { byte }),
        }
    }
}

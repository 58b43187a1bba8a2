// A sheet's contents, line by line.
ghost use Rattle.std.specs.Prelude.{◌≡◌, drop};
ghost use Rattle.std.specs.Option.{option_map};
ghost use Rattle.sheet.specs.Letters.{part_of};
ghost use Rattle.sheet.specs.Lines.{byte, next_line, after_line, next_section, next_body};

use crate::{Letter, Section};

/// A contents line as it stands: a letter's byte, and where the body starts and how long it is.
#[derive(Clone, Copy, PartialEq, Eq, Debug)]
pub struct Line {
    pub letter: u8,
    pub start: u16,
    pub size: u16,
}

/// The byte at a place, and 0 past the end.
pub(crate) fn byte_at(bytes: &[u8], place: usize) -> u8
    ensures { result ≡ byte bytes.now place }
{
    bytes.get(place).copied().unwrap_or(0)
}

/// A sheet, and what is left of it after the lines that were read.
// No `Iterator`: lines are taken one way by `step` and another by `section`, and a loop over either would hold the reader.
#[derive(Clone, Copy, Debug)]
pub struct Reader<'a> {
    sheet: &'a [u8],
    rest: &'a [u8],
}

impl<'a> Reader<'a> {
    ghost use Rattle.sheet.specs.Readers.{sheet_of, rest_of};

    /// A reader before the first line.
    pub fn new(sheet: &'a [u8]) -> Reader<'a>
        ensures sheet { sheet_of result ≡ sheet.now }
        ensures rest { rest_of result ≡ drop 1 sheet.now }
    {
        match sheet {
            [_, rest @ ..] => Reader { sheet, rest },
            [] => Reader { sheet, rest: sheet },
        }
    }

    // That a step leaves the sheet and goes on by a line is two clauses, here and below: callers rewrite by each alone.

    /// The next line, where a whole one is left.
    pub fn step(&mut self) -> Option<Line>
        ensures answer { result ≡ next_line (rest_of self.old) }
        ensures rest { rest_of self.new ≡ after_line (rest_of self.old) }
        ensures sheet { sheet_of self.new ≡ sheet_of self.old }
    {
        let [
            letter,
            start_high,
            start_low,
            size_high,
            size_low,
            rest @ ..,
        ] = self.rest
        else {
            return None;
        };
        self.rest = rest;
        Some(Line {
            letter: *letter,
            start: u16::from_be_bytes([*start_high, *start_low]),
            size: u16::from_be_bytes([*size_high, *size_low]),
        })
    }

    /// The section that the next line names, where its letter is known and its body lies inside the sheet.
    pub fn section(&mut self) -> Option<Section<'a>>
        ensures answer { option_map part_of result ≡ next_section (sheet_of self.old) (rest_of self.old) }
        ensures rest { rest_of self.new ≡ after_line (rest_of self.old) }
        ensures sheet { sheet_of self.new ≡ sheet_of self.old }
    {
        let line = self.step()?;
        let letter = Letter::try_from(line.letter).ok()?;
        let place = line.start as usize;
        let end = place + line.size as usize;
        let body = self.sheet.get(place..end)?;
        Some(Section {
            letter,
            place,
            body,
        })
    }

    /// The body of the next section; nothing, where there is none.
    pub fn body(&mut self) -> &'a [u8]
        ensures answer { result.now ≡ next_body (sheet_of self.old) (rest_of self.old) }
        ensures rest { rest_of self.new ≡ after_line (rest_of self.old) }
        ensures sheet { sheet_of self.new ≡ sheet_of self.old }
    {
        match self.section() {
            Some(section) => section.body,
            None => &[],
        }
    }
}

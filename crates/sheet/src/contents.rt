// What is wrong with a sheet's contents.
ghost use Rattle.std.specs.Prelude.{◌≡◌, ℕ, ◌*◌, ◌<◌, Bool, true, false, length, MatchResult};
ghost use Rattle.std.specs.Option.{option_map};
ghost use Rattle.std.specs.Result.{result_err};
ghost use Rattle.fault.specs.Faults.{judged};
ghost use Rattle.fault.specs.declared.faults.Fault.{Fault as AnyFault};
ghost use Rattle.fault.specs.declared.faults.Fault.TheVariants.{Contents, Letter as LetterFault, BodySize};
ghost use Rattle.wiring.specs.Lists.{or_else};
ghost use Rattle.sheet.specs.declared.letters.Letter.{Letter as Due};
ghost use Rattle.sheet.specs.declared.reading.Line.{Line as Found};
ghost use Rattle.sheet.specs.Lines.{line};
ghost use Rattle.sheet.specs.Contents.{all_there, has_letter, has_size, first_line, place_fault, sheet_fault, Told};

use crate::{Letter, Line, Reader};
use fault::Fault;

/// A sheet that has all the lines due.
#[derive(Clone, Copy)]
struct Lines<'a> {
    sheet: &'a [u8],
    due: &'a [Letter],
    ghost room: { 5 * length due.now < length sheet.now },
    ghost few: { length due.now < 256 },
}

impl<'a> Lines<'a> {
    /// The lines of a sheet, where its first byte counts those due and all of them are there.
    fn new(sheet: &'a [u8], due: &'a [Letter]) -> Result<Lines<'a>, Fault>
        ensures { MatchResult result (λ lines. (lines.sheet.now ≡ sheet.now) × (lines.due.now ≡ due.now) × (all_there due.now sheet.now ≡ true)) (λ fault. (fault ≡ Contents) × (all_there due.now sheet.now ≡ false)) }
    {
        match sheet {
            [count, lines @ ..] if *count as usize == due.len() && lines.len() >= 5 * due.len() =>
                Ok(Lines { sheet, due }),
            _ => Err(Fault::Contents),
        }
    }

    /// The first line that fails the test of its letter, where `passes` is what the test computes.
    fn first_failing<T: Fn(Letter, Line) -> bool>(&self, test: T) -> Option<u8>
        ghost passes: { Due → Found → Bool }
        requires callable { T.IsAlwaysCallable test }
        requires answers { (x : Due) (l : Found) (b : Bool) → T.post test x l b → b ≡ passes x l }
        ensures { (fault : ℕ → AnyFault) → option_map fault result ≡ first_line (λ i x. passes x (line self.now.sheet.now i)) fault 0 self.now.due.now }
    {
        let mut reader = Reader::new(self.sheet);
        for (place, letter) in self.due.iter().enumerate() {
            let line = reader.step().unwrap();
            if !test(*letter, line) {
                return Some(place as u8);
            }
        }
        None
    }

    // The two fault by different cases, which they make themselves: a second closure for that would be no plainer.

    /// Refuses the first line whose letter is not the one due.
    fn check_letters(&self) -> Result<(), Fault>
        ensures { result ≡ judged (first_line (has_letter self.now.sheet.now) LetterFault 0 self.now.due.now) }
    {
        match self.first_failing(|letter, line| line.letter == u8::from(letter)) {
            Some(line) => Err(Fault::Letter { line }),
            None => Ok(()),
        }
    }

    /// Refuses the first line whose body does not start where the last one ended; the last line, if its body does not end the sheet.
    fn check_places(&self) -> Result<(), Fault>
        ensures { result ≡ judged (place_fault self.now.due.now self.now.sheet.now) }
    {
        let mut reader = Reader::new(self.sheet);
        // Not by `first_failing`: the place that is due goes on from line to line.
        let mut place = 1 + 5 * self.due.len();
        for i in 0..self.due.len() {
            let line = reader.step().unwrap();
            if line.start as usize != place {
                return Err(Fault::BodyPlace { line: i as u8 });
            }
            place += line.size as usize;
        }
        if place == self.sheet.len() {
            return Ok(());
        }
        let last = self.due.len().saturating_sub(1);
        Err(Fault::BodyPlace { line: last as u8 })
    }

    /// Refuses the first line whose body has a length that its letter does not allow.
    fn check_sizes(&self) -> Result<(), Fault>
        ensures { result ≡ judged (first_line (has_size self.now.sheet.now) BodySize 0 self.now.due.now) }
    {
        match self.first_failing(|letter, line| letter.fits(line.size as usize)) {
            Some(line) => Err(Fault::BodySize { line }),
            None => Ok(()),
        }
    }

    /// The lowest number first, each over all lines.
    fn check(&self) -> Result<(), Fault>
        ensures { result ≡ judged (or_else (first_line (has_letter self.now.sheet.now) LetterFault 0 self.now.due.now) (or_else (place_fault self.now.due.now self.now.sheet.now) (first_line (has_size self.now.sheet.now) BodySize 0 self.now.due.now))) }
    {
        self.check_letters()?;
        self.check_places()?;
        self.check_sizes()
    }
}

/// Refuses what is wrong with the contents of a sheet that is to have lines with these letters.
pub fn check_contents(sheet: &[u8], due: &[Letter]) -> Result<(), Fault>
    ensures answer { result ≡ judged (sheet_fault due.now sheet.now) }
    ensures told { Told due.now sheet.now (result_err result) }
{
    Lines::new(sheet, due)?.check()
}

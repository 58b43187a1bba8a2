// The sections of a sheet.

use crate::Letter;

/// A body as a part of its sheet, with the letter of its line and the place where it starts.
#[derive(Clone, Copy, PartialEq, Eq, Debug)]
pub struct Section<'a> {
    pub letter: Letter,
    pub place: usize,
    pub body: &'a [u8],
}

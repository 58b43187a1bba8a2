// Marks in a square of 240 on a side.
use crate::kinds::Mark;

/// The marks of all dependencies, in a run that is lent: the one of channel c on channel e at place 240 c + e.
#[derive(Drop)]
pub struct Marks<'a> {
    pub(crate) run: &'a mut [Mark; 57600],
}

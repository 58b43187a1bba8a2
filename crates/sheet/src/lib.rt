// Sheets: the bytes of a wiring and of a plan. A sheet begins with one byte, the number of its contents lines. A line is a letter, a
// start in two bytes and a length in two, high byte first; starts count from the sheet's first byte as 0. The bodies follow in the
// order of the lines, without gaps, to the sheet's end.
#![tactic(auto)]

mod contents;
mod letters;
mod plans;
mod reading;
mod sections;
mod wirings;
mod writing;

pub use contents::check_contents;
pub use letters::{Letter, UnknownLetter};
pub use plans::{PlanSheet, read_plan};
pub use reading::{Line, Reader};
pub use sections::Section;
pub use wirings::read_wiring;
pub use writing::write_plan;

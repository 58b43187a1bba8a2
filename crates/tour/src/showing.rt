// What the display shows.
use fault::Fault;
use std::io;

/// What a call gets: a word where it is done, or the fault that refuses it.
pub(crate) fn show<T: Drop>(
    rt: &impl Print,
    name: &str,
    answer: Result<T, Fault>,
    done: &str,
) -> io::Result<()> {
    match answer {
        Ok(_) => println!(rt; "{name}: {done}"),
        Err(fault) => println!(rt; "{name}: {fault}"),
    }
}

pub(crate) fn show_bytes(rt: &impl Print, bytes: &[u8]) -> io::Result<()> {
    for byte in bytes {
        print!(rt; " {byte}")?;
    }
    println!(rt; "")
}

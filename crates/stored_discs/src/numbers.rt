// Numbers of a line.
use std::fmt::Display;
use std::io;
use std::io::Write;

// Writes a blank and a number.
pub(crate) fn put(out: &mut impl Write, n: impl Display + Drop) -> io::Result<()> {
    write!(out, " {n}")
}

// Writes each byte as a number.
pub(crate) fn put_bytes(out: &mut impl Write, bytes: &[u8]) -> io::Result<()> {
    for b in bytes {
        put(out, *b)?;
    }
    Ok(())
}

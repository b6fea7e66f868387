// The files that the arguments name, each a table, with their listings.
#![tactic(auto)]

use inputs::full::read_full;
use listing_text::listing::{LISTING_PAGE, MAX_LISTED, list_table};
use std::io::{BufWriter, Read, Write};
use std::rt::Files;
use std::{env, fs, io};

// One byte more than a table that is listed has.
const INPUT_BYTES: usize = MAX_LISTED + 1;

// A longer argument counts as an empty one.
const ARGUMENT_BYTES: usize = 4096;

// Writes the listing of the table in a file.
fn list_file(out: &mut impl Write, file: &mut impl Read) -> io::Result<()> {
    let mut table = [0u8; INPUT_BYTES];
    let n = read_full(file, &mut table)?;
    let mut page = [0u8; LISTING_PAGE];
    let len = list_table(&table[..n], &mut page);
    out.write_all(&page[..len])
}

// Writes an argument, and the listing of the table in the file of that name; where that cannot be opened, a message on standard error.
fn list_argument<R: Files + Eprint>(rt: &R, out: &mut impl Write, name: &str) -> io::Result<()> {
    writeln!(out, "{name}")?;
    match fs::open(rt, name) {
        Ok(mut file) => list_file(out, &mut file),
        Err(e) => {
            out.flush()?;
            // A message that cannot be written is lost.
            let _ = eprintln!(rt; "{name}: {e}");
            Ok(())
        }
    }
}

fn main(rt: HostRuntime) -> io::Result<()> {
    let mut out = BufWriter::new(rt.alloc(), rt.stdout())?;
    for argument in env::args(&rt)?.skip(1) {
        let name = argument.as_str();
        let name = if name.len() > ARGUMENT_BYTES {
            ""
        } else {
            name
        };
        list_argument(&rt, &mut out, name)?;
    }
    out.flush()
}

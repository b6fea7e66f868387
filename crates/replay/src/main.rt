// The stored tables on standard input, each with its listing: what the Rust answered for them is the file stdout.
#![tactic(auto)]

use inputs::closed::ClosedIsEmpty;
use inputs::runs::read_runs;
use listing_text::listing::{LISTING_PAGE, MAX_LISTED, list_table};
use std::io;
use std::io::{BufReader, BufWriter, Read, Write};

// More tables than are stored.
const MAX_TABLES: u64 = 1000000;

// Writes the number of a table and its listing.
fn print_listing(out: &mut impl Write, number: u64, table: &[u8]) -> io::Result<()> {
    let mut page = [0u8; LISTING_PAGE];
    let len = list_table(table, &mut page);
    writeln!(out, "table {number}")?;
    out.write_all(&page[..len])
}

// Reads the next table and prints its listing; whether there was one.
fn list_next(input: &mut impl Read, out: &mut impl Write, number: u64) -> io::Result<bool> {
    let mut table = [0u8; MAX_LISTED];
    let Some(len) = read_runs(input, &mut table)? else {
        return Ok(false);
    };
    print_listing(out, number, &table[..len])?;
    Ok(true)
}

fn main(rt: HostRuntime) -> io::Result<()> {
    let mut input = BufReader::new(rt.alloc(), ClosedIsEmpty(rt.stdin()))?;
    let mut out = BufWriter::new(rt.alloc(), rt.stdout())?;
    for number in 1..MAX_TABLES {
        if !list_next(&mut input, &mut out, number)? {
            break;
        }
    }
    out.flush()
}

// The listing of the lone table on standard input.
#![tactic(auto)]

use inputs::closed::ClosedIsEmpty;
use inputs::full::read_full;
use listing_text::listing::{LISTING_PAGE, MAX_LISTED, list_table};
use std::io;
use std::io::Write;

// One byte more than a table that is listed has: of a longer input so much is read, and refused.
const INPUT_BYTES: usize = MAX_LISTED + 1;

fn main(rt: HostRuntime) -> io::Result<()> {
    let mut input = [0u8; INPUT_BYTES];
    let n = read_full(&mut ClosedIsEmpty(rt.stdin()), &mut input)?;
    let mut page = [0u8; LISTING_PAGE];
    let len = list_table(&input[..n], &mut page);
    rt.stdout().write_all(&page[..len])
}

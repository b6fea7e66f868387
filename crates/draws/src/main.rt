// The items of the table on standard input, drawn from a cursor: those of each track, the end, and the end again.
#![tactic(auto)]

ghost use Rattle.std.specs.Prelude.{◌≡◌, ◌<◌, ◌^◌, IfOk, is_some};

use area::cursor::{TextItem, count_items, draw, text_cursor};
use area::table::table_head;
use inputs::closed::ClosedIsEmpty;
use inputs::full::read_full;
use sectors::number::{be16_at, byte_at};
use sectors::sector::Lsn;
use std::io;

// Bytes, sectors and tracks of the table.
const TABLE_BYTES: usize = 10240;

const TABLE_SECTORS: u16 = 5;

const TRACKS: u8 = 8;

// Writes what a draw gave: an item's type byte and string, or the end. Whether it was an item.
fn print_item(rt: &impl Print, item: Option<TextItem<'_>>) -> io::Result<bool>
    ensures { IfOk result (λ found. found ≡ is_some item.entry) }
{
    let Some(item) = item else {
        println!(rt; "end")?;
        return Ok(false);
    };
    print!(rt; "item {} ", item.kind)?;
    rt.write_all(item.text)?;
    println!(rt; "")?;
    Ok(true)
}

// Draws so many times from one cursor, and writes each answer. How many it wrote.
fn print_draws(
    rt: &impl Print,
    table: &[u8],
    next: usize,
    left: usize,
    times: usize,
) -> io::Result<usize>
    ensures { IfOk result (λ written. written ≡ times) }
{
    let mut cursor = text_cursor(table, next, left);
    let mut written = 0;
    for _ in 0..times {
        print_item(rt, draw(&mut cursor))?;
        written += 1;
    }
    Ok(written)
}

// Where the text of a track of an index stands.
fn text_at(table: &[u8], i: u8) -> usize
    ensures { result < 2 ^ 33 }
{
    let head = table_head(table, 1, Lsn(0), TABLE_SECTORS);
    let block = head.chain.ttxt as usize;
    block + be16_at(table, block + 8 + 2 * i as usize) as usize
}

// The number of items of a track's text, these items, and two draws more.
fn print_text(rt: &impl Print, table: &[u8], i: u8) -> io::Result<()> {
    let at = text_at(table, i);
    let left = byte_at(table, at) as usize;
    let count = count_items(table, at + 4, left);
    println!(rt; "text {count}")?;
    print_draws(rt, table, at + 4, left, count.saturating_add(2))?;
    Ok(())
}

fn main(rt: HostRuntime) -> io::Result<()> {
    let mut table = [0u8; TABLE_BYTES];
    read_full(&mut ClosedIsEmpty(rt.stdin()), &mut table)?;
    for i in 0..TRACKS {
        print_text(&rt, &table, i)?;
    }
    Ok(())
}

// A cursor over the items of a track's text.
ghost use Rattle.std.specs.Prelude.{◌≡◌, length};
ghost use Rattle.area.specs.Items.{items_from};
ghost use Rattle.area.specs.Cursor.{draw_of, moved_on, seen, seen_of};

use crate::bytes::part_of;
use crate::items::draw_at;

// The table, the place of the next item, and how many items are left.
#[derive(Clone, Copy)]
pub struct TextCursor<'a> {
    pub table: &'a [u8],
    pub next: usize,
    pub left: usize,
}

// An item of a text: its type byte, and its string as a part of the table.
#[derive(Clone, Copy)]
pub struct TextItem<'a> {
    pub kind: u8,
    pub text: &'a [u8],
}

// A cursor over the items from a place of a table on, at most so many.
pub fn text_cursor(table: &[u8], next: usize, left: usize) -> TextCursor<'_>
    ensures { result ≡ record { table = table.entry; next = next; left = left } }
{
    TextCursor { table, next, left }
}

// Draws the next item, empty and unknown ones included; the cursor moves on, or stays at the end.
#[tactic(auto, unfolding(crate::specs::Cursor::draw_of, crate::specs::Cursor::moved_past, crate::specs::Cursor::moved_on, crate::specs::Cursor::seen, crate::specs::Cursor::seen_of))]
pub fn draw<'a>(cursor: &mut TextCursor<'a>) -> Option<TextItem<'a>>
    ensures drawn { seen result ≡ seen_of cursor.old (draw_of cursor.old) }
    ensures moved { cursor.new ≡ moved_on cursor.old }
{
    let drawn = draw_at(cursor.table, cursor.next, cursor.left)?;
    cursor.next = drawn.next;
    cursor.left = drawn.left;
    Some(TextItem {
        kind: drawn.kind,
        text: part_of(cursor.table, drawn.place, drawn.len),
    })
}

// How many items there are: drawn to the end.
pub fn count_items(table: &[u8], next: usize, left: usize) -> usize
    ensures { result ≡ length (items_from table.now next left) }
{
    let mut cursor = text_cursor(table, next, left);
    let mut n = 0;
    while draw(&mut cursor).is_some() {
        n += 1;
    }
    n
}

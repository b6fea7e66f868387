// The sections of a listing.
ghost use Rattle.std.specs.Prelude.{◌≡◌, map};
ghost use Rattle.std.proofs.lemmas.List.Edits.{sets};
ghost use Rattle.area.specs.Lent.{counted};
ghost use Rattle.area.specs.Table.{tracks_in, warnings_in};
ghost use Rattle.area.specs.Warning.{word_of};
ghost use Rattle.listing_text.specs.Listing.{tracks_word, track_line, section};
ghost use Rattle.listing_text.specs.Page.{appended};

use crate::entries::Entry;
use crate::page::Page;
use area::table::{TableHead, next_track, track_count};

// Writes the line of a word and a count, and the entries' lines.
#[tactic(auto, using(crate::proofs::EntryLines::lines, crate::proofs::EntryLines::all_lines))]
pub(crate) fn put_section<E: Entry>(page: &mut Page, word: &[u8], entries: &[E])
    ensures { page.new ≡ appended page.old (section word.now E.line entries.now) }
{
    page.put_word_line(word, entries.len());
    for entry in entries {
        entry.put(page);
    }
}

// Writes the section of a table's tracks by its head, and their warnings as words at a count; the count behind them.
pub(crate) fn put_track_section(
    page: &mut Page,
    table: &[u8],
    head: TableHead,
    words: &mut [u32],
    count: usize,
) -> usize
    ensures written { page.new ≡ appended page.old (section tracks_word track_line (tracks_in table.now head)) }
    ensures warned { words.new ≡ sets words.old count (map word_of (warnings_in table.now head)) }
    ensures counted { result ≡ counted words.old count (warnings_in table.now head) }
{
    let tracks = track_count(head);
    page.put_word_line(b"tracks", tracks);
    let mut warned = count;
    for i in 0..tracks {
        let next = next_track(table, head, i, words, warned);
        warned = next.count;
        next.track.put(page);
    }
    warned
}

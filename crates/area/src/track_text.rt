// The texts of a track.
ghost use Rattle.std.specs.Prelude.{◌≡◌, ◌≤◌, ◌<◌, IfSome, length};
ghost use Rattle.area.specs.Limits.{max_table_bytes, max_tracks};
ghost use Rattle.area.specs.TrackText.{track_texts, item_index, items_kept, no_text, track_text_of};

use crate::text_places::{NO_TEXT, TRACK_TEXTS, TextPlace, text_at};
use crate::warning::WarningCode;
use sectors::number::be16_at;
use text::string::string_bytes;

// The places of a track's texts by item index, and the warning that they give.
#[derive(Clone, Copy)]
pub(crate) struct TrackText {
    pub places: [TextPlace; TRACK_TEXTS],
    pub warning: Option<WarningCode>,
}

// The item index of a type byte; none of an unknown type.
#[tactic(auto, unfolding(crate::specs::TrackText::item_index))]
fn item_index(kind: u8) -> Option<usize>
    ensures index { result ≡ item_index kind }
    ensures inside { IfSome result (λ index. index < track_texts) }
{
    match kind {
        1..=7 => Some(kind as usize - 1),
        129..=135 => Some(kind as usize - 122),
        _ => None,
    }
}

// The walk over the items from a place on: the last nonempty item of each type, and a warning if one was of unknown type.
fn items_kept(table: &[u8], place: usize, count: u8) -> TrackText
    requires { length table.now ≤ max_table_bytes }
    ensures { result ≡ items_kept table.now place count }
{
    let mut places = [NO_TEXT; TRACK_TEXTS];
    let mut warning = None;
    let mut q = place;
    'items: for left in (0..count).rev() {
        if table.len() < q.saturating_add(2) {
            break;
        }
        let at = q + 2;
        let len = string_bytes(table, at).len();
        if len != 0 {
            match item_index(table[q]) {
                Some(index) => places[index] = text_at(table.len(), at as u32, len),
                None => warning = Some(WarningCode::TrackTextTypeUnknown),
            }
        }
        q = at + len;
        if left == 0 {
            break;
        }
        loop {
            match table.get(q) {
                None => break 'items,
                Some(0) => q += 1,
                Some(_) => break,
            }
        }
    }
    TrackText { places, warning }
}

// No text, and a warning if one is given.
#[tactic(auto, unfolding(crate::specs::TrackText::no_text, crate::specs::TrackText::no_places))]
fn no_text(warning: Option<WarningCode>) -> TrackText
    ensures { result ≡ no_text warning }
{
    TrackText {
        places: [NO_TEXT; TRACK_TEXTS],
        warning,
    }
}

// The texts of the track of an index, by the text block at a place (0: there is none).
#[tactic(auto, using(sectors::specs::NumberLaws::be_byte), unfolding(crate::specs::TrackText::track_text_of, crate::specs::TrackText::text_behind, crate::specs::TrackText::text_offset, crate::specs::TrackText::text_at))]
pub(crate) fn track_text(table: &[u8], block: u32, i: usize) -> TrackText
    requires { (length table.now ≤ max_table_bytes) × (i < max_tracks) }
    ensures { result ≡ track_text_of table.now block i }
{
    let offset = be16_at(table, block as usize + 8 + 2 * i);
    if block == 0 || offset == 0 {
        return no_text(None);
    }
    let at = block as usize + offset as usize;
    if table.len() < at + 4 {
        return no_text(Some(WarningCode::TrackTextOffsetInvalid));
    }
    items_kept(table, at + 4, table[at])
}

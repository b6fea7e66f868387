// Whether a table is skipped, and by which warning.
ghost use Rattle.std.specs.Prelude.{◌≡◌, ◌≢◌, IfSome};
ghost use Rattle.area.specs.Skip.{is_reversed, list_missing, is_malformed, skip_by, skip_number};
ghost use Rattle.area.specs.Warning.{number_of};

use crate::area::{AUDIO_END_OFFSET, AUDIO_START_OFFSET, TRACK_COUNT_OFFSET, kind_of};
use crate::chain::Chain;
use crate::warning::WarningCode;
use sectors::number::{be32_at, byte_at};
use sectors::sector::{Lsn, SECTOR_SIZE};

// Whether an area ends before it starts.
#[tactic(auto, unfolding(crate::specs::Skip::is_reversed))]
fn is_reversed(start: Lsn, end: Lsn) -> bool
    ensures { result ≡ is_reversed start end }
{
    end.0 < start.0
}

// Whether one of the two track lists is not named.
#[tactic(auto, unfolding(crate::specs::Skip::list_missing))]
fn list_missing(chain: Chain) -> bool
    ensures { result ≡ list_missing chain }
{
    chain.trl1 == 0 || chain.trl2 == 0
}

// Whether the list of ISRCs and genres is named, has an entry to give, and ends beyond the table.
#[tactic(auto, unfolding(crate::specs::Skip::is_malformed))]
fn is_malformed(table: &[u8], chain: Chain) -> bool
    ensures { result ≡ is_malformed table.now chain }
{
    chain.igl != 0
        && 1 <= byte_at(table, TRACK_COUNT_OFFSET)
        && table.len() < chain.igl as usize + 2 * SECTOR_SIZE
}

// The warning by which a table is skipped, the first that applies.
#[tactic(auto, unfolding(crate::specs::Skip::skip_by, crate::specs::Skip::skip_number, crate::specs::Warning::number_of, crate::specs::Area::kind_number, crate::specs::Units::lsn_at))]
pub(crate) fn skip_of(table: &[u8], chain: Chain) -> Option<WarningCode>
    ensures first { skip_number result ≡ skip_by table.now chain }
    ensures numbered { IfSome result (λ code. number_of code ≢ 0) }
{
    let start = Lsn(be32_at(table, AUDIO_START_OFFSET));
    let end = Lsn(be32_at(table, AUDIO_END_OFFSET));
    if kind_of(table).is_none() {
        Some(WarningCode::AreaSignatureInvalid)
    } else if list_missing(chain) {
        Some(WarningCode::AreaTrackListMissing)
    } else if is_malformed(table, chain) {
        Some(WarningCode::AreaTocMalformed)
    } else if is_reversed(start, end) {
        Some(WarningCode::AreaAudioRangeReversed)
    } else {
        None
    }
}

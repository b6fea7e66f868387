// The listing of a lone table: its sections, or the line of its refusal.
ghost use Rattle.std.specs.Prelude.{◌≡◌, length};
ghost use Rattle.sectors.specs.Fill.{fill};
ghost use Rattle.area.specs.Lent.{counted};
ghost use Rattle.area.specs.Refusal.{number_of};
ghost use Rattle.listing_text.specs.Listing.{refused_line, listing_of, sections_by};
ghost use Rattle.listing_text.specs.Page.{appended};

use crate::page::Page;
use crate::section::{put_section, put_track_section};
use area::locale::MAX_LOCALES;
use area::lone::{LONE_SLOT, TABLE_WORDS, is_odd_table};
use area::refusal::TableRefusal;
use area::table::{TableHead, push_head, table_head};
use sectors::sector::{Lsn, SECTOR_SIZE};

// Bytes of a table that is listed at most.
pub const MAX_LISTED: usize = 65536;

// The bytes of a page that has room for every listing: three lines of counts, 10 of at most 12 bytes for the locales, 255 of 42 for the tracks
// and 1,021 of 9 for the warnings. The programs lend such a page, so that what they print is the whole listing.
pub const LISTING_PAGE: usize = 32768;

#[tactic(auto, unfolding(crate::specs::Listing::refused_line))]
fn put_refused(page: &mut Page, refusal: TableRefusal)
    ensures { page.new ≡ appended page.old (refused_line (number_of refusal)) }
{
    page.put_word_line(b"refused", u8::from(refusal) as usize);
}

// Writes the sections of a lone table's area by its head.
fn put_sections(page: &mut Page, table: &[u8], head: TableHead)
    ensures { page.new ≡ appended page.old (sections_by table.now head) }
{
    let mut words = [0u32; TABLE_WORDS];
    let count = push_head(&mut words, 0, LONE_SLOT, head);
    let locales = (head.area.locale_count as usize).min(MAX_LOCALES);
    put_section(page, b"locales", &head.area.locales[..locales]);
    let warned = put_track_section(page, table, head, &mut words, count);
    put_section(page, b"warnings", &words[..warned]);
}

fn put_listing(page: &mut Page, table: &[u8])
    ensures { page.new ≡ appended page.old (listing_of table.now) }
{
    if table.len() > MAX_LISTED || is_odd_table(table.len()) {
        return put_refused(page, TableRefusal::OddTable);
    }
    let head = table_head(table, LONE_SLOT, Lsn(0), (table.len() / SECTOR_SIZE) as u16);
    if head.skip != 0 {
        return put_refused(page, TableRefusal::NoAudioAreas);
    }
    put_sections(page, table, head);
}

// Writes the listing of a lone table of at most 65,536 bytes to the start of a page, which has room for all of it; the count of bytes written.
pub fn list_table(table: &[u8], page: &mut [u8; LISTING_PAGE]) -> usize
    ensures written { page.new ≡ fill 0 (listing_of table.now) page.old }
    ensures counted { result ≡ length (listing_of table.now) }
    ensures fits { result ≡ counted page.old 0 (listing_of table.now) }
{
    let mut page = Page::new(page);
    put_listing(&mut page, table);
    page.len()
}

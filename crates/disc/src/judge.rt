// What is judged of fetched bytes: the disc's warnings, and each slot's with the head of its table.
ghost use Rattle.std.specs.Prelude.{◌≡◌, map};
ghost use Rattle.std.proofs.lemmas.List.Edits.{sets};
ghost use Rattle.area.specs.Lent.{when_true, counted};
ghost use Rattle.area.specs.Table.{of_slot};
ghost use Rattle.area.specs.Warning.{word_of};
ghost use Rattle.disc.specs.Copies.{served_warnings, copy_warnings};
ghost use Rattle.disc.specs.Disc.{disc_warnings};
ghost use Rattle.disc.specs.Steps.{plan_warnings, slot_plan_of};

use crate::copies::{SlotCopies, chosen_lsn, has_second, is_too_large, is_used};
use crate::master::{TEXT_CHANNELS_OFFSET, has_manufacturer, has_text};
use crate::regions::region_of;
use area::table::{TableHead, no_head, push_head, table_head};
use area::warning::{Warning, WarningCode, push};
use sectors::number::byte_at;

// What is decided of a slot before its tracks are read: the count of warnings, and the head of its table.
#[derive(Clone, Copy)]
pub(crate) struct SlotPlan {
    pub count: usize,
    pub head: TableHead,
}

// Writes a warning of a slot (0: of the disc), if it is to be given.
#[tactic(auto, using(area::proofs::WarningLaws::of_slot_lem, area::specs::LentLaws::when_listed))]
fn push_of(words: &mut [u32], count: usize, given: bool, code: u8, slot: u8) -> usize
    ensures written { words.new ≡ sets words.old count (map word_of (when_true given (of_slot code slot))) }
    ensures counted { result ≡ counted words.old count (when_true given (of_slot code slot)) }
{
    let warning = Warning {
        code,
        slot,
        track: 0,
    };
    push(words, count, given.then_some(warning))
}

// Writes the warnings of the disc: a copy of the master table differs, no text sector, no manufacturer's sector.
pub(crate) fn push_disc(words: &mut [u32], differ: bool, table: &[u8]) -> usize
    ensures written { words.new ≡ sets words.old 0 (map word_of (disc_warnings differ table.now)) }
    ensures counted { result ≡ counted words.old 0 (disc_warnings differ table.now) }
{
    let no_text = !has_text(table) & (0 < byte_at(table, TEXT_CHANNELS_OFFSET));
    let n = push_of(
        words,
        0,
        differ,
        WarningCode::MasterTocCopiesDiffer as u8,
        0,
    );
    let m = push_of(words, n, no_text, WarningCode::MasterTextMissing as u8, 0);
    push_of(
        words,
        m,
        !has_manufacturer(table),
        WarningCode::ManufacturerMissing as u8,
        0,
    )
}

// Writes the warnings of a slot's copies that are to be read.
fn push_unreadable(words: &mut [u32], count: usize, slot: u8, copies: SlotCopies) -> usize
    ensures written { words.new ≡ sets words.old count (map word_of (served_warnings slot copies)) }
    ensures counted { result ≡ counted words.old count (served_warnings slot copies) }
{
    let second = has_second(copies.pointer) & !copies.toc2;
    let none = !copies.toc1 & !copies.toc2;
    let n = push_of(
        words,
        count,
        !copies.toc1,
        WarningCode::AreaToc1Unreadable as u8,
        slot,
    );
    let m = push_of(
        words,
        n,
        second,
        WarningCode::AreaToc2Unreadable as u8,
        slot,
    );
    let k = push_of(
        words,
        m,
        copies.differ,
        WarningCode::AreaTocCopiesDiffer as u8,
        slot,
    );
    push_of(words, k, none, WarningCode::AreaTocUnreadable as u8, slot)
}

// Writes the warnings of a slot's copies.
#[tactic(auto, using(area::specs::LentLaws::when_given, area::specs::LentLaws::counted_none), unfolding(crate::specs::Copies::copy_warnings))]
fn push_copies(words: &mut [u32], count: usize, slot: u8, copies: SlotCopies) -> usize
    ensures written { words.new ≡ sets words.old count (map word_of (copy_warnings slot copies)) }
    ensures counted { result ≡ counted words.old count (copy_warnings slot copies) }
{
    if !is_used(copies.pointer) {
        return count;
    }
    if is_too_large(copies.pointer) {
        return push_of(words, count, true, WarningCode::AreaTocTooLarge as u8, slot);
    }
    push_unreadable(words, count, slot, copies)
}

// Judges a slot by what is known of its copies and by its region: its warnings but for the tracks', and the head of its table.
pub(crate) fn plan_slot(
    work: &[u8],
    slot: u8,
    copies: SlotCopies,
    words: &mut [u32],
    count: usize,
) -> SlotPlan
    ensures { (result ≡ slot_plan_of work.now slot copies words.old count)
        × (words.new ≡ sets words.old count (map word_of (plan_warnings work.now slot copies))) }
{
    let n = push_copies(words, count, slot, copies);
    if !(copies.toc1 | copies.toc2) {
        return SlotPlan {
            count: n,
            head: no_head(),
        };
    }
    let pointer = copies.pointer;
    let lsn = chosen_lsn(pointer, copies.toc1);
    let head = table_head(region_of(work, slot), slot, lsn, pointer.toc_sectors);
    let m = push_head(words, n, slot, head);
    SlotPlan { count: m, head }
}

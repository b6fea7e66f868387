// The copies of a slot's table: which are named, which are readable, and whether they differ.
ghost use Rattle.std.specs.Prelude.{◌≡◌, cond};
ghost use Rattle.disc.specs.Copies.{is_used, is_too_large, is_served, has_second, first_readable, second_readable, chosen_lsn};

use crate::master::AreaPointer;
use area::table::MAX_AREA_TOC_SECTORS;
use sectors::sector::{Lsn, contains};

// What is known of a slot's copies.
#[derive(Clone, Copy)]
pub(crate) struct SlotCopies {
    pub pointer: AreaPointer,
    pub toc1: bool,
    pub toc2: bool,
    pub differ: bool,
}

// Whether a slot is used.
#[tactic(auto, unfolding(crate::specs::Copies::is_used))]
pub(crate) fn is_used(pointer: AreaPointer) -> bool
    ensures { result ≡ is_used pointer }
{
    (pointer.toc1_lsn.0 != 0) & (pointer.toc_sectors != 0)
}

// Whether a slot has too many sectors to be read.
#[tactic(auto, unfolding(crate::specs::Copies::is_too_large))]
pub(crate) fn is_too_large(pointer: AreaPointer) -> bool
    ensures { result ≡ is_too_large pointer }
{
    MAX_AREA_TOC_SECTORS < pointer.toc_sectors as usize
}

// Whether a slot is used and not too large.
#[tactic(auto, unfolding(crate::specs::Copies::is_served))]
fn is_served(pointer: AreaPointer) -> bool
    ensures { result ≡ is_served pointer }
{
    is_used(pointer) & !is_too_large(pointer)
}

// Whether a second copy is named.
#[tactic(auto, unfolding(crate::specs::Copies::has_second))]
pub(crate) fn has_second(pointer: AreaPointer) -> bool
    ensures { result ≡ has_second pointer }
{
    pointer.toc2_lsn.0 != 0
}

// Whether the first copy is to be read, and is in an image of so many bytes.
#[tactic(auto, unfolding(crate::specs::Copies::first_readable))]
pub(crate) fn first_readable(format: u32, bytes: usize, pointer: AreaPointer) -> bool
    ensures { result ≡ first_readable format bytes pointer }
{
    is_served(pointer)
        & contains(
            format,
            bytes,
            pointer.toc1_lsn,
            pointer.toc_sectors as usize,
        )
}

// The same of the second copy.
#[tactic(auto, unfolding(crate::specs::Copies::second_readable))]
pub(crate) fn second_readable(format: u32, bytes: usize, pointer: AreaPointer) -> bool
    ensures { result ≡ second_readable format bytes pointer }
{
    is_served(pointer)
        & has_second(pointer)
        & contains(
            format,
            bytes,
            pointer.toc2_lsn,
            pointer.toc_sectors as usize,
        )
}

// The address of the copy that is read: the first if it is readable.
#[tactic(auto, unfolding(crate::specs::Copies::chosen_lsn))]
pub(crate) fn chosen_lsn(pointer: AreaPointer, toc1: bool) -> Lsn
    ensures { result ≡ chosen_lsn pointer toc1 }
{
    if toc1 {
        return pointer.toc1_lsn;
    }
    pointer.toc2_lsn
}

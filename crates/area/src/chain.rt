// The walk over a table's sub-structures.
ghost use Rattle.std.specs.Prelude.{◌≡◌, ◌≤◌, length};
ghost use Rattle.area.specs.Chain.{structure_at, sectors_of, noted, chain_of};
ghost use Rattle.area.specs.Limits.{max_table_bytes};

use sectors::sector::SECTOR_SIZE;
use sectors::signature::has_signature;

// Where a table's sub-structures begin that the walk keeps; as C has it, 0 for one that it did not meet.
#[repr(C)]
#[derive(Clone, Copy, Default)]
pub struct Chain {
    pub ttxt: u32,
    pub igl: u32,
    pub trl1: u32,
    pub trl2: u32,
}

// A sub-structure of a table.
#[derive(Clone, Copy)]
pub(crate) enum Structure {
    TrackText,
    IsrcGenre,
    Access,
    TrackList1,
    TrackList2,
}

// The sub-structure whose signature stands at a place; none where none of the five does.
#[tactic(auto, unfolding(crate::specs::Chain::structure_at))]
fn structure_at(table: &[u8], at: usize) -> Option<Structure>
    ensures { result ≡ structure_at table.now at }
{
    if has_signature(table, at, *b"SACDTTxt") {
        Some(Structure::TrackText)
    } else if has_signature(table, at, *b"SACD_IGL") {
        Some(Structure::IsrcGenre)
    } else if has_signature(table, at, *b"SACD_ACC") {
        Some(Structure::Access)
    } else if has_signature(table, at, *b"SACDTRL1") {
        Some(Structure::TrackList1)
    } else if has_signature(table, at, *b"SACDTRL2") {
        Some(Structure::TrackList2)
    } else {
        None
    }
}

// How many sectors the walk advances past a structure.
#[tactic(auto, unfolding(crate::specs::Chain::sectors_of))]
fn sectors_of(structure: Structure) -> usize
    ensures { result ≡ sectors_of structure }
{
    match structure {
        Structure::TrackText | Structure::TrackList1 | Structure::TrackList2 => 1,
        Structure::IsrcGenre => 2,
        Structure::Access => 32,
    }
}

// What the walk has kept, with a structure at a place: the first track text, the last of the others.
#[tactic(auto, unfolding(crate::specs::Chain::noted, crate::specs::Chain::first_kept))]
fn with_noted(structure: Structure, at: u32, chain: Chain) -> Chain
    ensures { result ≡ noted structure at chain }
{
    match structure {
        Structure::TrackText if chain.ttxt == 0 => Chain { ttxt: at, ..chain },
        Structure::IsrcGenre => Chain { igl: at, ..chain },
        Structure::TrackList1 => Chain { trl1: at, ..chain },
        Structure::TrackList2 => Chain { trl2: at, ..chain },
        Structure::TrackText | Structure::Access => chain,
    }
}

// The walk, from the second sector on, as long as a signature stands there.
#[tactic(auto, using(crate::proofs::Walking::left_start, crate::proofs::Walking::left_turn, crate::proofs::Walking::structure_fits, crate::proofs::Walking::sectors_some), unfolding(crate::specs::Chain::nothing_kept))]
pub(crate) fn walk(table: &[u8]) -> Chain
    requires { length table.now ≤ max_table_bytes }
    ensures { result ≡ chain_of table.now }
{
    let mut chain = Chain::default();
    let mut place = SECTOR_SIZE;
    while let Some(structure) = structure_at(table, place) {
        chain = with_noted(structure, place as u32, chain);
        place += sectors_of(structure) * SECTOR_SIZE;
    }
    chain
}

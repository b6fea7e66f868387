// Big-endian numbers of a table. A byte past the table's end reads as 0.
ghost use Rattle.std.specs.Prelude.{◌≡◌, ℕ, ◌+◌, ◌<◌, slice_index};
ghost use Rattle.sectors.specs.Number.{be_at};

use crate::bytes::copy_bytes;

// The byte at a place.
#[tactic(auto, using(crate::specs::NumberLaws::be_past, crate::specs::NumberLaws::be_byte))]
pub fn byte_at(table: &[u8], at: usize) -> u8
    ensures { result ≡ be_at table.now at 1 }
{
    table.get(at).copied().unwrap_or(0)
}

// The bytes from a place on.
fn bytes_at<const N: usize>(table: &[u8], at: usize) -> [u8; N]
    ensures { (i : ℕ) → i < N → slice_index result i ≡ slice_index table.now (at + i) }
{
    let rest = &table[at.min(table.len())..];
    match rest.first_chunk() {
        Some(bytes) => *bytes,
        None => {
            let mut bytes = [0; N];
            copy_bytes(rest, &mut bytes, 0);
            bytes
        }
    }
}

// The number in two bytes from a place on.
#[tactic(auto, unfolding(crate::specs::Number::be_at))]
pub fn be16_at(table: &[u8], at: usize) -> u16
    ensures { result ≡ be_at table.now at 2 }
{
    u16::from_be_bytes(bytes_at(table, at))
}

// The number in four bytes from a place on.
#[tactic(auto, unfolding(crate::specs::Number::be_at))]
pub fn be32_at(table: &[u8], at: usize) -> u32
    ensures { result ≡ be_at table.now at 4 }
{
    u32::from_be_bytes(bytes_at(table, at))
}

// Tables stored as runs. A table is a row of records: place and count, four bytes each, big-endian, then so many bytes that stand at that
// place. All others are zero. A count of 0 ends the table, and its place is the table's length.
ghost use Rattle.std.specs.Prelude.{◌≡◌, ℕ, ◌<◌, ◌≤◌, ◌^◌, ◌++◌, List, length, IfOk, IfSome, Some};
ghost use Rattle.inputs.specs.Runs.{Run, head, recorded, stored, laid, laid_all, IsWithin, IsStored, kind_of, EndsWithin};

use crate::full::read_full;
use std::io;
use std::io::Read;

// What a record is: a run, or the table's end with its length.
#[derive(Clone, Copy)]
enum Record {
    Bytes,
    End(usize),
}

// Bytes of a record's head: its place and its count.
const HEAD_BYTES: usize = 8;

// Place and count of the next record; none where the input ends before.
fn read_head<R: Read>(input: &mut R) -> io::Result<Option<(usize, usize)>>
    ensures small { IfOk result (λ found. IfSome found (λ head. (head.0 < 2 ^ 32) × (head.1 < 2 ^ 32))) }
    ensures known { (place count : ℕ) (rest : List ℕ) → place < 2 ^ 32 → count < 2 ^ 32
        → R.remaining input.old ≡ Some (head place count ++ rest)
        → IfOk result (λ found. (found ≡ Some (record { 0 = place; 1 = count })) × (R.remaining input.new ≡ Some rest)) }
{
    let mut head = [0u8; HEAD_BYTES];
    if read_full(input, &mut head)? < HEAD_BYTES {
        return Ok(None);
    }
    let place = u32::from_be_bytes(*head.first_chunk().unwrap());
    let count = u32::from_be_bytes(*head.last_chunk().unwrap());
    Ok(Some((place as usize, count as usize)))
}

// Reads a record; the bytes of a run go into the table. None where the input ends before the record's bytes, or the record is past the table.
#[tactic(auto, unfolding(crate::specs::Runs::recorded, crate::specs::Runs::laid, crate::specs::Runs::kind_of))]
fn read_record<R: Read>(input: &mut R, table: &mut [u8]) -> io::Result<Option<Record>>
    ensures within { IfOk result (λ found. IfSome found (EndsWithin (length table.new))) }
    ensures known { (r : Run) (rest : List ℕ) → IsWithin (length table.old) r → R.remaining input.old ≡ Some (recorded r ++ rest)
        → IfOk result (λ found. (found ≡ Some (kind_of r)) × ((table.new ≡ laid r table.old) × (R.remaining input.new ≡ Some rest))) }
{
    let Some((place, count)) = read_head(input)? else {
        return Ok(None);
    };
    let end = place + count;
    if table.len() < end {
        return Ok(None);
    }
    if count == 0 {
        return Ok(Some(Record::End(place)));
    }
    read_full(input, &mut table[place..end])?;
    Ok(Some(Record::Bytes))
}

// Reads the records of a table into zeros, and returns its length; none where the input ends before, or a record is past the zeros. What was
// stored is read, no byte behind it.
pub fn read_runs<R: Read>(input: &mut R, table: &mut [u8]) -> io::Result<Option<usize>>
    ensures within { IfOk result (λ found. IfSome found (λ size. size ≤ length table.new)) }
    ensures known { (runs : List Run) (size : ℕ) (rest : List ℕ) → IsStored (length table.old) runs size
        → R.remaining input.old ≡ Some (stored runs size ++ rest)
        → IfOk result (λ found. (found ≡ Some size) × ((table.new ≡ laid_all runs table.old) × (R.remaining input.new ≡ Some rest))) }
{
    for _ in 0..u64::MAX {
        match read_record(input, table)? {
            Some(Record::Bytes) => {}
            Some(Record::End(size)) => return Ok(Some(size)),
            None => return Ok(None),
        }
    }
    Ok(None)
}

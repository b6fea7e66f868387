// A part of a table.
ghost use Rattle.std.specs.Prelude.{◌≡◌, min, length};
ghost use Rattle.sectors.specs.Fill.{part, start_at};

// At most so many bytes from a place on, as a part of the table.
#[tactic(auto, using(sectors::specs::FillLaws::slice_part, sectors::specs::FillLaws::part_cut, sectors::specs::FillLaws::part_from, sectors::specs::FillLaws::slice_start))]
pub fn part_of(table: &[u8], at: usize, n: usize) -> &[u8]
    ensures bytes { result.now ≡ part at n table.now }
    ensures placed { result.ref_ptr ≡ start_at table.entry.ref_ptr (min at (length table.now)) }
{
    let start = at.min(table.len());
    let size = n.min(table.len() - start);
    &table[start..start + size]
}

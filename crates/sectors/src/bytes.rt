// Bytes copied into lent memory, as many as fit.
ghost use Rattle.std.specs.Prelude.{◌≡◌};
ghost use Rattle.sectors.specs.Fill.{copy_into};

// Copies bytes into a buffer from a place on, as many as fit. (One by one, of which the compiler makes vector moves: std's `copy_from_slice` is
// the C library's `memmove`, which nobody who links the library has to bring.)
#[tactic(auto, using(crate::specs::FillLaws::fill_none, crate::specs::CopyLaws::copy_more, crate::specs::CopyLaws::copy_all))]
pub fn copy_bytes(from: &[u8], to: &mut [u8], at: usize)
    ensures { to.new ≡ copy_into at from.now to.old }
{
    let n = from.len().min(to.len().saturating_sub(at));
    for i in 0..n {
        to[at + i] = from[i];
    }
}

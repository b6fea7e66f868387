// Mending a header: the multiple of (x + 1)(x + α) that differs from it in at most one place.
ghost use Rattle.std.specs.Prelude.{◌≡◌, ℕ, ◌↔◌, List, Ok, Err};
ghost use Rattle.sectors.specs.Refusal.{refusal_of};
ghost use Rattle.sectors.specs.Audit.{HeaderIn, header_at};
ghost use Rattle.sectors.specs.Mend.{Mends, Mendable, BeyondMending, OneByteChanged, mended_of, mend_of, mended_by};

use crate::header::{HEADER_SIZE, at_alpha, at_one, header_of};
use crate::log::least_exponent;
use crate::refusal::Refusal;
use crate::sector::{Image, Lsn};

// The place of a header's last byte.
const LAST_PLACE: usize = HEADER_SIZE - 1;

// The header that a sector's mends to as C has it: 0 and its bytes, or a refusal and zeros.
#[repr(C)]
#[derive(Clone, Copy)]
pub struct Mended {
    pub refusal: u8,
    pub header: [u8; HEADER_SIZE],
}

// Mends a header. If one byte is bad, the value at 1 is its change, and the value at α that change times α to the number of bytes behind it.
fn mend_bytes(h: &[u8; HEADER_SIZE]) -> Result<[u8; HEADER_SIZE], Refusal>
    ensures answer { mended_by result ≡ mended_of h.now }
    ensures mendable { (refusal_of result ≡ 0) ↔ Mendable h.now }
    ensures mends { (g : List ℕ) → result ≡ Ok g → Mends h.now g }
    ensures beyond { (result ≡ Err Refusal.BeyondMending) ↔ BeyondMending h.now }
    ensures comes_back { (g : List ℕ) → OneByteChanged g h.now → result ≡ Ok g }
{
    let change = at_one(h);
    match least_exponent(change, at_alpha(h)) {
        Some(behind) if behind < HEADER_SIZE => {
            let mut header = *h;
            header[LAST_PLACE - behind] ^= change;
            Ok(header)
        }
        _ => Err(Refusal::BeyondMending),
    }
}

// The header that a sector's mends to. The image is not written.
pub fn mend(image: Image, lsn: Lsn) -> Result<[u8; HEADER_SIZE], Refusal>
    ensures answer { mended_by result ≡ mend_of image.entry.format image.entry.bytes.now lsn.0 }
    ensures mendable { (refusal_of result ≡ 0) ↔ HeaderIn Mendable image.entry.format image.entry.bytes.now lsn.0 }
    ensures mends { (g : List ℕ) → result ≡ Ok g → Mends (header_at image.entry.bytes.now lsn.0) g }
    ensures beyond { (result ≡ Err Refusal.BeyondMending) ↔ HeaderIn BeyondMending image.entry.format image.entry.bytes.now lsn.0 }
    ensures comes_back { (g : List ℕ) → HeaderIn (OneByteChanged g) image.entry.format image.entry.bytes.now lsn.0 → result ≡ Ok g }
{
    mend_bytes(&header_of(image, lsn)?)
}

impl From<Result<[u8; HEADER_SIZE], Refusal>> for Mended {
    ghost from_gives = { λ r m. m ≡ mended_by r };

    #[tactic(auto, unfolding(crate::specs::Mend::mended_by, crate::specs::Mend::mended_to, crate::specs::Mend::unmended))]
    fn from(mended: Result<[u8; HEADER_SIZE], Refusal>) -> Mended {
        match mended {
            Ok(header) => Mended { refusal: 0, header },
            Err(refusal) => Mended {
                refusal: refusal.into(),
                header: [0; HEADER_SIZE],
            },
        }
    }
}

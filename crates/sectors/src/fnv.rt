// FNV-1a, 64 bits: the digest of any bytes, and the fingerprint of a sector.
ghost use Rattle.std.specs.Prelude.{◌≡◌, ◌*◌, ◌%◌, ◌^◌};
ghost use Rattle.sectors.specs.Fnv.{digest_of, fingerprint_of, fingerprinted};

use crate::refusal::Refusal;
use crate::sector::{Image, Lsn, contains, is_foreign, sector_data};

// The hash of no bytes, and the factor of each further one.
pub const OFFSET_BASIS: u64 = 0xcbf2_9ce4_8422_2325;

pub const PRIME: u64 = 0x0000_0100_0000_01b3;

// The digest of a sector's data bytes as C has it: 0 and the digest, or a refusal and 0.
#[repr(C)]
#[derive(Clone, Copy)]
pub struct FingerprintAnswer {
    pub refusal: u8,
    pub digest: u64,
}

// The low 64 bits of a product, from those products of the factors' halves that reach them: by a rule of the project, not by std's.
#[tactic(auto, using(crate::proofs::Halves::product_low))]
pub fn wrapping_mul(a: u64, b: u64) -> u64
    ensures { result ≡ a * b % 2 ^ 64 }
{
    let a0 = a & 0xffff_ffff;
    let a1 = a >> 32;
    let b0 = b & 0xffff_ffff;
    let b1 = b >> 32;
    let cross = (a1 * b0).wrapping_add(a0 * b1);
    (a0 * b0).wrapping_add(cross << 32)
}

// The digest of bytes.
pub fn digest(bytes: &[u8]) -> u64
    ensures { result ≡ digest_of bytes.now }
{
    bytes.iter().fold(
        OFFSET_BASIS,
        |hash, &byte| wrapping_mul(hash ^ byte as u64, PRIME),
    )
}

impl From<Result<u64, Refusal>> for FingerprintAnswer {
    ghost from_gives = { λ r a. a ≡ fingerprinted r };

    #[tactic(auto, unfolding(crate::specs::Fnv::fingerprinted))]
    fn from(digest: Result<u64, Refusal>) -> FingerprintAnswer {
        match digest {
            Ok(digest) => FingerprintAnswer { refusal: 0, digest },
            Err(refusal) => FingerprintAnswer {
                refusal: refusal.into(),
                digest: 0,
            },
        }
    }
}

// The digest of a sector's data bytes.
#[tactic(auto, unfolding(crate::specs::Fnv::fingerprint_of, crate::specs::Fnv::fingerprinted, crate::specs::Refusal::number_of))]
pub fn fingerprint(image: Image, lsn: Lsn) -> Result<u64, Refusal>
    ensures { fingerprinted result ≡ fingerprint_of image.entry.format image.entry.bytes.now lsn.0 }
{
    if is_foreign(image.format) {
        return Err(Refusal::ForeignFormat);
    }
    if !contains(image.format, image.bytes.len(), lsn, 1) {
        return Err(Refusal::NoSuchEntry);
    }
    Ok(digest(sector_data(image, lsn)))
}

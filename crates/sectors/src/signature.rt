// Signatures: eight bytes that name a structure.
ghost use Rattle.std.specs.Prelude.{◌≡◌};
ghost use Rattle.sectors.specs.Signature.{signed_at};

// Bytes of a signature.
pub const SIGNATURE_SIZE: usize = 8;

// Whether a signature stands at a place of a table.
#[tactic(auto, using(crate::proofs::SignatureLaws::signed_cut), unfolding(crate::specs::Signature::signed_at))]
pub fn has_signature(table: &[u8], at: usize, signature: [u8; SIGNATURE_SIZE]) -> bool
    ensures { result ≡ signed_at table.now at signature }
{
    match table.get(at..) {
        Some(rest) => rest.starts_with(&signature),
        None => false,
    }
}

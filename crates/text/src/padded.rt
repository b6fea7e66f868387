// Texts of records: bytes by value.
ghost use Rattle.std.specs.Prelude.{◌≡◌, ◌≤◌, length};
ghost use Rattle.text.specs.Padded.{padded};

use sectors::bytes::copy_bytes;

// A text with zeros behind it.
#[tactic(auto, using(crate::proofs::Padding::pad_copied))]
pub(crate) fn padded<const N: usize>(text: &[u8]) -> [u8; N]
    requires { length text.now ≤ N }
    ensures { result ≡ padded N text.now }
{
    let mut bytes = [0; N];
    copy_bytes(text, &mut bytes, 0);
    bytes
}

// White space at the ends of bytes.
ghost use Rattle.std.specs.Prelude.{◌≡◌};
ghost use Rattle.std.specs.List.{prefix_len, suffix_len};
ghost use Rattle.text.specs.White.{is_white, trimmed};

// Whether a byte is white space: hexadecimal 09-0D, 1C-20, 85, A0.
#[tactic(auto, unfolding(crate::specs::White::is_white))]
fn is_white(b: u8) -> bool
    ensures { result ≡ is_white b }
{
    (0x09..=0x0D).contains(&b) || (0x1C..=0x20).contains(&b) || b == 0x85 || b == 0xA0
}

// How many bytes of white space stand at the start.
fn white_at_start(bytes: &[u8]) -> usize
    ensures { result ≡ prefix_len is_white bytes.now }
{
    bytes.iter().take_while(|b| is_white(**b)).count()
}

// How many bytes of white space stand at the end.
fn white_at_end(bytes: &[u8]) -> usize
    ensures { result ≡ suffix_len is_white bytes.now }
{
    bytes.iter().rev().take_while(|b| is_white(**b)).count()
}

// Bytes without the white space at both ends, as a part of them.
#[tactic(auto, using(crate::proofs::Rules::run_lengths), unfolding(crate::specs::White::trimmed, crate::specs::While::drop_while, crate::specs::While::drop_while_end))]
pub(crate) fn trim<'a>(bytes: &'a [u8]) -> &'a [u8]
    ensures { result.now ≡ trimmed bytes.now }
{
    let rest = &bytes[white_at_start(bytes)..];
    &rest[..rest.len() - white_at_end(rest)]
}

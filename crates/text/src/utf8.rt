// Code points written as UTF-8.
ghost use Rattle.std.specs.Prelude.{◌≡◌, ◌+◌, ◌≤◌, ◌<◌, length};
ghost use Rattle.sectors.specs.Fill.{fill};
ghost use Rattle.text.specs.Utf8.{blanked, utf8};

// What stands in place of a control character.
const BLANK: u32 = 0x20;

// A code point; a blank in place of one below 32.
#[tactic(auto, unfolding(crate::specs::Utf8::blanked))]
pub(crate) fn blank_low(point: u32) -> u32
    ensures { result ≡ blanked point }
{
    if point < 32 { BLANK } else { point }
}

// Writes a code point from a place on; answers the place behind it.
// (By hand: std's `encode_utf8` and a copy take five times as long, so that high bytes would take longer than by the Rust's `decode_string`.)
#[tactic(auto, using(std::proofs::lemmas::Grind::common_steps, crate::proofs::Rules::utf8_sizes))]
fn put_utf8(page: &mut [u8], at: usize, point: u32) -> usize
    requires { (at + length (utf8 point) ≤ length page.old) × (point < 0x110000) }
    ensures { (page.new ≡ fill at (utf8 point) page.old) × (result ≡ at + length (utf8 point)) }
{
    if point < 0x80 {
        page[at] = point as u8;
        return at + 1;
    }
    if point < 0x800 {
        page[at] = (0xC0 + point / 64) as u8;
        page[at + 1] = (0x80 + point % 64) as u8;
        return at + 2;
    }
    if point < 0x10000 {
        page[at] = (0xE0 + point / 4096) as u8;
        page[at + 1] = (0x80 + point / 64 % 64) as u8;
        page[at + 2] = (0x80 + point % 64) as u8;
        return at + 3;
    }
    page[at] = (0xF0 + point / 262144) as u8;
    page[at + 1] = (0x80 + point / 4096 % 64) as u8;
    page[at + 2] = (0x80 + point / 64 % 64) as u8;
    page[at + 3] = (0x80 + point % 64) as u8;
    at + 4
}

// The same of a character of a text: a blank in place of a code point below 32.
#[tactic(auto, using(crate::specs::Utf8Laws::blanked_below))]
pub(crate) fn put_character(page: &mut [u8], at: usize, point: u32) -> usize
    requires { (at + length (utf8 (blanked point)) ≤ length page.old) × (point < 0x110000) }
    ensures { (page.new ≡ fill at (utf8 (blanked point)) page.old) × (result ≡ at + length (utf8 (blanked point))) }
{
    put_utf8(page, at, blank_low(point))
}

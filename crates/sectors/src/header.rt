// The header of a sector of a format 2 image: six bytes, blank when they are zeros, sound when they are another multiple of (x + 1)(x + α).
ghost use Rattle.std.specs.Prelude.{◌≡◌, ◌↔◌, Ok, IfOk};
ghost use Rattle.sectors.specs.Refusal.{refusal_of};
ghost use Rattle.sectors.specs.Header.{Sound, Blank, Unsound, at_one, at_alpha, is_multiple, is_blank, is_sound};
ghost use Rattle.sectors.specs.Audit.{HeaderIn, header_refusal, verdict_number, verdict_of, answer_of, audit_of};

use crate::field::times_alpha;
use crate::refusal::Refusal;
use crate::sector::{Image, Lsn, contains, is_foreign, stored_part};

// Bytes of a header: four of ID, two of IED.
pub const HEADER_SIZE: usize = 6;

// The format that keeps headers, `Raw2064`.
pub const HEADER_FORMAT: u32 = 2;

// What the audit says of a header.
#[derive(Clone, Copy, Debug, PartialEq, Eq)]
pub enum Verdict {
    Sound = 1,
    Blank = 2,
    Unsound = 3,
}

// What the audit answers as C has it: 0 and the verdict's number, or a refusal and 0.
#[repr(C)]
#[derive(Clone, Copy)]
pub struct AuditAnswer {
    pub refusal: u8,
    pub verdict: u8,
}

// The value at 1 of the polynomial whose coefficients are bytes, the first the highest.
pub(crate) fn at_one(h: &[u8]) -> u8
    ensures { result ≡ at_one h.now }
{
    h.iter().fold(0, |v, &b| v ^ b)
}

// Its value at α. (Two folds of a line each: one over the product would be no plainer.)
pub(crate) fn at_alpha(h: &[u8]) -> u8
    ensures { result ≡ at_alpha h.now }
{
    h.iter().fold(0, |v, &b| times_alpha(v) ^ b)
}

// Whether bytes are zero at 1 and at α: six are then a multiple of (x + 1)(x + α).
#[tactic(auto, unfolding(crate::specs::Header::is_multiple))]
fn is_multiple(h: &[u8]) -> bool
    ensures { result ≡ is_multiple h.now }
{
    at_one(h) == 0 && at_alpha(h) == 0
}

// Whether bytes are those of a blank header, six zeros.
#[tactic(auto, unfolding(crate::specs::Header::is_blank, crate::specs::Bytes::same))]
fn is_blank(h: &[u8]) -> bool
    ensures { result ≡ is_blank h.now }
{
    h == [0; HEADER_SIZE].as_slice()
}

// Whether six bytes are a sound header: a multiple that is not blank.
#[tactic(auto, unfolding(crate::specs::Header::is_sound))]
pub(crate) fn is_sound(h: &[u8]) -> bool
    ensures { result ≡ is_sound h.now }
{
    is_multiple(h) && !is_blank(h)
}

// What the audit says of a header.
fn judge(h: &[u8; HEADER_SIZE]) -> Verdict
    ensures number { verdict_number result ≡ verdict_of h.now }
    ensures sound { (result ≡ Verdict.Sound) ↔ Sound h.now }
    ensures blank { (result ≡ Verdict.Blank) ↔ Blank h.now }
    ensures unsound { (result ≡ Verdict.Unsound) ↔ Unsound h.now }
{
    if is_blank(h) {
        return Verdict::Blank;
    }
    if is_multiple(h) {
        return Verdict::Sound;
    }
    Verdict::Unsound
}

// The header of a sector, which the audit and mending look at.
#[tactic(auto, unfolding(crate::specs::Audit::header_refusal, crate::specs::Audit::header_or, crate::specs::Refusal::refusal_of, crate::specs::Refusal::number_of))]
pub(crate) fn header_of(image: Image, lsn: Lsn) -> Result<[u8; HEADER_SIZE], Refusal>
    ensures refusal { refusal_of result ≡ header_refusal image.entry.format image.entry.bytes.now lsn.0 }
    ensures found { IfOk result (λ h. HeaderIn (λ g. g ≡ h) image.entry.format image.entry.bytes.now lsn.0) }
{
    if is_foreign(image.format) {
        return Err(Refusal::ForeignFormat);
    }
    if image.format != HEADER_FORMAT {
        return Err(Refusal::NoHeader);
    }
    if !contains(image.format, image.bytes.len(), lsn, 1) {
        return Err(Refusal::NoSuchEntry);
    }
    let mut header = [0; HEADER_SIZE];
    header.copy_from_slice(stored_part(image, lsn.0 as usize, 0, HEADER_SIZE));
    Ok(header)
}

// Audits the header of a sector.
pub fn audit(image: Image, lsn: Lsn) -> Result<Verdict, Refusal>
    ensures answer { answer_of result ≡ audit_of image.entry.format image.entry.bytes.now lsn.0 }
    ensures sound { (result ≡ Ok Verdict.Sound) ↔ HeaderIn Sound image.entry.format image.entry.bytes.now lsn.0 }
    ensures blank { (result ≡ Ok Verdict.Blank) ↔ HeaderIn Blank image.entry.format image.entry.bytes.now lsn.0 }
    ensures unsound { (result ≡ Ok Verdict.Unsound) ↔ HeaderIn Unsound image.entry.format image.entry.bytes.now lsn.0 }
{
    Ok(judge(&header_of(image, lsn)?))
}

impl From<Result<Verdict, Refusal>> for AuditAnswer {
    ghost from_gives = { λ r a. a ≡ answer_of r };

    #[tactic(auto, unfolding(crate::specs::Audit::answer_of, crate::specs::Audit::verdict_number))]
    fn from(audited: Result<Verdict, Refusal>) -> AuditAnswer {
        match audited {
            Ok(verdict) => AuditAnswer {
                refusal: 0,
                verdict: verdict as u8,
            },
            Err(refusal) => AuditAnswer {
                refusal: refusal.into(),
                verdict: 0,
            },
        }
    }
}

// The code points of a string's bytes by a mapping, from the first on.
ghost use Rattle.std.specs.Prelude.{◌≡◌, [], ◌∷◌, MatchOption};
ghost use Rattle.text.specs.Charset.{set_number};
ghost use Rattle.text.specs.Mapped.{is_reserved, value_in, pair_in, values_of};

use crate::charset::CharacterSet;
use crate::lookup::lookup;
use crate::mapping::{DOUBLE_BASE, Mapping};

// What stands in place of bytes without a value.
const REPLACEMENT: u32 = 0xFFFD;

// (The Rust's `SJIS_RESERVED`.)
const RESERVED: [u32; 10] = [
    0x879F, 0x889E, 0x9873, 0x989E, 0xEAA5, 0xEFF8, 0xEFF9, 0xEFFA, 0xEFFB, 0xEFFC,
];

// The code points still to come: the second of a double, if its first has come, and those of the bytes that are left.
#[derive(Drop)]
pub(crate) struct Points<'a> {
    mapping: &'a Mapping<'a>,
    set: CharacterSet,
    second: Option<u32>,
    bytes: &'a [u8],
}

// Whether a pair is reserved in Shift JIS. (All are looked at, and `pair_value` branches once: which way the bytes of a text go cannot be foretold.)
#[tactic(auto, unfolding(crate::specs::Mapped::is_reserved))]
fn is_reserved(key: u32) -> bool
    ensures { result ≡ is_reserved key }
{
    RESERVED
        .iter()
        .fold(false, |any, &pair| any | (pair == key))
}

// The value of a byte by itself. Where every byte up to it has one, it stands at the byte's own place.
#[tactic(auto, unfolding(crate::specs::Mapped::value_in))]
fn single_value(mapping: &Mapping<'_>, byte: u8) -> u32
    ensures { result ≡ value_in mapping.now.singles byte }
{
    let key = u32::from(byte);
    match mapping.singles.get(usize::from(byte)) {
        Some(&[k, value]) if k == key => value,
        _ => lookup(mapping.singles, key).unwrap_or(REPLACEMENT),
    }
}

// The value of two bytes together: those of a pair of the mapping or, in set 3, of a reserved one.
#[tactic(auto, using(crate::specs::CharsetLaws::shift_jis_named, crate::specs::CharsetLaws::shift_jis_alone), unfolding(crate::specs::Mapped::pair_in, crate::specs::Mapped::is_pair, crate::specs::Mapped::value_in))]
fn pair_value(mapping: &Mapping<'_>, set: CharacterSet, key: u32) -> Option<u32>
    ensures { result ≡ pair_in mapping.now.pairs (set_number set) key }
{
    let pair = lookup(mapping.pairs, key);
    if pair.is_none() & (set == CharacterSet::ShiftJisX0213) & is_reserved(key) {
        return Some(REPLACEMENT);
    }
    pair
}

// The value of the bytes that stand first, of two that have one together or else of one, and the bytes behind them.
#[inline(always)]
fn split_value<'a>(
    mapping: &Mapping<'_>,
    set: CharacterSet,
    bytes: &'a [u8],
) -> Option<(u32, &'a [u8])>
    ensures { MatchOption result (bytes.now ≡ []) (λ r. values_of mapping.now (set_number set) bytes.now ≡ r.0 ∷ values_of mapping.now (set_number set) r.1.now) }
{
    let (&byte, rest) = bytes.split_first()?;
    if let Some((&next, behind)) = rest.split_first() {
        let key = u32::from(u16::from_be_bytes([byte, next]));
        if let Some(value) = pair_value(mapping, set, key) {
            return Some((value, behind));
        }
    }
    Some((single_value(mapping, byte), rest))
}

impl<'a> Points<'a> {
    ghost use Rattle.text.specs.Charset.{set_number};
    ghost use Rattle.text.specs.Mapped.{points_by};
    ghost use Rattle.text.specs.Points.{points_left};

    #[tactic(auto, unfolding(crate::specs::Points::points_left))]
    pub(crate) fn new(mapping: &'a Mapping<'a>, set: CharacterSet, bytes: &'a [u8]) -> Points<'a>
        ensures { points_left result ≡ points_by mapping.now (set_number set) bytes.now }
    {
        Points {
            mapping,
            set,
            second: None,
            bytes,
        }
    }
}

impl Iterator for Points<'_> {
    type Item = u32;

    ghost use Rattle.std.specs.Iterator.{YieldsFirst, item_count};
    ghost use Rattle.text.specs.Points.{points_left};

    ghost next_gives = { YieldsFirst points_left };

    ghost remaining = { item_count points_left };

    // Inlined: so a loop over the points of a text has what is left of it in registers.
    #[inline(always)]
    #[tactic(auto, using(crate::proofs::PointsLaws::points_none, crate::proofs::PointsLaws::points_one, crate::proofs::PointsLaws::points_two, crate::proofs::PointsLaws::double_there), unfolding(crate::specs::Points::points_left))]
    fn next(&mut self) -> Option<u32> {
        if let Some(second) = self.second.take() {
            return Some(second);
        }
        let (value, rest) = split_value(self.mapping, self.set, self.bytes)?;
        self.bytes = rest;
        if value < DOUBLE_BASE {
            return Some(value);
        }
        let mapping = self.mapping;
        let [first, second] = mapping.doubles[(value - DOUBLE_BASE) as usize];
        self.second = Some(second);
        Some(first)
    }
}

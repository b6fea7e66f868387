// A lent mapping of a character set to Unicode: the lists that its words hold, and whether words are one.
ghost use Rattle.std.specs.Prelude.{◌≡◌, ◌^◌, ◌<◌, length, MatchOption};
ghost use Rattle.text.specs.Mapping.{is_point, is_value, entries_sound, all_points, behind, Counts, is_sound};

use std::marker::Model;

// A value is a code point, or this plus an index into the doubles.
pub(crate) const DOUBLE_BASE: u32 = 0x8000_0000;

// Keys are below these.
const SINGLE_WIDTH: u32 = 256;

const PAIR_WIDTH: u32 = 65536;

// The entries of a mapping: a byte and its value, a key of two bytes and its value, and two code points.
#[derive(Drop)]
pub(crate) struct Mapping<'a> {
    pub singles: &'a [[u32; 2]],
    pub pairs: &'a [[u32; 2]],
    pub doubles: &'a [[u32; 2]],
}

impl<'a> Model for Mapping<'a> {
    ghost use Rattle.std.specs.Prelude.{◌≡◌, true};
    ghost use Rattle.text.specs.Mapping.{Lists, is_sound};

    ghost Value = { Lists };

    ghost view = { λ m. record { singles = m.singles.now; pairs = m.pairs.now; doubles = m.doubles.now } };

    ghost invariant = { λ m. is_sound (record { singles = m.singles.now; pairs = m.pairs.now; doubles = m.doubles.now }) ≡ true };
}

// Whether a number is a code point, and no surrogate.
#[tactic(auto, unfolding(crate::specs::Mapping::is_point, crate::specs::Mapping::is_surrogate))]
fn is_point(n: u32) -> bool
    ensures { result ≡ is_point n }
{
    char::from_u32(n).is_some()
}

// Whether a number is a value, of a mapping with so many doubles.
#[tactic(auto, unfolding(crate::specs::Mapping::is_value))]
fn is_value(count: u32, value: u32) -> bool
    ensures { result ≡ is_value count value }
{
    is_point(value) | ((DOUBLE_BASE <= value) & (value % DOUBLE_BASE < count))
}

// Whether entries have keys that rise and are below a width, and values of a mapping with so many doubles; every entry is looked at.
// Behind the largest key the least is 0 again, but no width is above that key.
#[tactic(auto, using(crate::specs::MappingLaws::sound_wrapped, crate::specs::MappingLaws::sound_end))]
fn entries_sound(entries: &[[u32; 2]], width: u32, count: u32) -> bool
    ensures { result ≡ entries_sound width count 0 entries.now }
{
    let mut sound = true;
    let mut least = 0;
    for &[key, value] in entries {
        sound &= (least <= key) & (key < width) & is_value(count, value);
        least = key.wrapping_add(1);
    }
    sound
}

// Whether every word is a code point; every word is looked at.
fn all_points(words: &[u32]) -> bool
    ensures { result ≡ all_points words.now }
{
    words
        .iter()
        .fold(true, |sound, &word| sound & is_point(word))
}

// The entries that a count announces at the start of words, and the words behind them.
#[tactic(auto, unfolding(crate::specs::Mapping::count_at, crate::specs::Mapping::behind, crate::specs::Mapping::entries_at, crate::specs::Mapping::twos))]
fn counted<'a>(words: &'a [u32]) -> Option<(&'a [[u32; 2]], &'a [u32])>
    ensures { MatchOption result (length words.now < behind words.now 0) (λ r. Counts words.now r.0.now r.1.now) }
{
    let (&count, rest) = words.split_first()?;
    let (entries, rest) = rest.split_at_checked(2 * count as usize)?;
    Some((entries.as_chunks::<2>().0, rest))
}

// Whether three lists are those of a mapping.
#[tactic(auto, unfolding(crate::specs::Mapping::is_sound))]
fn is_sound(singles: &[[u32; 2]], pairs: &[[u32; 2]], doubles: &[[u32; 2]]) -> bool
    requires { length doubles.now < 2 ^ 32 }
    ensures { result ≡ is_sound (record { singles = singles.now; pairs = pairs.now; doubles = doubles.now }) }
{
    let count = doubles.len() as u32;
    entries_sound(singles, SINGLE_WIDTH, count)
        && entries_sound(pairs, PAIR_WIDTH, count)
        && all_points(doubles.as_flattened())
}

impl<'a> Mapping<'a> {
    ghost use Rattle.text.specs.Mapping.{mapping_in};

    // The mapping that words are, if they are one.
    pub(crate) fn new(words: &'a [u32]) -> Option<Mapping<'a>>
        ensures { result ≡ mapping_in words.now }
    {
        let (singles, rest) = counted(words)?;
        let (pairs, rest) = counted(rest)?;
        let (doubles, rest) = counted(rest)?;
        if rest.is_empty() && is_sound(singles, pairs, doubles) {
            Some(Mapping {
                singles,
                pairs,
                doubles,
            })
        } else {
            None
        }
    }
}

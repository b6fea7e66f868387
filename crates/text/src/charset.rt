// Character sets, by the code that a table stores.
ghost use Rattle.std.specs.Prelude.{◌≡◌};
ghost use Rattle.text.specs.Charset.{set_number, charset_of};

#[derive(Clone, Copy, Debug, PartialEq, Eq)]
pub enum CharacterSet {
    Latin1 = 0,
    ShiftJisX0213 = 3,
    EucKr = 4,
    EucCn = 5,
    Big5 = 6,
}

impl From<CharacterSet> for u8 {
    ghost from_gives = { λ s n. n ≡ set_number s };

    #[tactic(auto, unfolding(crate::specs::Charset::set_number))]
    fn from(set: CharacterSet) -> u8 {
        set as u8
    }
}

// The set that a code names: Latin-1 where it names none of the others.
#[tactic(auto, unfolding(crate::specs::Charset::set_number, crate::specs::Charset::charset_of, crate::specs::Charset::set_of, crate::specs::Charset::is_mapped))]
pub fn charset(code: u8) -> CharacterSet
    ensures { set_number result ≡ charset_of code }
{
    match code & 7 {
        3 => CharacterSet::ShiftJisX0213,
        4 => CharacterSet::EucKr,
        5 => CharacterSet::EucCn,
        6 => CharacterSet::Big5,
        _ => CharacterSet::Latin1,
    }
}

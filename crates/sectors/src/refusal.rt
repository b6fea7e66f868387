// The refusals of calls on sectors.
ghost use Rattle.std.specs.Prelude.{◌≡◌};
ghost use Rattle.sectors.specs.Refusal.{number_of};

// What a call is refused by.
#[derive(Clone, Copy, Debug, PartialEq, Eq)]
pub enum Refusal {
    ForeignFormat = 1,
    ShortBuffer = 2,
    NoSuchEntry = 8,
    NoHeader = 11,
    BeyondMending = 14,
}

impl From<Refusal> for u8 {
    ghost from_gives = { λ r n. n ≡ number_of r };

    #[tactic(auto, unfolding(crate::specs::Refusal::number_of))]
    fn from(refusal: Refusal) -> u8 {
        refusal as u8
    }
}

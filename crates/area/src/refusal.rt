// Why a lone table is refused, with the numbers of the refusals.
ghost use Rattle.std.specs.Prelude.{◌≡◌};

// Why a lone table is not read; one without an area gives its warnings.
#[derive(Clone, Copy, Debug, PartialEq, Eq)]
pub enum TableRefusal {
    ShortBuffer = 2,
    NoAudioAreas = 6,
    OddTable = 7,
}

impl From<TableRefusal> for u8 {
    ghost use Rattle.area.specs.Refusal.{number_of};

    ghost from_gives = { λ refusal n. n ≡ number_of refusal };

    #[tactic(auto, unfolding(crate::specs::Refusal::number_of))]
    fn from(refusal: TableRefusal) -> u8 {
        refusal as u8
    }
}

// The refusals of disc reading.
ghost use Rattle.std.specs.Prelude.{◌≡◌};
ghost use Rattle.disc.specs.Refusal.{number_of};

// What a disc reading is refused by.
#[derive(Clone, Copy, Debug, PartialEq, Eq)]
pub enum DiscRefusal {
    ForeignFormat = 1,
    ShortBuffer = 2,
    MasterTocTruncated = 3,
    NotScarletBook = 4,
    VersionUnsupported = 5,
    NoAudioAreas = 6,
}

impl From<DiscRefusal> for u8 {
    ghost from_gives = { λ r n. n ≡ number_of r };

    #[tactic(auto, unfolding(crate::specs::Refusal::number_of))]
    fn from(refusal: DiscRefusal) -> u8 {
        refusal as u8
    }
}

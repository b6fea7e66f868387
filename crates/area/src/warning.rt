// Warnings as words, written into lent words.
ghost use Rattle.std.specs.Prelude.{◌≡◌, map, option_to_list};
ghost use Rattle.std.proofs.lemmas.List.Edits.{sets};
ghost use Rattle.area.specs.Warning.{word_of};
ghost use Rattle.area.specs.Lent.{counted};

// What a reading warns of: the codes of `WarningCode` in its order, and behind them one of our own.
#[derive(Clone, Copy, Debug, PartialEq, Eq)]
pub enum WarningCode {
    MasterTextMissing = 1,
    ManufacturerMissing = 2,
    AreaTocTooLarge = 3,
    AreaToc1Unreadable = 4,
    AreaToc2Unreadable = 5,
    AreaTocCopiesDiffer = 6,
    AreaTocUnreadable = 7,
    AreaSignatureInvalid = 8,
    AreaTrackListMissing = 9,
    AreaTocMalformed = 10,
    AreaAudioRangeReversed = 11,
    TrackTextOffsetInvalid = 12,
    TrackTextTypeUnknown = 13,
    TrackPastPlaytime = 14,
    TrackLsnOutsideArea = 15,
    AudioSectorMalformed = 16,
    MasterTocCopiesDiffer = 17,
    SampleFrequencyUnknown = 18,
    TrackTextUnterminated = 19,
}

impl From<WarningCode> for u8 {
    ghost use Rattle.area.specs.Warning.{number_of};

    ghost from_gives = { λ code n. n ≡ number_of code };

    #[tactic(auto, unfolding(crate::specs::Warning::number_of))]
    fn from(code: WarningCode) -> u8 {
        code as u8
    }
}

// A warning: its code, the slot (0 for the disc) and the track (0 for none).
// The code is by its number, since `warning_of` of the listing has a warning for every word, also for one of no known code.
#[derive(Clone, Copy)]
pub struct Warning {
    pub code: u8,
    pub slot: u8,
    pub track: u8,
}

// The word of a warning.
#[tactic(auto, unfolding(crate::specs::Warning::word_of))]
fn word(warning: Warning) -> u32
    ensures { result ≡ word_of warning }
{
    warning.code as u32 * 65536 + warning.slot as u32 * 256 + warning.track as u32
}

// Writes the word of a warning, if there is one, at the place that a count names, if it fits; the count of words then.
#[tactic(auto, unfolding(crate::specs::Lent::counted))]
pub fn push(words: &mut [u32], count: usize, warning: Option<Warning>) -> usize
    ensures written { words.new ≡ sets words.old count (map word_of (option_to_list warning)) }
    ensures counted { result ≡ counted words.old count (option_to_list warning) }
{
    match warning {
        Some(warning) if count < words.len() => {
            words[count] = word(warning);
            count + 1
        }
        _ => count,
    }
}

// Which format an image stores its sectors in, by where its master table begins.
ghost use Rattle.std.specs.Prelude.{◌≡◌};
ghost use Rattle.sectors.specs.Sector.{begins_with};
ghost use Rattle.disc.specs.Detect.{detected, detected_by};
ghost use Rattle.disc.specs.Master.{master_lsn, master_signature};

use crate::master::{MASTER_SIGNATURE, MASTER_TOC_LSN};
use crate::refusal::DiscRefusal;
use sectors::sector::{Image, Lsn, begins_with};

// The formats in the order of detection: plain, 2,064 bytes, 2,054 bytes.
const DETECTION_ORDER: [u32; 3] = [0, 2, 1];

// What detection answers, as C has it: a refusal, or 0 and the format.
#[repr(C)]
#[derive(Clone, Copy)]
pub struct DetectAnswer {
    pub refusal: u8,
    pub sector_format: u32,
}

// Whether the master table begins at its place in a format.
fn master_begins(format: u32, image: &[u8]) -> bool
    ensures { result ≡ begins_with format image.now master_lsn master_signature }
{
    let image = Image {
        format,
        bytes: image,
    };
    begins_with(image, Lsn(MASTER_TOC_LSN), MASTER_SIGNATURE)
}

impl From<Result<u32, DiscRefusal>> for DetectAnswer {
    ghost from_gives = { λ r a. a ≡ detected_by r };

    #[tactic(auto, unfolding(crate::specs::Detect::detected_by, crate::specs::Detect::in_format))]
    fn from(detected: Result<u32, DiscRefusal>) -> DetectAnswer {
        match detected {
            Ok(sector_format) => DetectAnswer {
                refusal: 0,
                sector_format,
            },
            Err(refusal) => DetectAnswer {
                refusal: refusal.into(),
                sector_format: 0,
            },
        }
    }
}

// The first format in which the master table begins at its place; refused with 4 if none.
#[tactic(auto, unfolding(crate::specs::Detect::detected, crate::specs::Detect::first_of, crate::specs::Detect::detected_by, crate::specs::Detect::in_format, crate::specs::Refusal::number_of))]
pub fn detect_format(image: &[u8]) -> Result<u32, DiscRefusal>
    ensures { detected_by result ≡ detected image.now }
{
    DETECTION_ORDER
        .into_iter()
        .find(|&format| master_begins(format, image))
        .ok_or(DiscRefusal::NotScarletBook)
}

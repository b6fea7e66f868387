// A track's times, held within the play time of its area.
ghost use Rattle.std.specs.Prelude.{◌≡◌};
ghost use Rattle.area.specs.Cap.{cap_of};

use crate::timecode::Frame;

// What is kept of a track's times, and whether they went past the play time.
#[derive(Clone, Copy)]
pub struct Capped {
    pub start_frame: Frame,
    pub duration_frames: Frame,
    pub past_playtime: bool,
}

// Start and duration as they are if they end within the play time; else the start is capped at it, the duration at what remains.
#[tactic(auto, unfolding(crate::specs::Cap::cap_of, crate::specs::Cap::exceeds, crate::specs::Cap::capped, crate::specs::Cap::uncapped))]
pub fn cap(start: Frame, duration: Frame, playtime: Frame) -> Capped
    ensures { result ≡ cap_of start duration playtime }
{
    if start.0 as u64 + duration.0 as u64 <= playtime.0 as u64 {
        return Capped {
            start_frame: start,
            duration_frames: duration,
            past_playtime: false,
        };
    }
    let start = start.min(playtime);
    Capped {
        start_frame: start,
        duration_frames: duration.min(Frame(playtime.0 - start.0)),
        past_playtime: true,
    }
}

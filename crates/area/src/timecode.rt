// Timecodes, and the frame numbers that they name.
ghost use Rattle.std.specs.Prelude.{◌≡◌, ◌<◌, ◌+◌, ◌^◌};
ghost use Rattle.area.specs.Timecode.{timecode_at, frame_number};

use sectors::number::byte_at;

// A frame number.
#[repr(C)]
#[derive(Clone, Copy, Debug, Default, PartialEq, Eq, PartialOrd, Ord)]
pub struct Frame(pub u32);

// A timecode, as stored.
#[repr(C)]
#[derive(Clone, Copy, Default)]
pub struct Timecode {
    pub minutes: u8,
    pub seconds: u8,
    pub frames: u8,
}

// The frame number of a timecode.
#[tactic(auto, unfolding(crate::specs::Timecode::frame_number))]
pub fn frame_number(time: Timecode) -> Frame
    ensures { result ≡ frame_number time }
{
    Frame((time.minutes as u32 * 60 + time.seconds as u32) * 75 + time.frames as u32)
}

// The timecode in three bytes from a place on.
#[tactic(auto, unfolding(crate::specs::Timecode::timecode_at))]
pub(crate) fn timecode_at(table: &[u8], at: usize) -> Timecode
    requires { at + 2 < 2 ^ 64 }
    ensures { result ≡ timecode_at table.now at }
{
    Timecode {
        minutes: byte_at(table, at),
        seconds: byte_at(table, at + 1),
        frames: byte_at(table, at + 2),
    }
}

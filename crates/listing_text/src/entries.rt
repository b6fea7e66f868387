// The entries of a listing's sections, each a line.
ghost use Rattle.std.specs.Prelude.{◌≡◌, List, ℕ};
ghost use Rattle.listing_text.specs.Listing.{locale_line, track_line, warning_line, warning_of};
ghost use Rattle.listing_text.specs.Page.{appended};

use crate::page::Page;
use area::locale::Locale;
use area::track::Track;

// What a section lists, a line each.
pub(crate) trait Entry: Copy {
    ghost line: { Self → List ℕ };

    fn put(self, page: &mut Page)
        ensures { page.new ≡ appended page.old (line self) };
}

impl Entry for Locale {
    ghost line = { locale_line };

    #[tactic(auto, unfolding(crate::specs::Listing::locale_line))]
    fn put(self, page: &mut Page) {
        let [first, second] = self.language_code;
        page.put_line(&[first as usize, second as usize, self.charset as usize]);
    }
}

impl Entry for Track {
    ghost line = { track_line };

    #[tactic(auto, unfolding(crate::specs::Listing::track_line))]
    fn put(self, page: &mut Page) {
        page.put_line(&[
            self.number as usize,
            self.start_lsn.0 as usize,
            self.length_sectors as usize,
            self.times.start_frame.0 as usize,
            self.times.duration_frames.0 as usize,
        ]);
    }
}

// The word of a warning.
impl Entry for u32 {
    ghost line = { λ word. warning_line (warning_of word) };

    #[tactic(auto, unfolding(crate::specs::Listing::warning_line, crate::specs::Listing::warning_of))]
    fn put(self, page: &mut Page) {
        page.put_line(&[
            (self >> 16) as usize,
            ((self >> 8) & 0xFF) as usize,
            (self & 0xFF) as usize,
        ]);
    }
}

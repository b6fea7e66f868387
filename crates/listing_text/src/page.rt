// A lent page, and what a listing is made of written into it: bytes, numbers and lines. What does not fit is left out.
ghost use Rattle.std.specs.Prelude.{◌≡◌, [], ◌∷◌};
ghost use Rattle.listing_text.specs.Decimal.{decimal};
ghost use Rattle.listing_text.specs.Line.{next_field, fields_of, line_of, word_line};
ghost use Rattle.listing_text.specs.Page.{appended};

// A lent page that is written from its start on: its bytes, and the place behind what is written.
#[derive(Drop)]
pub(crate) struct Page<'a> {
    bytes: &'a mut [u8],
    at: usize,
}

impl<'a> Page<'a> {
    pub(crate) fn new(bytes: &'a mut [u8]) -> Page<'a>
        ensures same { result.bytes.ghost_name ≡ bytes.entry.ghost_name }
        ensures bytes { result.bytes.now ≡ bytes.old }
        ensures at { result.at ≡ 0 }
    {
        Page { bytes, at: 0 }
    }

    // How many bytes are written.
    pub(crate) fn len(&self) -> usize
        ensures { result ≡ self.now.at }
    {
        self.at
    }

    #[tactic(auto, using(crate::proofs::Writing::byte_written, crate::proofs::Writing::full_kept))]
    fn put_byte(&mut self, byte: u8)
        ensures { self.new ≡ appended self.old (byte ∷ []) }
    {
        if self.at < self.bytes.len() {
            self.bytes[self.at] = byte;
            self.at += 1;
        }
    }

    #[tactic(auto, using(crate::proofs::Writing::none_written, crate::proofs::EntryLines::next_byte))]
    fn put_bytes(&mut self, bytes: &[u8])
        ensures { self.new ≡ appended self.old bytes.now }
    {
        for byte in bytes {
            self.put_byte(*byte);
        }
    }

    // Writes the decimal digits of a number. (`write!` may answer an error by its contract, and a listing has none.)
    #[tactic(auto, using(crate::proofs::Writing::joined, crate::specs::DecimalLaws::decimal_digit, crate::specs::DecimalLaws::decimal_more), unfolding(crate::specs::Decimal::digit))]
    fn put_decimal(&mut self, n: usize)
        ensures { self.new ≡ appended self.old (decimal n) }
    {
        if 10 <= n {
            self.put_decimal(n / 10);
        }
        self.put_byte(b'0' + (n % 10) as u8);
    }

    // Writes a field behind another: a blank and a number.
    #[tactic(auto, using(crate::proofs::Writing::joined), unfolding(crate::specs::Line::next_field))]
    fn put_next(&mut self, n: usize)
        ensures { self.new ≡ appended self.old (next_field n) }
    {
        self.put_byte(b' ');
        self.put_decimal(n);
    }

    // Writes a line of a word and a number.
    #[tactic(auto, using(crate::proofs::Writing::joined), unfolding(crate::specs::Line::word_line))]
    pub(crate) fn put_word_line(&mut self, word: &[u8], n: usize)
        ensures { self.new ≡ appended self.old (word_line word.now n) }
    {
        self.put_bytes(word);
        self.put_next(n);
        self.put_byte(b'\n');
    }

    #[tactic(auto, using(crate::proofs::Writing::none_written, crate::proofs::EntryLines::lines, crate::proofs::EntryLines::all_fields), unfolding(crate::specs::Line::fields_of))]
    fn put_fields(&mut self, fields: &[usize])
        ensures { self.new ≡ appended self.old (fields_of fields.now) }
    {
        let [first, rest @ ..] = fields else {
            return;
        };
        self.put_decimal(*first);
        for field in rest {
            self.put_next(*field);
        }
    }

    // Writes a line of fields.
    #[tactic(auto, using(crate::proofs::Writing::joined), unfolding(crate::specs::Line::line_of))]
    pub(crate) fn put_line(&mut self, fields: &[usize])
        ensures { self.new ≡ appended self.old (line_of fields.now) }
    {
        self.put_fields(fields);
        self.put_byte(b'\n');
    }
}

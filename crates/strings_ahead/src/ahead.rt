// Writes a long text by copying ahead: sixteen bytes are copied whatever they are, and where one of them is escaped the next is written over what follows
// it. So up to sixteen bytes past what is written are overwritten, and the last bytes of the text are left to the exact way.
// The room that a text needs stands in each contract: text and output are cut anew for each turn.
ghost use Rattle.std.specs.Prelude.{true, false, ◌≡◌, ℕ, ◌+◌, ◌≤◌, ◌<◌, length, take, get_or};
ghost use Rattle.rules.specs.Bytes.{over};
ghost use Rattle.rules.specs.Contexts.{written_in};
ghost use Rattle.rules.specs.Encoding.{encode_step};
ghost use Rattle.rules.specs.Moves.{through};
ghost use Rattle.rules.specs.Answers.{Measures};
ghost use Rattle.rules.specs.Operations.{encode_of};
ghost use Rattle.base.specs.Words.{Spills};
ghost use Rattle.encode_strings.specs.Strings.{single_key, double_key};
ghost use Rattle.strings_ahead.specs.Ahead.{copies, Table, Reached};

use crate::cold::least;
use encode_strings::{escapes, rule};
use rules::{Measured, Notation, Quotes};

// Bytes that are copied ahead: one vector.
const PART: usize = 16;

// Bytes of a text that are left to the exact way: as many as a turn takes, and as it overwrites.
const LEFT: usize = 40;

// What is written for each byte of a string: its notation and its quotes, the quotes that it escapes one by one, and the words of all bytes, a table that is
// lent. A call on a long text makes it once.
#[derive(Clone, Copy)]
pub struct Words<'a> {
    pub notation: Notation,
    pub quotes: Quotes,
    pub single: u8,
    pub double: u8,
    pub table: &'a [u64; 256],
    ghost single_right: { single ≡ single_key notation quotes },
    ghost double_right: { double ≡ double_key notation quotes },
    ghost table_right: { Table notation quotes table.now },
}

impl<'a> Words<'a> {
    // Returns those of a string, whose table is lent.
    pub fn of(notation: Notation, quotes: Quotes, table: &'a [u64; 256]) -> Words<'a>
        requires { Table notation quotes table.now }
        ensures { (result.notation ≡ notation) × (result.quotes ≡ quotes) }
    {
        Words {
            notation,
            quotes,
            single: rule::single_key(notation, quotes),
            double: rule::double_key(notation, quotes),
            table,
        }
    }

    // Whether a byte is copied wherever it stands: its word has one byte. A comparison of the whole word takes less than one of its highest byte.
    fn is_copied(&self, b: u8) -> bool
        ensures { result ≡ copies self.now.notation self.now.quotes b }
    {
        self.table[b as usize] < 0x0200_0000_0000_0000
    }

    // Returns how many bytes at the start of a text are copied, of which the first is; sixteen at most.
    fn run(&self, text: &[u8]) -> usize
        requires { (16 ≤ length text.now) × (copies self.now.notation self.now.quotes (get_or text.now 0 0) ≡ true) }
        ensures { (result ≤ 16) × ((i : ℕ) → i < result → copies self.now.notation self.now.quotes (get_or text.now i 0) ≡ true) × (result < 16 → copies self.now.notation self.now.quotes (get_or text.now result 0) ≡ false) }
    {
        for n in 1..PART {
            if !self.is_copied(text[n]) {
                return n;
            }
        }
        PART
    }

    // Returns the same: where none of sixteen bytes is escaped, they are not looked at one by one.
    fn run_by_least(&self, text: &[u8]) -> usize
        requires { (16 ≤ length text.now) × (copies self.now.notation self.now.quotes (get_or text.now 0 0) ≡ true) }
        ensures { (result ≤ 16) × ((i : ℕ) → i < result → copies self.now.notation self.now.quotes (get_or text.now i 0) ≡ true) × (result < 16 → copies self.now.notation self.now.quotes (get_or text.now result 0) ≡ false) }
    {
        if 0 < least(self.single, self.double, text) {
            return PART;
        }
        self.run(text)
    }

    // Copies the bytes at the start of a text up to the first that is not just copied, sixteen at most, and returns how many they are. Where the first byte
    // is not, which is frequent in text full of escapes, nothing is copied ahead.
    fn write_run(&self, text: &[u8], output: &mut [u8]) -> usize
        requires text_sixteen { (16 ≤ length text.now) }
        requires text_in_bounds { length (encode_of (written_in self.now.notation self.now.quotes) text.now) ≤ length output.old }
        ensures upper_bound { (result ≤ 16) × (result < 16 → copies self.now.notation self.now.quotes (get_or text.now result 0) ≡ false) × Reached self.now.notation self.now.quotes text.now result result 0 }
        ensures spills { Spills 16 (take result (encode_of (written_in self.now.notation self.now.quotes) text.now)) output.old output.new }
    {
        if !self.is_copied(text[0]) {
            return 0;
        }
        base::put(&text[..PART], output);
        self.run_by_least(text)
    }

    // Writes what is written for E2 at the start of a text: an escape for all of a line separator, else the byte.
    fn write_lead(&self, text: &[u8], output: &mut [u8]) -> Measured
        requires text_nonzero { (0 < length text.now) × (get_or text.now 0 0 ≡ 0xE2) }
        requires text_in_bounds { length (encode_of (written_in self.now.notation self.now.quotes) text.now) ≤ length output.old }
        ensures reached { Reached self.now.notation self.now.quotes text.now result.place result.length result.replaced × (1 ≤ result.place) × (result.place ≤ 3) × (result.replaced ≤ result.place) }
        ensures output_after { output.new ≡ over (take result.length (encode_of (written_in self.now.notation self.now.quotes) text.now)) output.old }
    {
        let Some(found) = escapes::separator(self.notation, text) else {
            return Measured::whole(base::put(&[text[0]], output), 1, 0);
        };
        Measured::whole(
            escapes::put_found(self.notation, found, text, output),
            escapes::taken(found),
            1,
        )
    }

    // Writes what is written for the first byte of a text, which is not just copied, by its word; for E2 by the bytes after it.
    fn write_escape(&self, text: &[u8], output: &mut [u8]) -> Measured
        requires text_eight { (8 ≤ length text.now) × (copies self.now.notation self.now.quotes (get_or text.now 0 0) ≡ false) }
        requires text_in_bounds { length (encode_of (written_in self.now.notation self.now.quotes) text.now) ≤ length output.old }
        ensures reached { Reached self.now.notation self.now.quotes text.now result.place result.length result.replaced × (1 ≤ result.place) × (result.place ≤ 3) × (result.replaced ≤ result.place) }
        ensures spills { Spills 16 (take result.length (encode_of (written_in self.now.notation self.now.quotes) text.now)) output.old output.new }
    {
        let b = text[0];
        if b == rule::SEPARATOR_LEAD {
            return self.write_lead(text, output);
        }
        Measured::whole(base::words::store(self.table[b as usize], output), 1, 1)
    }

    // Writes most of a text, and returns how much of it that is, how many bytes that gives and how many of its places are replaced. What is left has at
    // least sixteen bytes, which give as many, so that all that is overwritten is written again.
    pub fn write_most(&self, text: &[u8], output: &mut [u8]) -> Measured
        requires text_long { (16 ≤ length text.now) × (length text.now ≤ 65536) }
        requires text_in_bounds { length (encode_of (written_in self.now.notation self.now.quotes) text.now) ≤ length output.old }
        ensures reached { Reached self.now.notation self.now.quotes text.now result.place result.length result.replaced × (result.place + 16 ≤ length text.now) × (result.replaced ≤ result.place) }
        ensures spills { Spills 16 (take result.length (encode_of (written_in self.now.notation self.now.quotes) text.now)) output.old output.new }
    {
        let mut at: usize = 0;
        let mut places: usize = 0;
        let mut i: usize = 0;
        // A cursor: each turn moves by a run and what ends it.
        while LEFT <= text.len() - i {
            let n = self.write_run(&text[i..], &mut output[at..]);
            i += n;
            at += n;
            if n == PART {
                continue;
            }
            let next = self.write_escape(&text[i..], &mut output[at..]);
            i += next.place;
            at += next.length;
            places += next.replaced;
        }
        Measured::whole(at, i, places)
    }

    // Writes the escaped text to the start of `output`, leaves the bytes after it as they were, and returns what `encode_strings::measure` does: most of it by
    // copying ahead, the rest part by part.
    pub fn write(&self, text: &[u8], output: &mut [u8]) -> Measured
        requires { (16 ≤ length text.now) × (length text.now ≤ 65536) × (length (encode_of (written_in self.now.notation self.now.quotes) text.now) ≤ length output.old) }
        ensures { Measures result (through (encode_step (written_in self.now.notation self.now.quotes)) text.now) × (output.new ≡ over (encode_of (written_in self.now.notation self.now.quotes) text.now) output.old) }
    {
        let most = self.write_most(text, output);
        let i = most.place;
        let at = most.length;
        let rest = encode_strings::write(self.notation, self.quotes, &text[i..], &mut output[at..]);
        Measured::whole(
            at + rest.length,
            i + rest.place,
            most.replaced + rest.replaced,
        )
    }
}

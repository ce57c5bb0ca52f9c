// Reads the words of a case by the letters of its row, and writes the words of its answer (docs/CASES.md).

mod line;

ghost use Rattle.std.specs.Prelude.{◌≡◌, ◌<◌, option_map, Some, None};
ghost use Rattle.base.specs.Choice.{pick};
ghost use Rattle.base.specs.Writing.{Puts};
ghost use Rattle.cases.specs.Words.{limit_of, unread, with_number, given, step, numbers_past, sheet_at};
ghost use Rattle.cases.specs.Said.{number_text, hex_behind, call_text};

use base::Writer;
pub use line::{first_word, next_word};
use numbers::answers::{MALFORMED, REFUSAL};
use numbers::fields;
use step::MAX_BYTES;

// The most bytes that a sheet has that is read: more than any plan's sheet (docs/DECISIONS.md, 71).
pub const MOST_READ: usize = 2048;

// The greatest number that a letter allows. Letters are no enum: they are those of docs/CASES.md's rows, read as text.
fn limit(letter: u8) -> u32
    ensures { result ≡ limit_of letter }
{
    match letter {
        b'f' => 1,
        b'b' => u32::from(u8::MAX),
        b'h' => u32::from(u16::MAX),
        b'r' => fields::ROOM,
        _ => u32::MAX,
    }
}

// What the words of a case give: for each word a number in the row, and for a word of hex the count of its bytes there and the
// bytes themselves at the start of a buffer. Neither is a bounded list: a case reads its numbers by index, and an absent one is 0; and
// a count of bytes is one of its numbers, as the exported calls want it.
#[derive(Clone, Copy)]
pub struct Words {
    pub count: usize,
    pub row: [u32; 128],
    pub kept: [u8; MAX_BYTES],
    pub sheet: [u8; MOST_READ],
}

impl Words {
    // The words of a line of which none is read yet.
    pub(crate) fn unread() -> Words
        ensures { result ≡ unread }
    {
        Words {
            count: 0,
            row: [0; 128],
            kept: [0; MAX_BYTES],
            sheet: [0; MOST_READ],
        }
    }

    // The number of a letter's word. Of x and k, which are hex, it is the count of the word's bytes, which go to the start of a
    // buffer; of any other letter it is the number that the word spells. None where the word is not what its letter asks for.
    fn number(&mut self, letter: u8, word: &[u8]) -> Option<u32>
        ensures word { option_map (with_number self.new) result ≡ step letter word.now self.old }
        ensures count { self.new.count ≡ self.old.count }
    {
        match letter {
            b'x' => Some(text::hex_bytes(word, &mut self.sheet)? as u32),
            b'k' => Some(text::hex_bytes(word, &mut self.kept)? as u32),
            _ => text::number(word).ok().filter(|n| *n <= limit(letter)),
        }
    }

    // Stores the number of the next word.
    fn push(&mut self, number: u32)
        requires { self.old.count < 128 }
        ensures { self.new ≡ with_number self.old number }
    {
        self.row[self.count] = number;
        self.count += 1;
    }

    // Reads one word for each letter from the rest of a line onto what is there; false where a word is not what its letter asks for or
    // the line has more words, and then what is there is open. It reads in place, as a `Words` is 3 KB: a line of a short case takes
    // half the time of one that is answered by value.
    pub(crate) fn fill(&mut self, letters: &[u8], rest: &[u8]) -> bool
        ensures { pick result (Some self.new) None ≡ given rest.now letters.now self.old }
    {
        let mut rest = rest;
        for letter in letters {
            if rest.is_empty() {
                return *letter == b'o';
            }
            if 128 <= self.count {
                return false;
            }
            let (word, after) = next_word(rest);
            let Some(number) = self.number(*letter, word) else {
                return false;
            };
            self.push(number);
            rest = after;
        }
        rest.is_empty()
    }

    // Goes on from these words with those of the rest of a line; None as `fill` answers false.
    pub fn read_on(self, letters: &[u8], rest: &[u8]) -> Option<Words>
        ensures { result ≡ given rest.now letters.now self }
    {
        let mut words = self;
        if words.fill(letters, rest) {
            Some(words)
        } else {
            None
        }
    }

    // Reads one word for each letter from the rest of a line; None where a word is not what its letter asks for or the line has
    // more words.
    pub fn read(letters: &[u8], rest: &[u8]) -> Option<Words>
        ensures { result ≡ given rest.now letters.now unread }
    {
        Words::unread().read_on(letters, rest)
    }

    // The numbers that were read after the first i; None where fewer were read.
    pub fn numbers_past(&self, i: usize) -> Option<&[u32]>
        ensures { option_map (λ n. n.now) result ≡ numbers_past self.now i }
    {
        self.row.get(i..self.count)
    }

    // The bytes of the word of hex x whose count is number i of the row.
    pub fn sheet_at(&self, i: usize) -> &[u8]
        ensures { result.now ≡ sheet_at self.now i }
    {
        base::first(&self.sheet, fields::number_at(&self.row, i) as usize)
    }
}

// Writes an exported call's answer: `refused N` for a refusal, else the number. It goes by the call's number, as a case answers
// what the call answers.
fn write_number(out: &mut Writer<'_, u8>, r: u64)
    ensures { Puts out.old (number_text r) out.new }
{
    if (REFUSAL..=REFUSAL + 255).contains(&r) {
        text::replies::write_refused(out, (r % 256) as u8);
    } else {
        text::write_decimal(out, r);
    }
}

// Writes a space and the bytes in hex; nothing where there are no bytes.
#[tactic(auto, using(base::proofs::Writing::put_more, base::proofs::Writing::put_none, crate::proofs::Steps::behind_some))]
fn write_behind(out: &mut Writer<'_, u8>, bytes: &[u8])
    ensures { Puts out.old (hex_behind bytes.now) out.new }
{
    if !bytes.is_empty() {
        out.put(b' ');
        text::write_hex(out, bytes);
    }
}

// Writes an exported call's answer, then the numbers and the bytes that it leaves; `bad case` where it is malformed.
#[tactic(auto, using(base::proofs::Writing::put_more), unfolding(crate::specs::Said::call_text))]
pub fn write_call(out: &mut Writer<'_, u8>, r: u64, row: &[u32], bytes: &[u8])
    ensures { Puts out.old (call_text r row.now bytes.now) out.new }
{
    if r == MALFORMED {
        text::replies::write_bad(out);
    } else {
        write_number(out, r);
        text::replies::write_spaced(out, row);
        write_behind(out, bytes);
    }
}

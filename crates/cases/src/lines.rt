// Gathers lines byte by byte from pieces of a text of any size, and writes the answer to each line to standard output.

ghost use Rattle.std.specs.Prelude.{◌≡◌, ◌≤◌, length};
ghost use Rattle.base.specs.{Placed.Placed, Writing.Puts};
ghost use Rattle.cases.specs.Lines.{no_line, held_text, pushed, feeds, feeds_out, Feeding};

use base::Writer;
use std::io::{Input, Read};

// What is held of a line: its first bytes, and their number, which is 4097 for a line of more than 4096. One count says how long the
// line is and that it is too long, as it stops at 4097; an enum would say it twice.
#[derive(Drop)]
pub struct Held {
    pub bytes: [u8; 4096],
    pub len: usize,
}

impl Held {
    // No line has begun.
    pub fn new() -> Held
        ensures { result ≡ no_line }
    {
        Held {
            bytes: [0; 4096],
            len: 0,
        }
    }

    // Adds a byte to the line.
    fn push(&mut self, b: u8)
        ensures { self.new ≡ pushed self.old b }
    {
        if self.len < 4096 {
            self.bytes[self.len] = b;
            self.len += 1;
        } else {
            self.len = 4097;
        }
    }

    // Writes the answer to the line and a newline.
    #[tactic(auto, using(base::proofs::Writing::put_more), unfolding(crate::specs::Lines::held_text))]
    fn write_answer(&self, out: &mut Writer<'_, u8>)
        ensures puts { Puts out.old (held_text self.now) out.new }
        ensures short { length (held_text self.now) ≤ 3478 }
    {
        let len = self.len;
        if 4096 < len {
            text::replies::write_bad(out);
        } else {
            crate::write_answer(out, &self.bytes[..len]);
        }
        out.put(b'\n');
    }

    // Writes the answer and a newline at the buffer's start, and answers the index after them.
    fn answer(&self, out: &mut [u8]) -> usize
        ensures placed { Placed out.old 0 (held_text self.now) result out.new }
        ensures short { length (held_text self.now) ≤ 3478 }
    {
        let mut out = Writer::new(out);
        self.write_answer(&mut out);
        out.at
    }

    // Takes a byte. A newline closes the line, whose answer is written; it answers the index after it.
    #[tactic(auto, unfolding(crate::specs::Lines::fed, crate::specs::Lines::fed_out))]
    fn feed(&mut self, b: u8, out: &mut [u8]) -> Option<usize>
        ensures { Feeding self.old b out.old result self.new out.new }
    {
        if b == b'\n' {
            let n = self.answer(out);
            self.len = 0;
            return Some(n);
        }
        self.push(b);
        None
    }
}

// Answers each line that the piece closes, in order, and holds the bytes after the last newline.
#[tactic(auto, unfolding(crate::specs::Lines::feeds, crate::specs::Lines::feeds_out))]
pub fn take_piece(rt: &impl Print, piece: &[u8], held: &mut Held, out: &mut [u8])
    ensures held { held.new ≡ feeds held.old piece.now }
    ensures out { out.new ≡ feeds_out held.old out.old piece.now }
{
    for b in piece {
        if let Some(n) = held.feed(*b, out) {
            // A failed write is not reported: what is held does not depend on it.
            let _ = rt.write_all(&out[..n]);
        }
    }
}

// Answers the lines of standard input; the last line may lack its newline. A failed read counts as the end of the input.
pub fn serve(rt: &(impl Input + Print)) {
    let mut reader = rt.reader();
    let mut held = Held::new();
    let mut out = [0u8; 4096];
    let mut piece = [0u8; 65536];
    // The count bounds the loop, as every loop has to end; no input has 2 ^ 64 pieces.
    for _ in 0..u64::MAX {
        let n = reader.read(&mut piece).unwrap_or(0);
        if n == 0 {
            break;
        }
        take_piece(rt, &piece[..n], &mut held, &mut out);
    }
    if 0 < held.len {
        take_piece(rt, b"\n", &mut held, &mut out);
    }
}

// Answers a case of docs/CASES.md, with the meaning of its refusal.
ghost use Rattle.std.specs.Prelude.{◌≡◌};
ghost use Rattle.base.specs.{Writing.Puts, Answer.answer_of};
ghost use Rattle.text.specs.Decimal.{number_of};
ghost use Rattle.cases.specs.Line.{word_after};
ghost use Rattle.wording.specs.Case.{unknown_text, number_meaning, meaning_of, no_case, said_text, case_of};

use crate::commands::texts::{Usage, write_usage};
use crate::{meanings, orders};
use base::{Refusal, Writer};
use cases::words::{first_word, next_word};

// The answer to a first word that names no command and no case.
#[tactic(auto, using(base::proofs::Writing::writing), unfolding(crate::specs::Case::unknown_text))]
fn write_unknown(out: &mut Writer<'_, u8>, word: &[u8])
    ensures { Puts out.old (unknown_text word.now) out.new }
{
    out.put_all(b"no such command: ");
    out.put_all(word);
    out.put_all(b"\nsee dizbaral help\n");
}

// The meaning of a refusal and a newline, where its number was read.
#[tactic(auto, using(base::proofs::Writing::writing))]
fn write_number(out: &mut Writer<'_, u8>, number: Result<u32, Refusal>)
    ensures { Puts out.old (number_meaning (answer_of number)) out.new }
{
    if let Ok(n) = number {
        meanings::write_refusal(out, n.min(255) as u8);
        out.put(b'\n');
    }
}

// The number that follows `refused`.
fn refused_number(rest: &[u8]) -> Result<u32, Refusal>
    ensures { answer_of result ≡ number_of (word_after rest.now) }
{
    text::number(next_word(rest).0)
}

// The meaning of an answer that begins with `refused` and a number.
#[tactic(auto, using(base::proofs::Writing::writing), unfolding(crate::specs::Case::meaning_of))]
fn write_meaning(out: &mut Writer<'_, u8>, said: &[u8])
    ensures { Puts out.old (meaning_of said.now) out.new }
{
    let (word, rest) = first_word(said);
    if word == b"refused".as_slice() {
        write_number(out, refused_number(rest));
    }
}

// The answer to a line that is no case: the usage of a case, or that its first word is unknown.
#[tactic(auto, unfolding(crate::specs::Case::no_case))]
fn write_no_case(out: &mut Writer<'_, u8>, word: &[u8])
    ensures { Puts out.old (no_case word.now) out.new }
{
    if cases::is_case(word) || orders::is_order(word) {
        write_usage(out, Usage::Case);
    } else {
        write_unknown(out, word);
    }
}

// The answer to a case, and the meaning of a refusal after it. Both are read off the answer's text, so they hold of whatever a
// case answers.
#[tactic(auto, using(base::proofs::Writing::writing), unfolding(crate::specs::Case::said_text))]
fn write_said(out: &mut Writer<'_, u8>, line: &[u8], said: &[u8])
    ensures { Puts out.old (said_text line.now said.now) out.new }
{
    if said == b"bad case".as_slice() {
        return write_no_case(out, first_word(line).0);
    }
    out.put_all(said);
    out.put(b'\n');
    write_meaning(out, said);
}

// Writes the answer to a case as the program `answers` prints it, at most 4096 bytes, and the meaning of a refusal after it.
pub(crate) fn write_case(out: &mut Writer<'_, u8>, line: &[u8])
    ensures { Puts out.old (case_of line.now) out.new }
{
    let mut said = [0u8; 4096];
    let n = cases::answer(line, &mut said);
    write_said(out, line, &said[..n]);
}

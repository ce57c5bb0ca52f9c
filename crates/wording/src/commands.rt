// The text interface: a line in, a text out. Each line of the text ends in a newline.

mod case;
mod made;
mod texts;

ghost use Rattle.std.specs.Prelude.{◌≡◌};
ghost use Rattle.base.specs.{Answer.answer_in, Placed.Placed, Writing.Puts};
ghost use Rattle.wording.specs.Commands.{command_name, explain_of, steps_of, checked, compared_of, check_of, answer_of};

use crate::orders::{Planned, read_order};
use crate::{steps, verdict, write_explanation};
use base::Writer;
use cases::words::{Words, first_word, next_word};
pub use made::{Made, make};
use numbers::fields::byte_at;
use text::{Named, find_named};
pub use texts::{Usage, write_usage};

// A command; any other first word is the name of a case.
#[derive(Clone, Copy, Debug, PartialEq, Eq)]
enum Command {
    Help,
    Explain,
    Steps,
    Check,
}

impl Command {
    const ALL: [Command; 4] = [
        Command::Help,
        Command::Explain,
        Command::Steps,
        Command::Check,
    ];
}

impl Named for Command {
    ghost the_name = { command_name };

    fn name(self) -> &'static [u8] {
        match self {
            Command::Help => b"help",
            Command::Explain => b"explain",
            Command::Steps => b"steps",
            Command::Check => b"check",
        }
    }
}

// `explain` takes READING SHEET.
#[tactic(auto, unfolding(crate::specs::Commands::explain_of))]
fn write_explain(out: &mut Writer<'_, u8>, rest: &[u8])
    ensures { Puts out.old (explain_of rest.now) out.new }
{
    match Words::read(b"bx", rest) {
        Some(words) => {
            write_explanation(out, byte_at(&words.row, 0), words.sheet_at(1));
        }
        None => write_usage(out, Usage::Explain),
    }
}

// `steps` takes SHEET.
#[tactic(auto, unfolding(crate::specs::Commands::steps_of))]
fn write_steps(out: &mut Writer<'_, u8>, rest: &[u8])
    ensures { Puts out.old (steps_of rest.now) out.new }
{
    match Words::read(b"x", rest) {
        Some(words) => steps::write_steps(out, words.sheet_at(0)),
        None => write_usage(out, Usage::Steps),
    }
}

// A sheet compared with an order; the usage of `check` where the words are no order.
fn write_checked(out: &mut Writer<'_, u8>, reading: u8, sheet: &[u8], order: Option<Planned>)
    ensures { Puts out.old (checked reading sheet.now (answer_in order)) out.new }
{
    match order {
        Some(planned) => verdict::write_verdict(out, reading, sheet, planned),
        None => write_usage(out, Usage::Check),
    }
}

// The same for the words that were read, and the order in the rest of the line.
#[tactic(auto, unfolding(crate::specs::Commands::compared_of))]
fn write_compared(out: &mut Writer<'_, u8>, words: &Words, order: &[u8])
    ensures { Puts out.old (compared_of words.now.row words.now.sheet order.now) out.new }
{
    let reading = byte_at(&words.row, 0);
    write_checked(out, reading, words.sheet_at(1), read_order(order, reading));
}

// `check` takes READING SHEET ORDER.
#[tactic(auto, using(cases::proofs::Cuts::rest_short), unfolding(crate::specs::Commands::check_of))]
fn write_check(out: &mut Writer<'_, u8>, rest: &[u8])
    ensures { Puts out.old (check_of rest.now) out.new }
{
    let (_, after) = next_word(rest);
    let (_, order) = next_word(after);
    match Words::read(b"bx", &rest[..rest.len() - order.len()]) {
        Some(words) => write_compared(out, &words, order),
        None => write_usage(out, Usage::Check),
    }
}

// Writes the answer to a line; an empty first word asks for help. Refusals are part of the text.
#[tactic(auto, unfolding(crate::specs::Commands::answer_of))]
fn write_answer(out: &mut Writer<'_, u8>, line: &[u8])
    ensures { Puts out.old (answer_of line.now) out.new }
{
    let (name, rest) = first_word(line);
    if name.is_empty() {
        return texts::write_help(out);
    }
    match find_named(&Command::ALL, name) {
        Some(Command::Help) => texts::write_help(out),
        Some(Command::Explain) => write_explain(out, rest),
        Some(Command::Steps) => write_steps(out, rest),
        Some(Command::Check) => write_check(out, rest),
        None => case::write_case(out, line),
    }
}

// Puts the answer to a line at the start of the buffer and returns the index past it.
pub fn answer(line: &[u8], out: &mut [u8]) -> usize
    ensures { Placed out.old 0 (answer_of line.now) result out.new }
{
    let mut writer = Writer::new(out);
    write_answer(&mut writer, line);
    writer.at
}

// Writes the sheet of an order.
ghost use Rattle.std.specs.Prelude.{Some};
ghost use Rattle.base.specs.Answer.{answer_of};
ghost use Rattle.wording.specs.Made.{MadeCall, reading_in, order_in, MakeCall};

use crate::orders::{Planned, read_order};
use base::Refusal;

// The number of bytes written or a refusal; None where the words are not READING ORDER.
pub type Made = Option<Result<usize, Refusal>>;

// Writes the sheet of the ordered plan, or answers the order's refusal.
fn write(order: Planned, reading: u8, sheet: &mut [u8]) -> Result<usize, Refusal>
    ensures { MadeCall (Some (answer_of order)) reading sheet.old (Some result) sheet.new }
{
    sheet::init(order?, reading, sheet)
}

// Writes the sheet of the order in the rest of a line; None for a reading that is no number or over 255.
fn write_at(reading: Result<u32, Refusal>, rest: &[u8], sheet: &mut [u8]) -> Made
    ensures { MadeCall (order_in (answer_of reading) rest.now) (reading_in (answer_of reading)) sheet.old result sheet.new }
{
    let reading = u8::try_from(reading.ok()?).ok()?;
    Some(write(read_order(rest, reading)?, reading, sheet))
}

// Writes the sheet of an order at a reading to the start of the caller's bytes: the words are READING ORDER, and None where they
// are not. Refusals are the order's, then those of `init`: 18, 1 to 14, 19; a refusal changes nothing.
#[tactic(auto, unfolding(crate::specs::Made::order_made, crate::specs::Made::reading_made))]
pub fn make(line: &[u8], sheet: &mut [u8]) -> Made
    ensures { MakeCall line.now sheet.old result sheet.new }
{
    let (reading, rest) = cases::words::first_word(line);
    write_at(text::number(reading), rest, sheet)
}

// The meaning of each refusal, in words.
ghost use Rattle.std.specs.Prelude.{◌≡◌};
ghost use Rattle.base.specs.Writing.{Puts};
ghost use Rattle.wording.specs.Refusals.{refusal_text};

use crate::meanings::rows::row_or_first;
use base::Writer;

// The refusals by number; a number that is no refusal has the first.
static MEANINGS: [&str; 32] = [
    "Unknown refusal.",
    "A drive strength of the ring oscillator is over 7.",
    "The divider of the ring oscillator is over 62815, on the RP235x over 22015.",
    "The settling time is too long: its cycles do not fit in 32 bits.",
    "The startup delay of the crystal is over 16383: the delay multiplier is too large.",
    "The system PLL is not valid: a divider, the reference or the VCO is out of range.",
    "The USB PLL is not valid: a divider, the reference or the VCO is out of range.",
    "The divider of the reference clock is not 1 to 4.",
    "The reference clock is 0 Hz, or 512 MHz or more.",
    "The whole part of the system clock's divider is not 1 to 16777215; on the RP235x it is 0.",
    "The system clock is 0 Hz: its source is absent or its divider too large.",
    "The source of the peripheral clock is absent or 0 Hz.",
    "The USB clock is not valid: its source is 0 Hz, its divider not 1 to 4 or its phase over 3.",
    "The ADC clock is not valid: its source is 0 Hz, its divider not 1 to 4 or its phase over 3.",
    "The RTC clock is not valid: its source is 0 Hz, its divider or phase out of range, or it is over 65535 Hz.",
    "No valid PLL setting was found for what was asked.",
    "The PLL has no output: its reference or a post divider is 0, or its VCO or the product of its post dividers is too large.",
    "The PIO divider is out of range: the target is 0, over the system clock or too low.",
    "The regulator's reading is over 15, on the RP235x over 31, or no voltage has this code.",
    "The buffer is too short for what is to be written.",
    "This is no clock sheet: its length is no multiple of 8 or over 528, or a step is not valid.",
    "This is no runner: a number in it is out of range.",
    "A PLL did not lock in time: the sheet has to be started again.",
    "The Gpout source is unknown, or the whole part of its divider is too large.",
    "The input cannot be read: it is not what the program takes.",
    "No USB PLL gives 48 MHz from this crystal.",
    "No accepted plan gives these bytes at this reading.",
    "This sheet is not the one that the runner was started with.",
    "There is no such board: they are numbered from 0 to 7.",
    "There is no such slot: they are numbered from 0 to 3.",
    "The slot was never saved.",
    "The count is over 10000.",
];

// The meaning of the refusal with this number. It goes by a number and no `Refusal`, as it tells what any number means.
#[tactic(auto, unfolding(crate::specs::Refusals::refusal_rows, crate::specs::Refusals::refusal_text, crate::specs::Rows::row_text))]
fn meaning(number: u8) -> &'static [u8]
    ensures { result.now ≡ refusal_text number }
{
    row_or_first(&MEANINGS, number)
}

// Writes the meaning of the refusal with this number; a number past the table is an unknown refusal.
pub fn write_refusal(out: &mut Writer<'_, u8>, number: u8)
    ensures { Puts out.old (refusal_text number) out.new }
{
    out.put_all(meaning(number));
}

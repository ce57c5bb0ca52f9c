// An order is the words of a line that ask for a plan: a preset, the numbers of a plan, or another sheet.

mod names;

ghost use Rattle.std.specs.Prelude.{◌≡◌};
ghost use Rattle.base.specs.Answer.{answer_in};
ghost use Rattle.wording.specs.Orders.{is_order, preset_of, plan_in, order_with, order_on, sheet_order, order_of};

use base::Refusal;
use cases::words::{Words, next_word};
use chip::Chip;
use config::ClockConfig;
pub use names::Preset;
use numbers::fields::{byte_at, number_at, pll_at};
use numbers::manual::manual;
use text::find_named;

// The plan that is ordered, or its refusal.
pub type Planned = Result<ClockConfig, Refusal>;

// The plan of a preset for a chip, from its numbers. Refusals 5, 15 and 25; None for `plan`, and for manual on the RP235x.
#[tactic(auto, unfolding(crate::specs::Orders::preset_of))]
pub fn preset(kind: Preset, chip: Chip, n: &[u32]) -> Option<Planned>
    ensures { answer_in result ≡ preset_of kind chip n.now }
{
    let hz = number_at(n, 0);
    match kind {
        Preset::System => Some(ClockConfig::system_freq(chip, hz)),
        Preset::SystemFrom => Some(ClockConfig::system_freq_from(chip, hz, number_at(n, 1))),
        Preset::Crystal => Some(Ok(ClockConfig::crystal(chip, hz))),
        Preset::Rosc => Some(Ok(ClockConfig::rosc(chip))),
        Preset::Default => Some(Ok(ClockConfig::default(chip))),
        Preset::Manual => match chip {
            Chip::Rp2040 => manual(hz, pll_at(n, 1), byte_at(n, 5)),
            Chip::Rp235x => None,
        },
        Preset::Plan => None,
    }
}

// The chip's plan of the numbers that were read; None where they are no plan.
#[tactic(auto, unfolding(crate::specs::Orders::plan_in))]
fn plan_of(chip: Chip, words: &Words) -> Option<Planned>
    ensures { answer_in result ≡ plan_in chip words.now.row words.now.count }
{
    numbers::plan::plan(chip, words.numbers_past(0)?).map(Ok)
}

// The plan that an order asks for with the words that were read.
#[tactic(auto, unfolding(crate::specs::Orders::order_with, crate::specs::Orders::preset_of))]
fn order_with(kind: Preset, chip: Chip, words: &Words) -> Option<Planned>
    ensures { answer_in result ≡ order_with kind chip words.now.row words.now.count }
{
    match kind {
        Preset::Plan => plan_of(chip, words),
        _ => preset(kind, chip, &words.row),
    }
}

// The order for a chip in the rest of a line, whose next word is its name.
#[tactic(auto, unfolding(crate::specs::Orders::order_on))]
fn order_on(chip: Chip, rest: &[u8]) -> Option<Planned>
    ensures { answer_in result ≡ order_on chip rest.now }
{
    let (name, rest) = next_word(rest);
    let kind = find_named(&Preset::ALL, name)?;
    let words = Words::read(kind.letters(), rest)?;
    order_with(kind, chip, &words)
}

// The plan that a sheet in hex is read back to. Refusals 18 and 26.
#[tactic(auto, unfolding(crate::specs::Orders::sheet_order))]
fn sheet_order(rest: &[u8], reading: u8) -> Option<Planned>
    ensures { answer_in result ≡ sheet_order rest.now reading }
{
    let words = Words::read(b"x", rest)?;
    Some(readback::read_sheet(words.sheet_at(0), reading))
}

// The order in the rest of a line: a name and its numbers, with `rp235x` before them for that chip, or a sheet in hex. Refusals
// 5, 15 and 25, for a sheet 18 and 26; None where the words are no order.
#[tactic(auto, unfolding(crate::specs::Orders::order_of))]
pub fn read_order(rest: &[u8], reading: u8) -> Option<Planned>
    ensures { answer_in result ≡ order_of rest.now reading }
{
    let (word, after) = next_word(rest);
    if word == b"rp235x".as_slice() {
        order_on(Chip::Rp235x, after)
    } else if is_order(word) {
        order_on(Chip::Rp2040, rest)
    } else {
        sheet_order(rest, reading)
    }
}

// Whether a word is the name of an order.
pub fn is_order(word: &[u8]) -> bool
    ensures { result ≡ is_order word.now }
{
    find_named(&Preset::ALL, word).is_some()
}

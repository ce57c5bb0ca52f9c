// Sleep and wake (docs/SLEEP.md) over slots, words and steps that are given as numbers.
ghost use Rattle.std.specs.Prelude.{◌≡◌, Some};
ghost use Rattle.base.specs.{Answer.answer_of, Choice.pick};
ghost use Rattle.sleep.specs.Sleep.{outcome, sleep_of, wake_of};
ghost use Rattle.numbers.specs.SleepCall.{are_slots, asked_with, SlotsCall};

use crate::answers;
use crate::slots::{put_slots, put_steps};
use base::{Refusal, Writer};
use sleep::Slot;
use sleep::steps::Steps;

// Whether each of the four slots' flags is 0 or 1.
fn are_slots(n: &[u32; 48]) -> bool
    ensures { result ≡ are_slots n.now }
{
    (n[0] <= 1) & (n[12] <= 1) & (n[24] <= 1) & (n[36] <= 1)
}

// A wake or a sleep, as the flag says. It is a flag in the definitions too, so an enum would be turned into it by each contract; with a
// closure each caller would state `sleep_of` or `wake_of` of words and slots once more.
fn asked(
    wakes: bool,
    slots: &mut [Slot; 4],
    slot: u8,
    words: &mut [u32; 11],
) -> Result<Steps, Refusal>
    ensures { outcome (answer_of result) words.new slots.new ≡ pick wakes wake_of sleep_of slots.old slot words.old }
{
    if wakes {
        sleep::wake(slots, slot, words)
    } else {
        sleep::sleep(slots, slot, words)
    }
}

// A sleep or a wake on numbers; answers the count of numbers of its steps. Refusals: 29, which is told before a bad flag, and 30; a
// bad flag is malformed.
pub fn change(
    wakes: bool,
    slots: &mut [u32; 48],
    slot: u8,
    words: &mut [u32; 11],
    steps: &mut [u32; 28],
) -> u64
    ensures { SlotsCall (asked_with (pick wakes wake_of sleep_of) slots.old slot words.old) slots.old words.old steps.old
        result slots.new words.new steps.new }
{
    if !((3 < slot) | are_slots(slots)) {
        return answers::MALFORMED;
    }
    let mut held = crate::slots::slots(slots);
    match asked(wakes, &mut held, slot, words) {
        Ok(list) => {
            let mut out = Writer::new(slots);
            put_slots(&mut out, &held);
            let mut out = Writer::new(steps);
            put_steps(&mut out, &list);
            out.at as u64
        }
        Err(why) => answers::refused(why),
    }
}

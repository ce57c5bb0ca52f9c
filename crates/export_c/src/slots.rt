// Sleep and wake (docs/SLEEP.md) over slots, words and steps that are given as numbers (numbers/src/slots).
ghost use Rattle.sleep.specs.Sleep.{sleep_of, wake_of};
ghost use Rattle.numbers.specs.SleepCall.{asked_with, SlotsCall};

// Saves the words in a slot and writes the sleep's steps; answers their count of numbers. Refusal: 29; a bad flag is malformed.
#[unsafe(no_mangle)]
pub extern "C" fn dizbaral_sleep(
    slots: &mut [u32; 48],
    slot: u8,
    words: &mut [u32; 11],
    steps: &mut [u32; 28],
) -> u64
    ensures { SlotsCall (asked_with sleep_of slots.old slot words.old) slots.old words.old steps.old result slots.new words.new steps.new }
{
    export::slots::dizbaral_sleep(slots, slot, words, steps)
}

// Restores the words of a slot and writes the wake's steps. Refusals: 29, 30; a bad flag is malformed.
#[unsafe(no_mangle)]
pub extern "C" fn dizbaral_wake(
    slots: &mut [u32; 48],
    slot: u8,
    words: &mut [u32; 11],
    steps: &mut [u32; 28],
) -> u64
    ensures { SlotsCall (asked_with wake_of slots.old slot words.old) slots.old words.old steps.old result slots.new words.new steps.new }
{
    export::slots::dizbaral_wake(slots, slot, words, steps)
}

// Sleep and wake over eleven register words of the RP2040 (docs/SLEEP.md), the register part of the Rust's
// `dormant_sleep`. Four slots keep the words handed to a sleep; a wake restores them.
#![tactic(auto)]

mod bits;
mod register;
pub mod steps;

ghost use Rattle.std.specs.Prelude.{◌≡◌};
ghost use Rattle.base.specs.Answer.{answer_of};
ghost use Rattle.sleep.specs.{Words.asleep, Sleep.fresh_slots, Sleep.outcome, Sleep.sleep_of, Sleep.wake_of};

use base::Refusal;
use bits::{CLOCK_ENABLE, DIV, ENABLE, FREQ_RANGE, POWER_DOWN, REF_SRC, SYS_SRC};
pub use register::Register;
pub use step::Pll;
use steps::Steps;

// A slot: whether it holds a sleep, and the words handed to the last one. It is no Option: the words of a slot that holds no
// sleep are numbers of the C interface too, and are written back as they were.
#[derive(Clone, Copy)]
pub struct Slot {
    pub saved: bool,
    pub words: [u32; 11],
}

// Four slots with nothing saved.
pub fn fresh_slots() -> [Slot; 4]
    ensures { result ≡ fresh_slots }
{
    let none = Slot {
        saved: false,
        words: [0; 11],
    };
    [none; 4]
}

// The words of a sleeping chip: sleep sets these fields and keeps the other bits.
#[tactic(auto, unfolding(crate::specs::Words::asleep))]
fn asleep(words: &[u32; 11]) -> [u32; 11]
    ensures { result ≡ asleep words.now }
{
    let [
        adc,
        usb,
        peri,
        rosc,
        div,
        reference,
        sys,
        pll_sys,
        pll_usb,
        xosc,
        xip,
    ] = *words;
    [
        CLOCK_ENABLE.set(adc, 0),
        CLOCK_ENABLE.set(usb, 0),
        CLOCK_ENABLE.set(peri, 0),
        ENABLE.set(FREQ_RANGE.set(rosc, 0xfa4), 0xfab), // LOW and ENABLE
        DIV.set(div, 0xaa0), // divides by 32
        REF_SRC.set(reference, 0), // the ring
        SYS_SRC.set(sys, 0), // the reference clock
        bits::pll_off(pll_sys),
        bits::pll_off(pll_usb),
        ENABLE.set(xosc, 0xd1e), // DISABLE
        POWER_DOWN.set(xip, 1),
    ]
}

// Saves the words in a slot, makes them those of a sleeping chip, and answers the steps into sleep. Refuses with 29 a slot
// over 3, and then changes nothing. The slot is tested by hand, since of `get_mut` the library does not say what the slots end as.
#[tactic(auto, using(std::proofs::lemmas::Bool::Decides::nat_tests), unfolding(crate::specs::Sleep::sleep_of))]
pub fn sleep(slots: &mut [Slot; 4], slot: u8, words: &mut [u32; 11]) -> Result<Steps, Refusal>
    ensures { outcome (answer_of result) words.new slots.new ≡ sleep_of slots.old slot words.old }
{
    if slot > 3 {
        return Err(Refusal::NoSlot);
    }
    slots[slot as usize] = Slot {
        saved: true,
        words: *words,
    };
    *words = asleep(words);
    Ok(steps::to_sleep(words))
}

// Makes the words those of the last sleep in a slot, which keeps them, and answers the steps back to them; the words handed
// in count for nothing. Refuses with 29 a slot over 3 and with 30 a slot that holds no sleep, and then changes nothing.
#[tactic(auto, using(std::proofs::lemmas::Bool::Decides::nat_tests), unfolding(crate::specs::Sleep::wake_of))]
pub fn wake(slots: &[Slot; 4], slot: u8, words: &mut [u32; 11]) -> Result<Steps, Refusal>
    ensures { outcome (answer_of result) words.new slots.now ≡ wake_of slots.now slot words.old }
{
    let held = slots.get(slot as usize).ok_or(Refusal::NoSlot)?;
    if !held.saved {
        return Err(Refusal::EmptySlot);
    }
    *words = held.words;
    Ok(steps::to_wake(words))
}

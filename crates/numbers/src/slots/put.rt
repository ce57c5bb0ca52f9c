// Writes slots and steps as numbers.
ghost use Rattle.std.specs.Prelude.{[], ◌∷◌};
ghost use Rattle.base.specs.Writing.{Puts};
ghost use Rattle.numbers.specs.Slots.{slot_numbers, slots_numbers, step_numbers, steps_numbers};

use base::Writer;
use sleep::Slot;
use sleep::steps::{Step, Steps};

// Writes a slot: its flag, then its eleven words.
#[tactic(auto, using(base::proofs::Writing::put_more))]
fn put_slot(out: &mut Writer<'_, u32>, slot: &Slot)
    ensures { Puts out.old (slot_numbers slot.now) out.new }
{
    out.put(u32::from(slot.saved));
    out.put_all(&slot.words);
}

// Writes the four slots, 48 numbers.
#[tactic(auto, using(base::proofs::Writing::put_more))]
pub fn put_slots(out: &mut Writer<'_, u32>, slots: &[Slot; 4])
    ensures { Puts out.old (slots_numbers slots.now) out.new }
{
    for slot in slots {
        put_slot(out, slot);
    }
}

// Writes a step: a register and its value, a wait's code (11 ring, 12 crystal, 13 and 14 PLLs) and 0, or its own two numbers.
fn put_step(out: &mut Writer<'_, u32>, step: Step)
    ensures { Puts out.old (step_numbers step) out.new }
{
    let numbers = match step {
        Step::Write { register, value } => [register as u32, value],
        Step::RingStable => [11, 0],
        Step::CrystalStable => [12, 0],
        Step::Locked(pll) => [13 + pll as u32, 0],
        Step::Numbered { code, value } => [u32::from(code), value],
    };
    out.put_all(&numbers);
}

// Writes the steps, two numbers each.
pub fn put_steps(out: &mut Writer<'_, u32>, steps: &Steps)
    ensures { Puts out.old (steps_numbers steps.now.list) out.new }
{
    for &step in steps.as_slice() {
        put_step(out, step);
    }
}

// The steps of a sleep or a wake, in the order of docs/SLEEP.md.
ghost use Rattle.std.specs.Prelude.{◌≡◌, ◌+◌, ◌<◌, ◌≤◌, ◌++◌, length};
ghost use Rattle.sleep.specs.Sleep.{writes, wait_if, sleep_steps, wake_steps};

use crate::register::Register::{
    AdcCtrl, PeriCtrl, PllSysPwr, PllUsbPwr, RefCtrl, RoscCtrl, RoscDiv, SysCtrl, UsbCtrl, XipCtrl,
    XoscCtrl,
};
use crate::{Pll, Register, bits};
use base::BoundedList;

// A step: a register write, a wait, or any two numbers.
#[derive(Clone, Copy)]
pub enum Step {
    // Write the value to a register.
    Write { register: Register, value: u32 },
    // Wait until the ring is stable.
    RingStable,
    // Wait until the crystal is stable.
    CrystalStable,
    // Wait until the PLL has locked.
    Locked(Pll),
    // A step by its two numbers (docs/SLEEP.md, As numbers), whichever they are; no sleep and no wake has one.
    Numbered { code: u16, value: u32 },
}

// The steps of a sleep or a wake, at most 14.
pub type Steps = BoundedList<Step, 14>;

// Appends a step if the test holds.
fn push_if(steps: &mut Steps, test: bool, step: Step)
    requires { length steps.old.list < 14 }
    ensures { steps.new.list ≡ steps.old.list ++ wait_if test step }
{
    if test {
        steps.push(step);
    }
}

// Appends the writes of these registers' words.
#[tactic(auto, using(std::proofs::lemmas::List::map_more))]
fn write(steps: &mut Steps, words: &[u32; 11], registers: &[Register])
    requires { length steps.old.list + length registers.now ≤ 14 }
    ensures { steps.new.list ≡ steps.old.list ++ writes words.now registers.now }
{
    for &register in registers {
        let value = words[register as usize];
        steps.push(Step::Write { register, value });
    }
}

// The steps into sleep, which write the words of a sleeping chip.
#[tactic(auto, unfolding(crate::specs::Sleep::sleep_steps))]
pub(crate) fn to_sleep(words: &[u32; 11]) -> Steps
    ensures { result.list ≡ sleep_steps words.now }
{
    let mut steps = Steps::new(Step::RingStable);
    write(
        &mut steps,
        words,
        &[AdcCtrl, UsbCtrl, PeriCtrl, RoscCtrl, RoscDiv],
    );
    steps.push(Step::RingStable);
    write(
        &mut steps,
        words,
        &[RefCtrl, SysCtrl, PllSysPwr, PllUsbPwr, XoscCtrl, XipCtrl],
    );
    steps
}

// The steps of a wake, which write the saved words back.
#[tactic(auto, unfolding(crate::specs::Sleep::wake_steps_by))]
pub(crate) fn to_wake(words: &[u32; 11]) -> Steps
    ensures { result.list ≡ wake_steps words.now }
{
    let crystal = bits::crystal_runs(words[XoscCtrl as usize]);
    let usb = bits::pll_runs(words[PllUsbPwr as usize]);
    let sys = bits::pll_runs(words[PllSysPwr as usize]);
    let mut steps = Steps::new(Step::RingStable);
    write(&mut steps, words, &[XipCtrl, XoscCtrl]);
    push_if(&mut steps, crystal, Step::CrystalStable);
    write(&mut steps, words, &[PllUsbPwr]);
    push_if(&mut steps, usb, Step::Locked(Pll::Usb));
    write(&mut steps, words, &[PllSysPwr]);
    push_if(&mut steps, sys, Step::Locked(Pll::Sys));
    write(
        &mut steps,
        words,
        &[
            SysCtrl, RefCtrl, RoscCtrl, RoscDiv, PeriCtrl, UsbCtrl, AdcCtrl,
        ],
    );
    steps
}

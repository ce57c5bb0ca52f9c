// The first parts of a sheet: head, ring, voltage, crystal with its PLLs. Each function appends the steps of its part to the
// words and answers the new number of words in use; `steps` says why the two are no struct.

ghost use Rattle.std.specs.Prelude.{◌≡◌, ◌++◌};
ghost use Rattle.chip.specs.Chips.{facts_of};
ghost use Rattle.step.specs.Clocks.{pll_number};
ghost use Rattle.sheet.specs.Steps.{step1, mark_steps, head_part, ring_part, settling_steps, voltage_part, pll_steps, crystal_part};
ghost use Rattle.sheet.specs.Gather.{held, pushed, pushes};

use crate::steps::{Words, add, store};
use chip::Chip;
use config::{ChipSettings, RoscConfig};
use pll::PllConfig;
use settings::Crystal;
use step::{Clock, Kind, Pll};

#[tactic(auto, unfolding(crate::specs::Steps::head_part))]
fn put_head(words: &mut Words, at: usize, chip: Chip) -> usize
    ensures { held words.new result ≡ pushes (held words.old at) (head_part chip) }
{
    let k = chip.facts();
    let at = add(words, at, Kind::Reset, [u64::from(k.first)]);
    let at = add(words, at, Kind::ResusOff, []);
    let at = add(words, at, Kind::SysSource, [0]);
    let at = add(words, at, Kind::WaitSys, [0]);
    let at = add(words, at, Kind::RefSource, [0]);
    let at = add(words, at, Kind::WaitRef, [0]);
    let at = add(words, at, Kind::Reset, [u64::from(k.plls)]);
    let at = add(words, at, Kind::Release, [u64::from(k.plls)]);
    add(words, at, Kind::WaitReleased, [u64::from(k.plls)])
}

// Writes the chip mark and the head from the first word on. Each chip has its arm, as a constant chip gives constant words (20
// instructions less for each sheet: docs/SPEED.md, What was tried).
pub fn put_start(words: &mut Words, chip: Chip) -> usize
    ensures { held words.new result ≡ pushes (held words.old 0) (mark_steps chip ++ head_part chip) }
{
    match chip {
        Chip::Rp2040 => put_head(words, 0, Chip::Rp2040),
        Chip::Rp235x => {
            let at = add(words, 0, Kind::ChipMark, []);
            put_head(words, at, Chip::Rp235x)
        }
    }
}

// Appends the ring part; without a ring it is only the store of 0 Hz.
#[tactic(auto, unfolding(crate::specs::Steps::ring_part))]
pub fn configure_rosc(words: &mut Words, at: usize, pass: u16, ring: Option<RoscConfig>) -> usize
    ensures { held words.new result ≡ pushes (held words.old at) (ring_part pass ring) }
{
    let at = match ring {
        Some(on) => {
            let g = on.drive_strength;
            let code = u64::from(u8::from(on.range));
            let low = [g.s0, g.s1, g.s2, g.s3].map(u64::from);
            let high = [g.s4, g.s5, g.s6, g.s7].map(u64::from);
            let divider = u64::from(on.div) + u64::from(pass);
            let at = add(words, at, Kind::Strengths0To3, low);
            let at = add(words, at, Kind::Strengths4To7, high);
            let at = add(words, at, Kind::RingDivider, [divider]);
            add(words, at, Kind::RingOn, [code])
        }
        None => at,
    };
    store(words, at, Clock::Rosc, u64::from(settings::ring_hz(ring)))
}

fn put_settling(words: &mut Words, at: usize, settling: Option<u64>) -> usize
    ensures { held words.new result ≡ pushes (held words.old at) (settling_steps settling) }
{
    match settling {
        Some(cycles) => add(words, at, Kind::Delay, [cycles]),
        None => at,
    }
}

// Appends the voltage step. Each chip has its arm, as a constant kind compiles to a few shifts: by the kind in `facts()` a sheet takes 97
// instructions more, and 277 where the voltage changes; a random plan's is close to its bar (docs/SPEED.md).
fn put_code(words: &mut Words, at: usize, chip: Chip, code: u64) -> usize
    ensures { held words.new result ≡ pushed (held words.old at) (step1 (facts_of chip).voltage code) }
{
    match chip {
        Chip::Rp2040 => add(words, at, Kind::Voltage, [code]),
        Chip::Rp235x => add(words, at, Kind::Voltage235, [code]),
    }
}

// Appends the brownout step, with an arm for each chip as above.
fn put_brownout(words: &mut Words, at: usize, chip: Chip, level: u64) -> usize
    ensures { held words.new result ≡ pushed (held words.old at) (step1 (facts_of chip).brownout level) }
{
    match chip {
        Chip::Rp2040 => add(words, at, Kind::Brownout, [level]),
        Chip::Rp235x => add(words, at, Kind::Brownout235, [level]),
    }
}

// Appends the voltage part; it is empty where the voltage code equals the reading.
#[tactic(auto, unfolding(crate::specs::Steps::voltage_part))]
pub fn put_voltage(
    words: &mut Words,
    at: usize,
    reading: u8,
    chip: ChipSettings,
    settling: Option<u64>,
) -> usize
    ensures { held words.new result ≡ pushes (held words.old at) (voltage_part reading chip settling) }
{
    if chip.volts.code == reading {
        return at;
    }
    let at = put_code(words, at, chip.model, u64::from(chip.volts.code));
    let at = put_settling(words, at, settling);
    put_brownout(words, at, chip.model, u64::from(chip.volts.brownout))
}

// Appends the nine steps of a PLL that is present.
fn configure_pll(words: &mut Words, at: usize, which: Pll, pll: Option<PllConfig>) -> usize
    ensures { held words.new result ≡ pushes (held words.old at) (pll_steps (pll_number which) pll) }
{
    let which = u64::from(which);
    match pll {
        Some(p) => {
            let post1 = u64::from(p.post_div1);
            let post2 = u64::from(p.post_div2);
            let at = add(words, at, Kind::PllPower, [which, 1, 1, 1, 1]);
            let at = add(words, at, Kind::Delay, [10]);
            let at = add(words, at, Kind::PllReference, [which, u64::from(p.refdiv)]);
            let at = add(words, at, Kind::PllFeedback, [which, u64::from(p.fbdiv)]);
            let at = add(words, at, Kind::PllPower, [which, 0, 0, 1, 1]);
            let at = add(words, at, Kind::WaitLock, [which]);
            let at = add(words, at, Kind::PllPosts, [which, post1, post2]);
            let at = add(words, at, Kind::PllPostOn, [which]);
            add(words, at, Kind::Delay, [100])
        }
        None => at,
    }
}

// Appends the crystal part: the crystal, the system PLL, the USB PLL. It is empty without a crystal.
#[tactic(auto, unfolding(crate::specs::Steps::crystal_part))]
pub fn start_xosc(words: &mut Words, at: usize, crystal: Option<Crystal>) -> usize
    ensures { held words.new result ≡ pushes (held words.old at) (crystal_part crystal) }
{
    match crystal {
        Some(on) => {
            let at = add(words, at, Kind::Startup, [on.delay]);
            let at = add(words, at, Kind::CrystalOn, []);
            let at = add(words, at, Kind::WaitStable, []);
            let at = configure_pll(words, at, Pll::Sys, on.sys);
            configure_pll(words, at, Pll::Usb, on.usb)
        }
        None => at,
    }
}

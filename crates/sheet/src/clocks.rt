// The parts of a sheet from the stores of the sources on: one part for each clock, then the last release. Each function appends
// the steps of its part to the words and answers the new number of words in use; `steps` says why the two are no struct.

ghost use Rattle.std.specs.Prelude.{◌≡◌};
ghost use Rattle.chip.specs.Chips.{facts_of};
ghost use Rattle.step.specs.Clocks.{clock_number};
ghost use Rattle.sheet.specs.Steps.{step2, source_part, tick_steps, ref_part, switch_steps, sys_part, peri_part, aux_part, rtc_part};
ghost use Rattle.sheet.specs.Steps.{bits_without, release_mask, clocks_part};
ghost use Rattle.sheet.specs.Gather.{held, pushed, pushes};

use crate::steps::{Words, add, store};
use chip::Chip;
use config::{AuxClkConfig, ChipSettings, PeriClkSrc, RefClkConfig, RtcClkConfig, SysClkSrc};
use settings::{Frequencies, Settings, Sources};
use step::{Clock, Kind};

fn put_sources(words: &mut Words, at: usize, f: Sources) -> usize
    ensures { held words.new result ≡ pushes (held words.old at) (source_part f) }
{
    let at = store(words, at, Clock::Xosc, u64::from(f.xosc));
    let at = store(words, at, Clock::PllSys, u64::from(f.pll_sys));
    store(words, at, Clock::PllUsb, u64::from(f.pll_usb))
}

fn put_tick(words: &mut Words, at: usize, chip: Chip, mhz: u64) -> usize
    ensures { held words.new result ≡ pushes (held words.old at) (tick_steps chip mhz) }
{
    match chip {
        Chip::Rp2040 => add(words, at, Kind::Tick, [mhz]),
        Chip::Rp235x => {
            let at = add(words, at, Kind::TimerCycles, [mhz]);
            let at = add(words, at, Kind::TimerOn, []);
            let at = add(words, at, Kind::WatchdogCycles, [mhz]);
            add(words, at, Kind::WatchdogOn, [])
        }
    }
}

#[tactic(auto, unfolding(crate::specs::Steps::ref_part))]
fn put_ref(words: &mut Words, at: usize, chip: Chip, hz: u32, clock: RefClkConfig) -> usize
    ensures { held words.new result ≡ pushes (held words.old at) (ref_part chip hz clock) }
{
    let code = u64::from(u8::from(clock.src));
    let at = store(words, at, Clock::Ref, u64::from(hz));
    let at = add(words, at, Kind::RefControl, [code]);
    let at = add(words, at, Kind::WaitRef, [code]);
    let at = add(words, at, Kind::RefDivider, [u64::from(clock.div % 4)]);
    put_tick(words, at, chip, u64::from(hz / 1000000))
}

// Selects the reference clock before the aux source changes; nothing is appended where the reference clock is the source.
#[tactic(auto, unfolding(crate::specs::Steps::switch_steps))]
fn put_switch(words: &mut Words, at: usize, select: u64) -> usize
    ensures { held words.new result ≡ pushes (held words.old at) (switch_steps select) }
{
    if select == 0 {
        return at;
    }
    let at = add(words, at, Kind::SysControl, [0, 0]);
    add(words, at, Kind::WaitSys, [0])
}

// Appends the system divider, with an arm for each chip as `put_code` of `sources` has.
fn put_divider(words: &mut Words, at: usize, chip: Chip, whole: u64, fraction: u64) -> usize
    ensures { held words.new result ≡ pushed (held words.old at) (step2 (facts_of chip).divider whole fraction) }
{
    match chip {
        Chip::Rp2040 => add(words, at, Kind::SysDivider, [whole, fraction]),
        Chip::Rp235x => add(words, at, Kind::SysDivider235, [whole, fraction]),
    }
}

fn put_sys(words: &mut Words, at: usize, chip: ChipSettings, hz: u64, src: SysClkSrc) -> usize
    ensures { held words.new result ≡ pushes (held words.old at) (sys_part chip hz src) }
{
    let aux = u64::from(src.aux());
    let select = u64::from(src.select());
    let at = store(words, at, Clock::Sys, hz);
    let at = put_switch(words, at, select);
    let at = add(words, at, Kind::SysControl, [aux, select]);
    let at = add(words, at, Kind::WaitSys, [select]);
    put_divider(
        words,
        at,
        chip.model,
        u64::from(chip.whole),
        u64::from(chip.fraction),
    )
}

#[tactic(auto, unfolding(crate::specs::Steps::peri_part))]
fn put_peri(words: &mut Words, at: usize, hz: u64, peri: Option<PeriClkSrc>) -> usize
    ensures { held words.new result ≡ pushes (held words.old at) (peri_part hz peri) }
{
    let at = match peri {
        Some(src) => {
            let aux = u64::from(u8::from(src));
            add(words, at, Kind::PeriControl, [aux])
        }
        None => at,
    };
    store(words, at, Clock::Peri, hz)
}

// Appends the part of the USB or the ADC clock with its kinds of steps. The divider field has two bits and holds 4 as 0.
// The kinds and the clock are no struct, which would be made for the two calls alone.
#[tactic(auto, unfolding(crate::specs::Steps::aux_part))]
fn put_aux(
    words: &mut Words,
    at: usize,
    divider: Kind,
    control: Kind,
    clock: Clock,
    hz: u64,
    aux: Option<AuxClkConfig>,
) -> usize
    ensures { held words.new result ≡ pushes (held words.old at) (aux_part divider control (clock_number clock) hz aux) }
{
    let at = match aux {
        Some(on) => {
            let code = u64::from(u8::from(on.src));
            let at = add(words, at, divider, [u64::from(on.div % 4)]);
            add(words, at, control, [u64::from(on.phase), code])
        }
        None => at,
    };
    store(words, at, clock, hz)
}

// Appends the RTC part of the RP2040; the RP235x has none.
#[tactic(auto, unfolding(crate::specs::Steps::rtc_part))]
fn put_rtc(words: &mut Words, at: usize, chip: Chip, hz: u64, rtc: Option<RtcClkConfig>) -> usize
    ensures { held words.new result ≡ pushes (held words.old at) (rtc_part chip hz rtc) }
{
    if chip == Chip::Rp235x {
        return at;
    }
    let at = match rtc {
        Some(on) => {
            let aux = u64::from(u8::from(on.src));
            let whole = u64::from(on.div_int);
            let at = add(words, at, Kind::RtcDivider, [whole, u64::from(on.div_frac)]);
            add(words, at, Kind::RtcControl, [u64::from(on.phase), aux])
        }
        None => at,
    };
    store(words, at, Clock::Rtc, hz)
}

// The reset bits that the last release leaves out where a clock is absent (docs/FORMAT.md, Masks).
fn bits_without<T: Copy>(bits: u32, clock: Option<T>) -> u32
    ensures { result ≡ bits_without bits clock }
{
    if clock.is_some() { 0 } else { bits }
}

#[tactic(auto, unfolding(crate::specs::Steps::release_mask))]
fn release_mask(
    chip: Chip,
    peri: Option<PeriClkSrc>,
    usb: Option<AuxClkConfig>,
    adc: Option<AuxClkConfig>,
    rtc: Option<RtcClkConfig>,
) -> u64
    ensures { result ≡ release_mask chip peri usb adc rtc }
{
    let k = chip.facts();
    let kept = u64::from(bits_without(k.peri, peri))
        + u64::from(bits_without(k.usb, usb))
        + u64::from(bits_without(k.adc, adc))
        + u64::from(bits_without(k.rtc, rtc));
    u64::from(k.last).saturating_sub(kept)
}

// Appends all parts from the stores of the sources on, with the last release.
#[tactic(auto, using(crate::proofs::Gathering::pushes_append), unfolding(crate::specs::Steps::clocks_part))]
pub fn put_clocks(words: &mut Words, at: usize, s: Settings, f: Frequencies) -> usize
    ensures { held words.new result ≡ pushes (held words.old at) (clocks_part s f) }
{
    let chip = s.chip.model;
    let rtc = s.chip.rtc;
    let mask = release_mask(chip, s.peri, s.usb, s.adc, rtc);
    let at = put_sources(words, at, f.sources);
    let at = put_ref(words, at, chip, f.reference, s.reference);
    let at = put_sys(words, at, s.chip, f.sys, s.sys);
    let at = put_peri(words, at, f.peri, s.peri);
    let (usb, adc) = (u64::from(f.usb), u64::from(f.adc));
    let at = put_aux(
        words,
        at,
        Kind::UsbDivider,
        Kind::UsbControl,
        Clock::Usb,
        usb,
        s.usb,
    );
    let at = put_aux(
        words,
        at,
        Kind::AdcDivider,
        Kind::AdcControl,
        Clock::Adc,
        adc,
        s.adc,
    );
    let at = put_rtc(words, at, chip, f.rtc, rtc);
    let at = add(words, at, Kind::Release, [mask]);
    add(words, at, Kind::WaitReleased, [mask])
}

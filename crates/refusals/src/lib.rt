// The refusals of settings at a reading, in the order in which they are tested: 18, then 1 to 14 (docs/FORMAT.md, Refusals).
#![tactic(auto)]

mod rules;

ghost use Rattle.std.specs.Prelude.{◌≡◌, ℕ, Option, Some};
ghost use Rattle.config.specs.{declared.RoscConfig.RoscConfig, ChipSettings.FractionFits};
ghost use Rattle.settings.specs.{Frequencies.pll_hz, Frequencies.sources_of, Frequencies.frequencies_of, Typed.Typed};
ghost use Rattle.refusals.specs.Rules.{pll_invalid, sys_pll_invalid, usb_pll_invalid};
ghost use Rattle.refusals.specs.Refusals.{refusal_of, examined_of};
ghost use Rattle.base.specs.Choice.{pick};

use base::Refusal;
use pll::PllConfig;
use settings::{Crystal, Frequencies, Settings, Sources};

// A valid PLL gives 15 MHz or more, so a PLL that is present is invalid exactly where its frequency is 0.
fn pll_invalid(pll: Option<PllConfig>, known_hz: u32) -> bool
    ensures { (hz : ℕ) → known_hz ≡ pll_hz hz pll → result ≡ pll_invalid hz pll }
{
    pll.is_some() && known_hz == 0
}

// Whether a crystal's system PLL is invalid, and whether its USB PLL is.
fn plls_invalid(crystal: Option<Crystal>, f: Sources) -> (bool, bool)
    ensures { (ring : Option RoscConfig) → f ≡ sources_of ring crystal
        → (result.0 ≡ sys_pll_invalid crystal) × (result.1 ≡ usb_pll_invalid crystal) }
{
    crystal.map_or((false, false), |on| {
        (
            pll_invalid(on.sys, f.pll_sys),
            pll_invalid(on.usb, f.pll_usb),
        )
    })
}

// This refusal if its test holds, else that of the tests after it.
fn refused_if(test: bool, why: Refusal, rest: Option<Refusal>) -> Option<Refusal>
    ensures { result ≡ pick test (Some why) rest }
{
    test.then_some(why).or(rest)
}

// The first refusal that holds, tested in the order 18, then 1 to 14.
#[tactic(auto, unfolding(crate::specs::Refusals::refusal_of))]
fn refusal_of(s: Settings, f: Frequencies, reading: u8) -> Option<Refusal>
    ensures { f ≡ frequencies_of s → result ≡ refusal_of s reading }
{
    let on = s.chip.model.facts();
    let over = on.top_reading < reading;
    let strengths = rules::strengths_over(s.rosc);
    let ring_divider = rules::ring_divider_over(on.pass, s.rosc);
    let settling = rules::settling_over(s.settling);
    let startup = rules::startup_over(s.xosc);
    let (sys_pll, usb_pll) = plls_invalid(s.xosc, f.sources);
    let divider = rules::divider_bad(s.reference.div);
    let reference = rules::reference_bad(f.reference);
    let whole = rules::whole_bad(on.top_whole, s.chip.whole);
    let peri = rules::peri_bad(f.peri, s.peri);
    let usb = rules::aux_bad(f.usb_source, s.usb);
    let adc = rules::aux_bad(f.adc_source, s.adc);
    let rtc = rules::rtc_bad(f.rtc_source, f.rtc, s.chip.rtc);
    // The tests go from the last to the first, so that an earlier one overrides. A return at each refusal
    // takes more instructions for each sheet (docs/SPEED.md, What was tried).
    let n = refused_if(rtc, Refusal::RtcClock, None);
    let n = refused_if(adc, Refusal::AdcClock, n);
    let n = refused_if(usb, Refusal::UsbClock, n);
    let n = refused_if(peri, Refusal::PeriClock, n);
    let n = refused_if(f.sys == 0, Refusal::SysClock, n);
    let n = refused_if(whole, Refusal::SysDivider, n);
    let n = refused_if(reference, Refusal::RefClock, n);
    let n = refused_if(divider, Refusal::RefDivider, n);
    let n = refused_if(usb_pll, Refusal::UsbPll, n);
    let n = refused_if(sys_pll, Refusal::SysPll, n);
    let n = refused_if(startup, Refusal::StartupDelay, n);
    let n = refused_if(settling, Refusal::SettlingTime, n);
    let n = refused_if(ring_divider, Refusal::RingDivider, n);
    let n = refused_if(strengths, Refusal::DriveStrength, n);
    refused_if(over, Refusal::VoltageReading, n)
}

// Tests settings at a reading: the refusal, 18, then 1 to 14, none where they are accepted, and the frequencies, also of settings
// that are refused. It never fails. The contract carries the types' bounds.
pub fn refusal_and_frequencies(s: Settings, reading: u8) -> (Option<Refusal>, Frequencies)
    ensures { (result ≡ (refusal_of s reading, frequencies_of s)) × (FractionFits s.chip → Typed s) }
{
    let frequencies = settings::frequencies_of(s);
    (refusal_of(s, frequencies, reading), frequencies)
}

// Tests settings at a reading and answers their frequencies; 18, then 1 to 14. The contract carries the types' bounds.
pub fn examine(s: Settings, reading: u8) -> Result<Frequencies, Refusal>
    ensures { (result ≡ examined_of s reading) × (FractionFits s.chip → Typed s) }
{
    let frequencies = settings::frequencies_of(s);
    match refusal_of(s, frequencies, reading) {
        Some(why) => Err(why),
        None => Ok(frequencies),
    }
}

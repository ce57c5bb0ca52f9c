// The parts of a plan, each from its index in the row n. An optional part is present where its flag is 1.
ghost use Rattle.std.specs.Prelude.{◌≡◌};
ghost use Rattle.config.specs.Codes.{ref_from, peri_from};
ghost use Rattle.numbers.specs.Fields.{nth, byte_at};
ghost use Rattle.numbers.specs.Plan.{flagged, strengths_at, ring_at, option_pll_at, crystal_at, divided_at, rtc_at, chip_at};

use crate::fields::{byte_at, half_at, number_at, pll_at};
use chip::Chip;
use chip::voltage::{CoreVoltage, CoreVoltage235};
use config::{
    AuxClkConfig, AuxClkSrc, ChipConfig, DriveStrength, PeriClkSrc, RefClkConfig, RefClkSrc,
    RoscConfig, RoscRange, Rp235xConfig, Rp2040Config, RtcClkConfig, XoscConfig,
};
use pll::PllConfig;

// The ring oscillator.
#[tactic(auto, using(std::proofs::lemmas::Bool::Decides::nat_tests), unfolding(crate::specs::Plan::ring_at))]
pub(crate) fn ring(n: &[u32]) -> Option<RoscConfig>
    ensures { result ≡ ring_at n.now }
{
    (number_at(n, 0) == 1).then(|| RoscConfig {
        hz: number_at(n, 1),
        range: RoscRange::from(u64::from(number_at(n, 2))),
        drive_strength: strengths(n),
        div: half_at(n, 11),
    })
}

// The eight drive strengths of the ring oscillator.
#[tactic(auto, using(std::proofs::lemmas::Bool::Decides::nat_tests), unfolding(crate::specs::Plan::strengths_at))]
fn strengths(n: &[u32]) -> DriveStrength
    ensures { result ≡ strengths_at n.now }
{
    DriveStrength {
        s0: byte_at(n, 3),
        s1: byte_at(n, 4),
        s2: byte_at(n, 5),
        s3: byte_at(n, 6),
        s4: byte_at(n, 7),
        s5: byte_at(n, 8),
        s6: byte_at(n, 9),
        s7: byte_at(n, 10),
    }
}

// The PLL from index i on.
#[tactic(auto, using(std::proofs::lemmas::Bool::Decides::nat_tests), unfolding(crate::specs::Plan::option_pll_at))]
fn pll(n: &[u32], i: u8) -> Option<PllConfig>
    ensures { result ≡ option_pll_at n.now i }
{
    (number_at(n, usize::from(i)) == 1).then(|| pll_at(n, u16::from(i) + 1))
}

// The crystal oscillator with its PLLs.
#[tactic(auto, using(std::proofs::lemmas::Bool::Decides::nat_tests), unfolding(crate::specs::Plan::crystal_at))]
pub(crate) fn crystal(n: &[u32]) -> Option<XoscConfig>
    ensures { result ≡ crystal_at n.now }
{
    (number_at(n, 12) == 1).then(|| XoscConfig {
        hz: number_at(n, 13),
        sys_pll: pll(n, 15),
        usb_pll: pll(n, 20),
        delay_multiplier: number_at(n, 14),
    })
}

// The settling time in µs.
#[tactic(auto, using(std::proofs::lemmas::Bool::Decides::nat_tests))]
pub(crate) fn settling(n: &[u32]) -> Option<u32>
    ensures { result ≡ flagged n.now 26 (nth n.now 27) }
{
    (number_at(n, 26) == 1).then(|| number_at(n, 27))
}

// The reference clock.
pub(crate) fn reference(n: &[u32]) -> RefClkConfig
    ensures { (result.src ≡ ref_from (nth n.now 28)) × (result.div ≡ byte_at n.now 29) }
{
    RefClkConfig {
        src: RefClkSrc::from(u64::from(number_at(n, 28))),
        div: byte_at(n, 29),
    }
}

// The source of the peripheral clock.
#[tactic(auto, using(std::proofs::lemmas::Bool::Decides::nat_tests))]
pub(crate) fn peripheral(n: &[u32]) -> Option<PeriClkSrc>
    ensures { result ≡ flagged n.now 33 (peri_from (nth n.now 34)) }
{
    (number_at(n, 33) == 1).then(|| PeriClkSrc::from(u64::from(number_at(n, 34))))
}

// The USB or the ADC clock, from index i on.
#[tactic(auto, using(std::proofs::lemmas::Bool::Decides::nat_tests), unfolding(crate::specs::Plan::divided_at))]
pub(crate) fn divided(n: &[u32], i: u8) -> Option<AuxClkConfig>
    ensures { result ≡ divided_at n.now i }
{
    let at = usize::from(i);
    (number_at(n, at) == 1).then(|| AuxClkConfig {
        src: AuxClkSrc::from(u64::from(number_at(n, at + 1))),
        div: byte_at(n, at + 2),
        phase: byte_at(n, at + 3),
    })
}

// The RTC clock, which only the RP2040 has.
#[tactic(auto, using(std::proofs::lemmas::Bool::Decides::nat_tests), unfolding(crate::specs::Plan::rtc_at))]
fn rtc(n: &[u32]) -> Option<RtcClkConfig>
    ensures { result ≡ rtc_at n.now }
{
    (number_at(n, 43) == 1).then(|| RtcClkConfig {
        src: AuxClkSrc::from(u64::from(number_at(n, 44))),
        div_int: number_at(n, 45),
        div_frac: byte_at(n, 46),
        phase: byte_at(n, 47),
    })
}

// The chip-specific part: voltage, system divider and, on the RP2040, the RTC; None where the code is no voltage's.
#[tactic(auto, unfolding(crate::specs::Plan::chip_at))]
pub(crate) fn chip(on: Chip, n: &[u32]) -> Option<ChipConfig>
    ensures { result ≡ chip_at on n.now }
{
    let code = byte_at(n, 25);
    match on {
        Chip::Rp2040 => Some(ChipConfig::Rp2040(Rp2040Config {
            core_voltage: CoreVoltage::try_from(code).ok()?,
            div_int: number_at(n, 31),
            div_frac: byte_at(n, 32),
            rtc_clk: rtc(n),
        })),
        Chip::Rp235x => Some(ChipConfig::Rp235x(Rp235xConfig {
            core_voltage: CoreVoltage235::try_from(code).ok()?,
            div_int: half_at(n, 31),
            div_frac: half_at(n, 32),
        })),
    }
}

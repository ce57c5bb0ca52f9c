// The rules of the refusals: one test for each number. Absent parts pass.
ghost use Rattle.std.specs.Prelude.{◌≡◌};
ghost use Rattle.refusals.specs.Rules.{strength_over, strengths_over, ring_divider_over, settling_over, startup_over, divider_bad};
ghost use Rattle.refusals.specs.Rules.{reference_bad, whole_bad, peri_bad, aux_bad, rtc_bad};

use config::{AuxClkConfig, DriveStrength, PeriClkSrc, RoscConfig, RtcClkConfig};
use settings::Crystal;

fn strength_over(g: DriveStrength) -> bool
    ensures { result ≡ strength_over g }
{
    (7 < g.s0)
        | (7 < g.s1)
        | (7 < g.s2)
        | (7 < g.s3)
        | (7 < g.s4)
        | (7 < g.s5)
        | (7 < g.s6)
        | (7 < g.s7)
}

// Refusal 1: a drive strength of the ring is over 7.
#[tactic(auto, unfolding(crate::specs::Rules::strengths_over))]
pub fn strengths_over(ring: Option<RoscConfig>) -> bool
    ensures { result ≡ strengths_over ring }
{
    ring.is_some_and(|on| strength_over(on.drive_strength))
}

// Refusal 2: the ring divider plus the chip's pass value does not fit the 16 bits of ROSC_DIV.
pub fn ring_divider_over(pass: u16, ring: Option<RoscConfig>) -> bool
    ensures { result ≡ ring_divider_over pass ring }
{
    ring.is_some_and(|on| 65535 < u32::from(on.div) + u32::from(pass))
}

// Refusal 3: the settling cycles do not fit in 32 bits.
#[tactic(auto, unfolding(crate::specs::Rules::settling_over))]
pub fn settling_over(settling: Option<u64>) -> bool
    ensures { result ≡ settling_over settling }
{
    settling.is_some_and(|cycles| 4294967295 < cycles)
}

// Refusal 4: the startup delay does not fit in 14 bits.
pub fn startup_over(crystal: Option<Crystal>) -> bool
    ensures { result ≡ startup_over crystal }
{
    crystal.is_some_and(|on| 16383 < on.delay)
}

// Refusal 7, and part of 12 and 13: a divider is not 1 to 4.
#[tactic(auto, unfolding(crate::specs::Rules::divider_bad))]
pub fn divider_bad(div: u8) -> bool
    ensures { result ≡ divider_bad div }
{
    !(1..=4).contains(&div)
}

// Refusal 8: the reference clock has 0 Hz, or 512 MHz or more, for which the 9 bits of the tick are too few.
#[tactic(auto, unfolding(crate::specs::Rules::reference_bad))]
pub fn reference_bad(hz: u32) -> bool
    ensures { result ≡ reference_bad hz }
{
    (hz == 0) | (512000000 <= hz)
}

// Refusal 9, and part of 14: the whole part of a divider is not 1 to `top`.
#[tactic(auto, unfolding(crate::specs::Rules::whole_bad))]
pub fn whole_bad(top: u32, whole: u32) -> bool
    ensures { result ≡ whole_bad top whole }
{
    !(1..=top).contains(&whole)
}

// Refusal 11: the peripheral clock is present and has 0 Hz.
#[tactic(auto, unfolding(crate::specs::Rules::peri_bad))]
pub fn peri_bad(hz: u64, peri: Option<PeriClkSrc>) -> bool
    ensures { result ≡ peri_bad hz peri }
{
    peri.is_some() && hz == 0
}

// Refusals 12 and 13: the source has 0 Hz, the divider is not 1 to 4, or the phase is over 3.
pub fn aux_bad(source: u32, aux: Option<AuxClkConfig>) -> bool
    ensures { result ≡ aux_bad source aux }
{
    aux.is_some_and(|on| (source == 0) | divider_bad(on.div) | (3 < on.phase))
}

// Refusal 14: the source has 0 Hz, the whole part is not 1 to 16777215, the phase is over 3, or the RTC has over 65535 Hz.
pub fn rtc_bad(source: u32, hz: u64, rtc: Option<RtcClkConfig>) -> bool
    ensures { result ≡ rtc_bad source hz rtc }
{
    rtc.is_some_and(|on| {
        (source == 0) | whole_bad(base::U24_MAX, on.div_int) | (3 < on.phase) | (65535 < hz)
    })
}

// The numbers of each part of a plan, with a flag before an optional part; those of an absent part are 0.
ghost use Rattle.std.specs.Prelude.{◌≡◌};
ghost use Rattle.numbers.specs.Row.{part_row, ring_on, crystal_on, sys_pll_in, usb_pll_in, pll_on, first_row, sys_row};
ghost use Rattle.numbers.specs.Row.{peri_on, aux_on, rtc_on};

use config::{
    AuxClkConfig, PeriClkSrc, RefClkConfig, RoscConfig, RtcClkConfig, SysClkSrc, XoscConfig,
};
use pll::PllConfig;

// Flag, Hz, range code, eight strengths, divider.
pub(crate) fn ring(ring: Option<RoscConfig>) -> [u32; 12]
    ensures { result ≡ part_row 11 ring_on ring }
{
    match ring {
        Some(on) => {
            let d = on.drive_strength;
            [
                1,
                on.hz,
                u32::from(u8::from(on.range)),
                u32::from(d.s0),
                u32::from(d.s1),
                u32::from(d.s2),
                u32::from(d.s3),
                u32::from(d.s4),
                u32::from(d.s5),
                u32::from(d.s6),
                u32::from(d.s7),
                u32::from(on.div),
            ]
        },
        None => [0; 12],
    }
}

// Flag, Hz, delay multiplier.
pub(crate) fn crystal(crystal: Option<XoscConfig>) -> [u32; 3]
    ensures { result ≡ part_row 2 crystal_on crystal }
{
    match crystal {
        Some(on) => [1, on.hz, on.delay_multiplier],
        None => [0; 3],
    }
}

// The system PLL of a crystal; without a crystal there is none.
pub fn sys_pll(crystal: Option<XoscConfig>) -> Option<PllConfig>
    ensures { result ≡ sys_pll_in crystal }
{
    crystal?.sys_pll
}

// The USB PLL of a crystal; without a crystal there is none.
pub fn usb_pll(crystal: Option<XoscConfig>) -> Option<PllConfig>
    ensures { result ≡ usb_pll_in crystal }
{
    crystal?.usb_pll
}

// Flag, reference, feedback and post dividers.
pub(crate) fn pll(pll: Option<PllConfig>) -> [u32; 5]
    ensures { result ≡ part_row 4 pll_on pll }
{
    match pll {
        Some(on) => {
            [
                1,
                u32::from(on.refdiv),
                u32::from(on.fbdiv),
                u32::from(on.post_div1),
                u32::from(on.post_div2),
            ]
        },
        None => [0; 5],
    }
}

// Voltage code; flag and µs of the settling time; source and divider of the reference clock. The code is a number, as `Volts` has it for
// both chips.
pub(crate) fn first(code: u8, given: Option<u32>, reference: RefClkConfig) -> [u32; 5]
    ensures { result ≡ first_row code given reference }
{
    let (flag, time) = given.map_or((0, 0), |time| (1, time));
    [
        u32::from(code),
        flag,
        time,
        u32::from(u8::from(reference.src)),
        u32::from(reference.div),
    ]
}

// Source, whole part and fraction of the system clock.
pub(crate) fn sys(src: SysClkSrc, whole: u32, fraction: u16) -> [u32; 3]
    ensures { result ≡ sys_row src whole fraction }
{
    [u32::from(u8::from(src)), whole, u32::from(fraction)]
}

// Flag and source of the peripheral clock.
pub(crate) fn peri(peri: Option<PeriClkSrc>) -> [u32; 2]
    ensures { result ≡ part_row 1 peri_on peri }
{
    match peri {
        Some(src) => [1, u32::from(u8::from(src))],
        None => [0; 2],
    }
}

// Flag, source, divider and phase of the USB or ADC clock.
pub(crate) fn aux(aux: Option<AuxClkConfig>) -> [u32; 4]
    ensures { result ≡ part_row 3 aux_on aux }
{
    match aux {
        Some(on) => {
            [
                1,
                u32::from(u8::from(on.src)),
                u32::from(on.div),
                u32::from(on.phase),
            ]
        },
        None => [0; 4],
    }
}

// Flag, source, whole part, fraction and phase of the RTC clock.
pub(crate) fn rtc(rtc: Option<RtcClkConfig>) -> [u32; 5]
    ensures { result ≡ part_row 4 rtc_on rtc }
{
    match rtc {
        Some(on) => {
            [
                1,
                u32::from(u8::from(on.src)),
                on.div_int,
                u32::from(on.div_frac),
                u32::from(on.phase),
            ]
        },
        None => [0; 5],
    }
}

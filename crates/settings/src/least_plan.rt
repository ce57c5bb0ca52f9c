// The plan with these settings whose delay multiplier and settling time are the smallest (docs/FORMAT.md, Reading a sheet back).
ghost use Rattle.std.specs.Prelude.{◌≡◌, ◌/◌, ◌%◌, ◌^◌};
ghost use Rattle.divider.specs.Delay.{cycles_per_us};
ghost use Rattle.settings.specs.{Settings.ring_hz, LeastPlan.multiplier_for, LeastPlan.xosc_for, LeastPlan.time_for, LeastPlan.plan_of};

use crate::{Crystal, Settings};
use config::{ClockConfig, RoscConfig, XoscConfig};

// The smallest multiplier: (256 × delay − 128) over the crystal's kHz, rounded up. A startup delay has 14 bits.
#[tactic(auto, unfolding(crate::specs::LeastPlan::multiplier_for))]
fn multiplier_for(hz: u32, delay: u64) -> u32
    ensures { result ≡ multiplier_for hz (delay % 2 ^ 14) }
{
    let khz = u64::from(hz / 1000);
    let least = (256 * (delay % 16384)).saturating_sub(128);
    if khz == 0 {
        0
    } else {
        least.div_ceil(khz) as u32
    }
}

// The microseconds of these settling cycles, which have 32 bits, beside a ring of this frequency.
#[tactic(auto, unfolding(divider::specs::Delay::settling_cycles))]
fn time_of(cycles: u64, ring_hz: u32) -> u32
    ensures { result ≡ cycles % 2 ^ 32 / cycles_per_us ring_hz }
{
    let per_us = divider::settling_cycles(1, ring_hz);
    (cycles % 4294967296).checked_div(per_us).unwrap_or(0) as u32
}

// The settling time in microseconds, 0 for no settling step.
#[tactic(auto, unfolding(crate::specs::LeastPlan::time_for))]
fn time_for(ring: Option<RoscConfig>, settling: Option<u64>) -> u32
    ensures { result ≡ time_for (ring_hz ring) settling }
{
    settling.map_or(0, |cycles| time_of(cycles, crate::ring_hz(ring)))
}

fn xosc_for(crystal: Option<Crystal>) -> Option<XoscConfig>
    ensures { result ≡ xosc_for crystal }
{
    crystal.map(|on| XoscConfig {
        hz: on.hz,
        sys_pll: on.sys,
        usb_pll: on.usb,
        delay_multiplier: multiplier_for(on.hz, on.delay),
    })
}

// The plan with these settings, the smallest delay multiplier and the smallest settling time, which is always given.
#[tactic(auto, unfolding(crate::specs::LeastPlan::plan_of))]
pub fn plan_of(s: Settings) -> ClockConfig
    ensures { result ≡ plan_of s }
{
    ClockConfig {
        chip: s.chip.config(),
        rosc: s.rosc,
        xosc: xosc_for(s.xosc),
        ref_clk: s.reference,
        sys_clk_src: s.sys,
        peri_clk_src: s.peri,
        usb_clk: s.usb,
        adc_clk: s.adc,
        voltage_stabilization_delay_us: Some(time_for(s.rosc, s.settling)),
    }
}

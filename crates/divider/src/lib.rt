// The formulas of docs/FORMAT.md, Frequencies and delays: divided clocks, delays, the Gpout frequency and the PIO divider.
#![tactic(auto)]

ghost use Rattle.std.specs.Prelude.{◌≡◌, ◌≤◌};
ghost use Rattle.base.specs.Answer.{answer_of};
ghost use Rattle.divider.specs.Gpout.{gpout_clock, gpout_whole, gpout_of, gpout_in};
ghost use Rattle.divider.specs.{Clock.divided_hz, Delay.startup_sum, Delay.cycles_per_us, Delay.settling_cycles, Pio.pio_of};

use base::Refusal;
use chip::Chip;
use step::Clock;

// Cycles per microsecond where the ring has no frequency: from reset it runs at 12 MHz at most.
const NO_RING: u64 = 12;

// The divider of a Gpout: the fraction has 8 bits on the RP2040, 16 on the RP235x.
#[derive(Clone, Copy)]
pub enum GpoutDiv {
    Rp2040 { whole: u32, fraction: u8 },
    Rp235x { whole: u32, fraction: u16 },
}

// The source over whole + fraction / scale, in Hz, rounded down; a divider of 0 gives 0. The three are no struct: each chip's plan and
// the Gpout hold them in types of their own, so each call would have to fill it first.
#[tactic(auto, using(crate::proofs::Bounds::bounds), unfolding(crate::specs::Clock::divided_hz))]
pub fn divided_hz(scale: u32, source: u32, whole: u32, fraction: u16) -> u64
    ensures { result ≡ divided_hz scale source whole fraction }
{
    let scale = u64::from(scale);
    let divisor = u64::from(whole) * scale + u64::from(fraction);
    (u64::from(source) * scale)
        .checked_div(divisor)
        .unwrap_or(0)
}

// The crystal's startup delay before its division by 256.
#[tactic(auto, using(crate::proofs::Bounds::bounds), unfolding(crate::specs::Delay::startup_sum))]
pub fn startup_sum(hz: u32, multiplier: u32) -> u64
    ensures { result ≡ startup_sum hz multiplier }
{
    u64::from(hz / 1000) * u64::from(multiplier) + 128
}

// Cycles that take at least a microsecond: the ring's MHz rounded up.
#[tactic(auto, unfolding(crate::specs::Delay::cycles_per_us))]
fn cycles_per_us(ring_hz: u32) -> u64
    ensures { (result ≡ cycles_per_us ring_hz) × (result ≤ 4295) }
{
    if ring_hz == 0 {
        NO_RING
    } else {
        u64::from(ring_hz.div_ceil(1000000))
    }
}

// Cycles that take at least the settling time of the core voltage.
#[tactic(auto, unfolding(crate::specs::Delay::settling_cycles))]
pub fn settling_cycles(time_us: u32, ring_hz: u32) -> u64
    ensures { result ≡ settling_cycles time_us ring_hz }
{
    u64::from(time_us) * cycles_per_us(ring_hz)
}

// The clock of a Gpout source code; None where the code is unknown.
fn gpout_clock(chip: Chip, source: u8) -> Option<Clock>
    ensures { result ≡ gpout_clock chip source }
{
    chip.facts()
        .gpout
        .get(usize::from(source))
        .copied()
        .flatten()
}

// A whole part of 0 counts as 65536, as in the datasheets; the Rust takes 65535.
fn gpout_whole(div_int: u32) -> u32
    ensures { (result ≡ gpout_whole div_int) × (1 ≤ result) }
{
    if div_int == 0 { 65536 } else { div_int }
}

// The frequency of a Gpout from that of its source. The divider is at least 1, so the result is at most the source.
#[tactic(auto, using(crate::proofs::Bounds::bounds))]
fn gpout_hz(scale: u32, source: u32, div_int: u32, div_frac: u16) -> u32
    ensures { result ≡ divided_hz scale source (gpout_whole div_int) div_frac }
{
    let whole = gpout_whole(div_int);
    divided_hz(scale, source, whole, div_frac) as u32
}

#[tactic(auto, unfolding(crate::specs::Gpout::gpout_of))]
fn gpout_freq(
    chip: Chip,
    source: u8,
    div_int: u32,
    div_frac: u16,
    freqs: &[u32; 10],
) -> Result<u32, Refusal>
    ensures { answer_of result ≡ gpout_of chip source div_int div_frac freqs.now }
{
    let facts = chip.facts();
    if facts.top_whole < div_int {
        return Err(Refusal::GpoutSource);
    }
    let clock = gpout_clock(chip, source).ok_or(Refusal::GpoutSource)?;
    Ok(gpout_hz(facts.scale, freqs[clock as usize], div_int, div_frac))
}

// The frequency of a Gpout from its source code, its divider and the ten stored frequencies; 23 for an unknown code or a whole
// part over the chip's greatest.
pub fn get_freq(source: u8, divider: GpoutDiv, freqs: &[u32; 10]) -> Result<u32, Refusal>
    ensures { answer_of result ≡ gpout_in divider source freqs.now }
{
    match divider {
        GpoutDiv::Rp2040 { whole, fraction } => {
            gpout_freq(Chip::Rp2040, source, whole, u16::from(fraction), freqs)
        }
        GpoutDiv::Rp235x { whole, fraction } => {
            gpout_freq(Chip::Rp235x, source, whole, fraction, freqs)
        }
    }
}

// The divider, in 256ths, for a PIO state machine to run at the target; 17 where it is not 256 to 16777215 (24 bits). A target of 0 gives
// the quotient 0, which is out of range.
#[tactic(auto, using(crate::proofs::Pio::tested_alone), unfolding(crate::specs::Pio::pio_of))]
pub fn calculate_pio_clock_divider_value(sys_hz: u32, target_hz: u32) -> Result<u32, Refusal>
    ensures { answer_of result ≡ pio_of sys_hz target_hz }
{
    let divider = (u64::from(sys_hz) * 256)
        .checked_div(u64::from(target_hz))
        .unwrap_or(0);
    if (256..=u64::from(base::U24_MAX)).contains(&divider) {
        Ok(divider as u32)
    } else {
        Err(Refusal::PioDivider)
    }
}

// Encodes answers as 64-bit numbers: a value below 2 ^ 48, refusal n as 2 ^ 48 + n.
ghost use Rattle.std.specs.Prelude.{◌≡◌, ◌+◌};
ghost use Rattle.base.specs.{Answer.answer_of, Refusals.number_of};
ghost use Rattle.numbers.specs.Answers.{refusals, answer_number, itself, setting_number, level_number, voltage_number, limit_number};
ghost use Rattle.numbers.specs.Answers.{chip_numbered, divider_of, divider_numbered};

use base::Refusal;
use chip::Chip;
use chip::voltage::{CoreVoltage, CoreVoltage235, Voltage};
use divider::GpoutDiv;
use pll::PllConfig;

// The number of refusal 0; values are below it.
pub const REFUSAL: u64 = 1 << 48;

// An absent limit, above every 32-bit target.
const ABSENT: u64 = 1 << 32;

// The answer where the numbers given are of no chip, no plan, no runner or no slots.
pub const MALFORMED: u64 = 1 << 49;

// The answer that tells refusal n, whichever the number.
pub fn refused_by(number: u8) -> u64
    ensures { result ≡ refusals + number }
{
    REFUSAL + u64::from(number)
}

// The answer that tells a refusal.
pub fn refused(why: Refusal) -> u64
    ensures { result ≡ refusals + number_of why }
{
    refused_by(u8::from(why))
}

// A number as itself, or the number of its refusal.
pub fn number(answer: Result<u64, Refusal>) -> u64
    ensures { result ≡ answer_number itself (answer_of answer) }
{
    answer.unwrap_or_else(refused)
}

// The number of a PLL setting: reference << 32, feedback << 16, post 1 << 8, post 2.
fn setting(c: PllConfig) -> u64
    ensures { result ≡ setting_number c }
{
    (u64::from(c.refdiv) * 65536 + u64::from(c.fbdiv)) * 65536
        + (u64::from(c.post_div1) * 256 + u64::from(c.post_div2))
}

// The number of a PLL setting or its refusal.
pub fn found(answer: Result<PllConfig, Refusal>) -> u64
    ensures { result ≡ answer_number setting_number (answer_of answer) }
{
    answer.map_or_else(refused, setting)
}

// The chip of a number: 0 is the RP2040, 1 the RP235x, any other None. It is no `TryFrom`: an unknown chip is malformed, which is
// no refusal, so an error would have nothing to say.
pub fn chip(number: u8) -> Option<Chip>
    ensures { result ≡ chip_numbered number }
{
    match number {
        0 => Some(Chip::Rp2040),
        1 => Some(Chip::Rp235x),
        _ => None,
    }
}

// The number of a voltage that was read, its code << 8 and its brownout level, or the number of the refusal.
fn level<V: Voltage>(read: Result<V, Refusal>) -> u64
    ensures { result ≡ answer_number (λ v. level_number (V.Voltage.row v).code (V.Voltage.row v).brownout) (answer_of read) }
{
    read.map_or_else(refused, |v| {
        u64::from(v.code()) * 256 + u64::from(v.recommended_bod())
    })
}

// The number of the voltage that a regulator reading names. Refusal: 18.
pub fn voltage(chip: Chip, reading: u8) -> u64
    ensures { result ≡ voltage_number chip reading }
{
    match chip {
        Chip::Rp2040 => level(CoreVoltage::try_from(reading)),
        Chip::Rp235x => level(CoreVoltage235::try_from(reading)),
    }
}

// The divider of a Gpout; None on the RP2040 for a fraction of more than 8 bits.
fn divider_of(chip: Chip, whole: u32, fraction: u16) -> Option<GpoutDiv>
    ensures { result ≡ divider_of whole fraction chip }
{
    match chip {
        Chip::Rp2040 => {
            let fraction = u8::try_from(fraction).ok()?;
            Some(GpoutDiv::Rp2040 { whole, fraction })
        }
        Chip::Rp235x => Some(GpoutDiv::Rp235x { whole, fraction }),
    }
}

// The divider of a Gpout on the chip of a number; None for an unknown chip, which is malformed as in `chip`, or a fraction of too many
// bits.
pub fn divider(number: u8, whole: u32, fraction: u16) -> Option<GpoutDiv>
    ensures { result ≡ divider_numbered whole fraction (chip_numbered number) }
{
    divider_of(chip(number)?, whole, fraction)
}

// The number of a margin's limit: its target in Hz, or 2 ^ 32 where it is absent.
pub fn limit(limit: Option<u32>) -> u64
    ensures { result ≡ limit_number limit }
{
    limit.map_or(ABSENT, u64::from)
}

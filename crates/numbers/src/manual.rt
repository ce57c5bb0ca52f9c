// The plan of `manual_pll` from numbers.
ghost use Rattle.std.specs.Prelude.{◌≡◌};
ghost use Rattle.base.specs.Answer.{answer_in};
ghost use Rattle.numbers.specs.Manual.{manual_by_code};

use base::Refusal;
use chip::voltage::CoreVoltage;
use config::ClockConfig;
use pll::PllConfig;

// The plan of the RP2040 from crystal, dividers and voltage code. Refusal: 5; None for a code that no voltage has: the code is a number,
// since it comes from C, which may give any.
pub fn manual(crystal_hz: u32, pll: PllConfig, code: u8) -> Option<Result<ClockConfig, Refusal>>
    ensures { answer_in result ≡ manual_by_code crystal_hz pll code }
{
    let voltage = CoreVoltage::try_from(code).ok()?;
    Some(ClockConfig::manual_pll(crystal_hz, pll, voltage))
}

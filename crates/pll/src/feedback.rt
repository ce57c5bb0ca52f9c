// The lowest and the highest feedback divider that the search may take at an input frequency.
ghost use Rattle.std.specs.Prelude.{◌≡◌};
ghost use Rattle.std.specs.Result.{result_map_both};
ghost use Rattle.base.specs.Answer.{answer_of};
ghost use Rattle.pll.specs.Ends.{highest_of, lowest_of};

use crate::{FEEDBACK_MIN, REFERENCE_MIN, VCO_MAX, VCO_MIN};
use base::Refusal;

// Above this input even the least feedback divider, 16, takes the VCO above 1600 MHz.
const INPUT_MAX: u32 = 100000000;

// The two ends of the permitted dividers.
#[derive(Clone, Copy)]
pub struct Ends {
    pub low: u32,
    pub high: u32,
}

// Answers the lowest and the highest permitted divider; refuses with 15 where there is none. From 5 MHz on none is above 320.
pub fn dividers(input_hz: u32) -> Result<Ends, Refusal>
    ensures lowest { answer_of (result_map_both (λ found. found.low) (λ why. why) result) ≡ lowest_of input_hz }
    ensures highest { answer_of (result_map_both (λ found. found.high) (λ why. why) result) ≡ highest_of input_hz }
{
    if !(REFERENCE_MIN..=INPUT_MAX).contains(&input_hz) {
        return Err(Refusal::NoPllSetting);
    }
    Ok(Ends {
        low: VCO_MIN.div_ceil(input_hz).max(u32::from(FEEDBACK_MIN)),
        high: VCO_MAX / input_hz,
    })
}

// Answers the highest permitted divider; refuses with 15 where there is none.
pub fn highest(input_hz: u32) -> Result<u32, Refusal>
    ensures { answer_of result ≡ highest_of input_hz }
{
    dividers(input_hz).map(|ends| ends.high)
}

// Answers the lowest permitted divider; refuses with 15 where there is none.
pub fn lowest(input_hz: u32) -> Result<u32, Refusal>
    ensures { answer_of result ≡ lowest_of input_hz }
{
    dividers(input_hz).map(|ends| ends.low)
}

// The margin of a target (docs/PLL.md): how far it can move before the search gives another setting.
#![tactic(auto)]

ghost use Rattle.std.specs.Prelude.{◌≡◌, ◌≤◌, is_none};
ghost use Rattle.base.specs.Answer.{answer_of};
ghost use Rattle.margin.specs.{Margin.margin_of, Walk.Tells, Walk.Turns, Walk.First};

use base::Refusal;
use pll::PllConfig;

// Targets are below this number.
const TARGETS: u64 = 1 << 32;

// The greatest lower and the smallest higher target whose settings differ; either may be absent within 32 bits.
#[derive(Drop)]
pub struct Margin {
    pub lower: Option<u32>,
    pub higher: Option<u32>,
}

// The output of the setting that the search gives for a target, 0 where it gives none; nothing where it gives c.
fn other_hz(input_hz: u32, target_hz: u32, c: PllConfig) -> Option<u32>
    ensures { Tells input_hz target_hz c (is_none result) }
{
    match pll::find_pll_params(input_hz, target_hz) {
        Ok(found) if found == c => None,
        Ok(found) => Some(found.valid_hz(input_hz)),
        Err(_) => Some(0),
    }
}

// From `low` to below `high` the search gives c for the first targets and not for the others, or the other way round:
// `given` says whether it does for the first. Answers the first of the others, and `high` where there is none. Any target
// asked shows on which side of it that one is. It is near the middle between the output of c and that of another setting,
// which is the guess once another is known. It is no `partition_point`, since the guess is not the middle. The six parameters are no
// struct, as the two calls share only two of them, and the contract speaks of each.
fn first_other(
    input_hz: u32,
    c: PllConfig,
    given: bool,
    mut low: u64,
    mut high: u64,
    mut guess: u64,
) -> u64
    requires order { (low ≤ high) × (high ≤ 4294967296) }
    requires turns { Turns input_hz c given low high }
    ensures { First input_hz c given low high result }
{
    let own = u64::from(c.valid_hz(input_hz));
    while low < high {
        let at = guess.clamp(low, high - 1);
        let other = other_hz(input_hz, at as u32, c);
        if other.is_none() == given {
            low = at + 1;
        } else {
            high = at;
        }
        guess = other.map_or(low.midpoint(high), |hz| u64::from(hz).midpoint(own));
    }
    low
}

// Answers the greatest lower and the smallest higher target whose setting differs; refuses with 15 as the search does.
pub fn target_margin(input_hz: u32, target_hz: u32) -> Result<Margin, Refusal>
    ensures { answer_of result ≡ margin_of input_hz target_hz }
{
    let c = pll::find_pll_params(input_hz, target_hz)?;
    let target = u64::from(target_hz);
    let lowest = first_other(input_hz, c, false, 0, target, target * 63 / 64);
    let higher = first_other(input_hz, c, true, target + 1, TARGETS, target * 65 / 64);
    Ok(Margin {
        lower: (lowest as u32).checked_sub(1),
        higher: u32::try_from(higher).ok(),
    })
}

// The clock sheet of a plan: `init` refuses the plan, or collects its steps and writes them as bytes.

#![tactic(auto)]

pub mod clocks;
pub mod sources;
pub mod steps;

ghost use Rattle.std.specs.Prelude.{◌≡◌};
ghost use Rattle.settings.specs.Frequencies.{frequencies_of};
ghost use Rattle.sheet.specs.{Steps.steps_of, Gather.held, Gather.pushes, Writer.InitCall};

use base::Refusal;
use config::ClockConfig;
use settings::{Frequencies, Settings};
use steps::Words;

// Collects the steps of settings at a regulator reading, from the first word on; f has the frequencies of the settings.
#[tactic(auto, using(crate::proofs::Gathering::pushes_append), unfolding(crate::specs::Steps::steps_of))]
fn gather(words: &mut Words, s: Settings, f: Frequencies, reading: u8) -> usize
    ensures { f ≡ frequencies_of s → held words.new result ≡ pushes (held words.old 0) (steps_of reading s) }
{
    let chip = s.chip.model;
    let at = sources::put_start(words, chip);
    let at = sources::configure_rosc(words, at, chip.facts().pass, s.rosc);
    let at = sources::put_voltage(words, at, reading, s.chip, s.settling);
    let at = sources::start_xosc(words, at, s.xosc);
    clocks::put_clocks(words, at, s, f)
}

// Writes the sheet of a plan at a regulator reading to the start of the caller's bytes and answers its length in bytes; 18, then
// 1 to 14, then 19 where the bytes are too few. A refusal changes nothing.
pub fn init(config: ClockConfig, reading: u8, sheet: &mut [u8]) -> Result<usize, Refusal>
    ensures { InitCall config reading sheet.old result sheet.new }
{
    let s = settings::settings_of(config, reading);
    let f = refusals::examine(s, reading)?;
    let mut words = [0u64; step::MAX_STEPS];
    let count = gather(&mut words, s, f, reading);
    step::copy_turned(&words[..count], sheet)?;
    Ok(8 * count)
}

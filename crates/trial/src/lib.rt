// The whole output of the program `load` for its input (docs/PROGRAMS.md, Program load): two trials that give the
// same output on every machine.
#![tactic(auto)]

mod lcg;

ghost use Rattle.std.specs.Prelude.{◌≡◌, ◌≤◌, false, length};
ghost use Rattle.base.specs.{Answer.value, Answer.answer_of, Writing.Puts};
ghost use Rattle.text.specs.Output.{Printed};
ghost use Rattle.step.specs.Size.{bad_size};
ghost use Rattle.bring_up.specs.Wait.{runner_after};
ghost use Rattle.trial.specs.Load.{flags, trial_runner, runner_line, trials, load_with, load_of};

use base::{Refusal, Writer};
use chip::Chip;
use chip::voltage::CoreVoltage;
use config::ClockConfig;
use runner::Runner;
use step::MAX_BYTES;

// The crystal of both trials.
const CRYSTAL_HZ: u32 = 12000000;

// The largest count that is not refused.
const MOST_COUNT: u32 = 10000;

// Starts a runner with a sheet and makes `count` calls; the ready flag of each is the top bit of a draw. `run` of report says why the
// two are not one.
fn run(sheet: &[u8], seed: u32, count: u32) -> Runner
    requires { bad_size (length sheet.now) ≡ false }
    ensures { result ≡ runner_after sheet.now (flags seed) count }
{
    let mut runner = Runner::new();
    let _opened = runner.start(sheet);
    let mut x = seed;
    for _ in 0..count {
        x = lcg::draw(x);
        let _reply = runner.poll(sheet, lcg::top_bit(x));
    }
    runner
}

// The runner trial over the sheet of the crystal preset. The preset is accepted and its sheet fits, so `init` never refuses.
fn trial_runner(seed: u32, count: u32) -> Runner
    ensures { result ≡ trial_runner seed count }
{
    let mut bytes = [0u8; MAX_BYTES];
    let plan = ClockConfig::crystal(Chip::Rp2040, CRYSTAL_HZ);
    let Ok(n) = sheet::init(plan, CoreVoltage::V1_10 as u8, &mut bytes) else {
        return Runner::new();
    };
    run(&bytes[..n], seed, count)
}

// Writes the position and the total of unready polls of a runner on a line.
#[tactic(auto, using(base::proofs::Writing::writing), unfolding(crate::specs::Load::runner_line))]
fn write_runner(out: &mut Writer<'_, u8>, r: &Runner)
    ensures { Puts out.old (runner_line r.now) out.new }
{
    let state = &r.stepper.state;
    text::replies::write_row(out, state.position as u64, &[u64::from(state.total)]);
    out.put(b'\n');
}

// Writes the lines of both trials.
#[tactic(auto, using(base::proofs::Writing::writing), unfolding(crate::specs::Load::trials))]
fn write_trials(out: &mut Writer<'_, u8>, seed: u32, count: u32)
    ensures { Puts out.old (trials seed count) out.new }
{
    lcg::write_targets(out, seed, count);
    write_runner(out, &trial_runner(seed, count));
}

// Writes the output for a seed and a count that may be refused; a count over 10000 gives the line of refusal 31.
fn write_counted(out: &mut Writer<'_, u8>, seed: u32, count: Result<u32, Refusal>)
    ensures { Puts out.old (load_with (value seed) (answer_of count)) out.new }
{
    match count {
        Ok(count) if count > MOST_COUNT => text::replies::write_refused_line(
            out,
            u8::from(Refusal::CountOver),
        ),
        Ok(count) => write_trials(out, seed, count),
        Err(why) => text::replies::write_refused_line(out, u8::from(why)),
    }
}

// Writes the output for an input.
#[tactic(auto, unfolding(crate::specs::Load::load_of))]
fn write_load(out: &mut Writer<'_, u8>, input: &[u8])
    ensures { Puts out.old (load_of input.now) out.new }
{
    let space = text::index_of(input, b' ');
    let after = input.get(space + 1..).unwrap_or(b"");
    match text::number_up_to(input, b' ') {
        Ok(seed) => write_counted(out, seed, text::number_up_to(after, b'\n')),
        Err(no_seed) => text::replies::write_refused_line(out, u8::from(no_seed)),
    }
}

// The most bytes that an output has: 8 for each of at most 10000 targets, and 12 for the runner.
pub const LONGEST: usize = 80012;

// Writes the output for an input and answers its length. `start` holds the first bytes of the input: all of them, or at
// least 22, which decide the output.
pub fn load(start: &[u8], out: &mut [u8; LONGEST]) -> usize
    ensures { Printed load_of 22 start.now out.old result out.new }
{
    let mut writer = Writer::new(out);
    write_load(&mut writer, start);
    writer.at
}

// The calls that a board needs, over numbers and slices only: a runner's start and call, and the register access of a step.
mod run;

ghost use Rattle.std.specs.Prelude.{◌≡◌, Some};
ghost use Rattle.numbers.specs.{Answers.chip_numbered, Run.run_number, Run.run_leaves, Run.StartCall, Access.AccessCall};

use crate::answers;
use chip::Chip;
use runner::{Kept, Runner};
use step::MAX_BYTES;

// Starts a runner with a sheet and answers 0; any numbers may be given before. Refusal: 20.
#[tactic(auto, using(step::proofs::Sizes::size_fits), unfolding(runner::specs::Run::start_of))]
pub fn start(runner: &mut [u32; 15], kept: &mut [u8; MAX_BYTES], sheet: &[u8]) -> u64
    ensures { StartCall runner.old kept.old sheet.now result runner.new kept.new }
{
    let mut next = Runner::new();
    if let Err(why) = next.start(sheet) {
        return answers::refused(why);
    }
    *runner = [0; 15];
    runner[4] = next.len as u32;
    let bytes = next.kept;
    *kept = bytes;
    0
}

// One call of the runner: done, passed, waiting, or the word of the step. Refusals: 21, 22, 27, 20; a bad mark is malformed.
#[tactic(auto, using(crate::proofs::Runners::calling), unfolding(crate::specs::Run::run_number, crate::specs::Run::run_leaves))]
pub fn call(runner: &mut [u32; 15], kept: &[u8; MAX_BYTES], sheet: &[u8], ready: bool) -> u64
    ensures value { result ≡ run_number runner.old kept.now sheet.now ready }
    ensures runner_after { runner.new ≡ run_leaves runner.old kept.now sheet.now ready }
{
    if 1 < runner[3] {
        return answers::MALFORMED;
    }
    let mut state = run::state(runner);
    let word = step::word(sheet, 8 * state.position);
    let kept = Kept {
        bytes: kept,
        len: runner[4] as usize,
    };
    let reply = state.turn(kept, sheet, ready);
    let number = run::answer(runner, reply, word);
    run::put_state(runner, state);
    number
}

// Writes the register access of a step on a chip and answers its kind. Refusal: 20.
fn access_on(chip: Chip, sheet: &[u8], position: u32, access: &mut [u32; 3]) -> u64
    ensures { AccessCall (Some chip) sheet.now position access.old result access.new }
{
    match registers::access_at(chip, sheet, position) {
        Ok(a) => {
            *access = a.numbers();
            u64::from(a.op())
        }
        Err(why) => answers::refused(why),
    }
}

// Writes address, mask and value of the access of the step at a position; answers its kind. Refusal: 20; a bad chip is malformed.
pub fn access(chip: u8, sheet: &[u8], position: u32, access: &mut [u32; 3]) -> u64
    ensures { AccessCall (chip_numbered chip) sheet.now position access.old result access.new }
{
    match answers::chip(chip) {
        Some(on) => access_on(on, sheet, position, access),
        None => answers::MALFORMED,
    }
}

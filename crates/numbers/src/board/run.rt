// A runner as 15 numbers: position, lock polls, total, stopped mark, kept length, ten frequencies; and its kept bytes.
ghost use Rattle.std.specs.Prelude.{◌≡◌, ◌≤◌, drop};
ghost use Rattle.base.specs.Answer.{answer_of};
ghost use Rattle.runner.specs.Run.{HandsFormed, stored_by, freqs_after};
ghost use Rattle.step.specs.Steps.{WellFormed};
ghost use Rattle.numbers.specs.{Answers.answer_number, Run.state_in, Run.with_state, Run.with_freqs, Inside.progress_with};

use crate::answers;
use base::Refusal;
use runner::{Reply, State};
use step::{Kind, Step};

// The state of a runner: position, lock polls, total and stopped mark.
pub(crate) fn state(numbers: &[u32; 15]) -> State
    ensures state { result ≡ state_in numbers.now }
    ensures fits { result.position ≤ 4294967295 }
{
    State {
        position: numbers[0] as usize,
        lock_polls: numbers[1],
        total: numbers[2],
        stopped: numbers[3] == 1,
    }
}

// Writes the state of a runner.
#[tactic(auto, unfolding(crate::specs::Run::with_state))]
pub(crate) fn put_state(numbers: &mut [u32; 15], s: State)
    requires { s.position ≤ 4294967295 }
    ensures { numbers.new ≡ with_state s numbers.old }
{
    numbers[0] = s.position as u32;
    numbers[1] = s.lock_polls;
    numbers[2] = s.total;
    numbers[3] = u32::from(s.stopped);
}

// A store that is handed out sets the frequency of its clock. The runner's own `store` asks for a step of a sheet, so it is private,
// and so is this: a public one would have to test the clock and the Hz, which takes 36 bytes of a firmware that is at its limit.
#[tactic(auto, using(crate::proofs::Runners::storing), unfolding(runner::specs::Run::stored_by))]
fn put_store(numbers: &mut [u32; 15], step: Step)
    requires { WellFormed step }
    ensures { numbers.new ≡ with_freqs (stored_by step (drop 5 numbers.old)) numbers.old }
{
    if step.kind == Kind::Store {
        numbers[5 + step.f0 as usize] = step.f1 as u32;
    }
}

// The number of a reply, where `word` is the sheet's word at the position; a store that is handed out sets its frequency.
#[tactic(auto, unfolding(crate::specs::Run::with_freqs))]
pub(crate) fn answer(numbers: &mut [u32; 15], reply: Result<Reply, Refusal>, word: u64) -> u64
    requires { HandsFormed (answer_of reply) }
    ensures number { result ≡ answer_number (progress_with word) (answer_of reply) }
    ensures freqs { numbers.new ≡ with_freqs (freqs_after (answer_of reply) (drop 5 numbers.old)) numbers.old }
{
    match reply {
        Ok(Reply::Done) => 0,
        Ok(Reply::Handed(step)) => {
            put_store(numbers, step);
            word
        }
        Ok(Reply::Passed) => 1,
        Ok(Reply::Waiting) => 2,
        Err(why) => answers::refused(why),
    }
}

// One step: the step at the position, and the state and the frequencies after it.
ghost use Rattle.std.specs.Prelude.{◌≡◌, ◌<◌, ◌≤◌, length};
ghost use Rattle.base.specs.Answer.{answer_of};
ghost use Rattle.step.specs.{Sheet.max_steps, Steps.WellFormed};
ghost use Rattle.runner.specs.Run.{lock_timeout, outcome, is_wait, unready, take_step, onward_of, stored_by};

use crate::{Reply, State};
use base::Refusal;
use step::{Kind, Step};

// The most lock polls that are counted: the next one is the 1000000th, which is refused.
pub const MOST_LOCK_POLLS: u32 = 999999;

// Whether a kind of step is a wait.
fn is_wait(of: Kind) -> bool
    ensures { result ≡ is_wait of }
{
    matches!(
        of,
        Kind::WaitReleased | Kind::WaitSys | Kind::WaitRef | Kind::WaitStable | Kind::WaitLock
    )
}

// A state comes from C with any numbers, so its bounds are no ghost field: `turn` tests them, and these methods ask for them.
impl State {
    // A wait that is not ready: waiting, or at the last lock poll refusal 22, which stops the runner.
    fn wait_unready(&mut self, wait: Kind) -> Result<Reply, Refusal>
        requires { self.old.lock_polls < lock_timeout }
        ensures { outcome (answer_of result) self.new ≡ unready self.old wait }
    {
        self.total = self.total.saturating_add(1);
        if wait != Kind::WaitLock {
            return Ok(Reply::Waiting);
        }
        if self.lock_polls < MOST_LOCK_POLLS {
            self.lock_polls += 1;
            return Ok(Reply::Waiting);
        }
        self.stopped = true;
        Err(Refusal::LockTimeout)
    }

    // The answer at a step: a wait is passed or waits; any other step is handed out.
    #[tactic(auto, unfolding(crate::specs::Run::take_step))]
    fn take_step(&mut self, step: Step, ready: bool) -> Result<Reply, Refusal>
        requires { (self.old.position ≤ max_steps) × (self.old.lock_polls < lock_timeout) }
        ensures { outcome (answer_of result) self.new ≡ take_step self.old step ready }
    {
        if !is_wait(step.kind) {
            self.position += 1;
            return Ok(Reply::Handed(step));
        }
        if !ready {
            return self.wait_unready(step.kind);
        }
        self.position += 1;
        self.lock_polls = 0;
        Ok(Reply::Passed)
    }

    // Answers done past the last step, else takes the step, or refuses with 20 where it cannot be read. The caller
    // applies a store.
    #[tactic(auto, using(crate::proofs::Calls::counting), unfolding(crate::specs::Run::onward_of, crate::specs::Run::take_read))]
    pub(crate) fn onward(&mut self, sheet: &[u8], ready: bool) -> Result<Reply, Refusal>
        requires { (self.old.position ≤ max_steps) × (self.old.lock_polls < lock_timeout) }
        ensures { outcome (answer_of result) self.new ≡ onward_of self.old sheet.now ready }
    {
        let at = 8 * self.position;
        if sheet.len() <= at {
            return Ok(Reply::Done);
        }
        self.take_step(step::read(sheet, at)?, ready)
    }
}

// A store that is handed out sets the frequency of its clock; any other step changes nothing.
#[tactic(auto, using(crate::proofs::Steps::storing), unfolding(crate::specs::Run::stored_by))]
pub(crate) fn store(step: Step, freqs: &mut [u32])
    requires formed { WellFormed step }
    requires ten { length freqs.old ≡ 10 }
    ensures { freqs.new ≡ stored_by step freqs.old }
{
    if step.kind != Kind::Store {
        return;
    }
    freqs[step.f0 as usize] = step.f1 as u32;
}

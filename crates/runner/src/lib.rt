// The runner (docs/FORMAT.md, Runner) takes one step of its kept sheet at each call. `State::turn` works on the state,
// `Stepper::poll` on the stepping part, `Runner::poll` on a whole runner; `Runner::start` takes a sheet.
#![tactic(auto)]

mod stepping;

ghost use Rattle.std.specs.Prelude.{◌≡◌, ◌≤◌, length};
ghost use Rattle.base.specs.Answer.{answer_of};
ghost use Rattle.step.specs.{Sheet.max_bytes, Clocks.clock_number};
ghost use Rattle.text.specs.Ascii.{same};
ghost use Rattle.runner.specs.Run.{outcome, turn_of, stepper_of, advance_of, start_of, fresh_stepper, fresh, freq_of, padded};

use base::Refusal;
pub use step::Clock;
use step::{MAX_BYTES, MAX_STEPS, Step};
pub use stepping::MOST_LOCK_POLLS;
use stepping::store;

// The state of a runner without the frequencies. `stopped` is a mark of the C interface, with no value beside it for an Option.
#[derive(Clone, Copy)]
pub struct State {
    pub position: usize,
    pub lock_polls: u32,
    pub total: u32,
    pub stopped: bool,
}

// The stepping part of a runner: the state and the ten frequencies in Hz.
#[derive(Clone, Copy)]
pub struct Stepper {
    pub state: State,
    pub freqs: [u32; 10],
}

// A stepper and the sheet that it was started with: `len` bytes, followed by zeros. The two are fields of their own, as a runner may
// have any length: one that no sheet has is refused with 21.
#[derive(Clone, Copy)]
pub struct Runner {
    pub kept: [u8; MAX_BYTES],
    pub len: usize,
    pub stepper: Stepper,
}

// The kept bytes, and how many of them are the sheet. Any length may stand here, as it comes from C; `turn` refuses one that no
// sheet has.
#[derive(Clone, Copy)]
pub struct Kept<'a> {
    pub bytes: &'a [u8; MAX_BYTES],
    pub len: usize,
}

// The answer of a call that is not refused: done, a step to carry out, a wait passed, or a wait not ready.
#[derive(Clone, Copy)]
pub enum Reply {
    Done,
    Handed(Step),
    Passed,
    Waiting,
}

impl State {
    // One call on the state with a kept sheet; refuses with 21, 22, 27 or 20, in this order,
    // and with 22 at the lock timeout.
    #[tactic(auto, using(crate::proofs::Calls::ranges), unfolding(crate::specs::Run::turn_of, crate::specs::Run::outside))]
    pub fn turn(&mut self, kept: Kept<'_>, sheet: &[u8], ready: bool) -> Result<Reply, Refusal>
        ensures { outcome (answer_of result) self.new ≡ turn_of self.old kept.entry.len kept.entry.bytes.now sheet.now ready }
    {
        if ((self.position > MAX_STEPS) | (self.lock_polls > MOST_LOCK_POLLS))
            | step::bad_size(kept.len)
        {
            return Err(Refusal::NotARunner);
        }
        if self.stopped {
            return Err(Refusal::LockTimeout);
        }
        let bytes = kept.bytes;
        if !same_bytes(&bytes[..kept.len], sheet) {
            return Err(Refusal::OtherSheet);
        }
        self.onward(sheet, ready)
    }
}

impl Stepper {
    // A fresh stepper: all numbers are 0, and it is not stopped.
    pub fn new() -> Self
        ensures { result ≡ fresh_stepper }
    {
        Self {
            state: State {
                position: 0,
                lock_polls: 0,
                total: 0,
                stopped: false,
            },
            freqs: [0; 10],
        }
    }

    // One call on a stepper with a kept sheet; refuses with 21, 22, 27 or 20, as `turn` does. A store that is handed out sets
    // the frequency of its clock.
    #[tactic(auto, using(crate::proofs::Steps::turn_formed), unfolding(crate::specs::Run::stepper_of))]
    pub fn poll(&mut self, kept: Kept<'_>, sheet: &[u8], ready: bool) -> Result<Reply, Refusal>
        ensures { outcome (answer_of result) self.new
            ≡ stepper_of self.old kept.entry.len kept.entry.bytes.now sheet.now ready }
    {
        let reply = self.state.turn(kept, sheet, ready)?;
        if let Reply::Handed(step) = reply {
            store(step, &mut self.freqs);
        }
        Ok(reply)
    }
}

impl Runner {
    // A runner before any start: its kept sheet is empty.
    pub fn new() -> Self
        ensures { result ≡ fresh }
    {
        Self {
            kept: [0; MAX_BYTES],
            len: 0,
            stepper: Stepper::new(),
        }
    }

    // One call; refuses with 21, 22, 27 or 20, as `turn` does. The kept sheet stays.
    #[tactic(auto, unfolding(crate::specs::Run::advance_of))]
    pub fn poll(&mut self, sheet: &[u8], ready: bool) -> Result<Reply, Refusal>
        ensures { outcome (answer_of result) self.new ≡ advance_of self.old sheet.now ready }
    {
        let kept = Kept {
            bytes: &self.kept,
            len: self.len,
        };
        self.stepper.poll(kept, sheet, ready)
    }

    // One call by value: its answer, and the runner after it. The calls by value stand beside those in place: they leave the
    // caller's own as it was, and answer the one after the call (docs/DECISIONS.md, 20).
    pub fn advance(self, sheet: &[u8], ready: bool) -> (Result<Reply, Refusal>, Self)
        ensures { outcome (answer_of result.0) result.1 ≡ advance_of self sheet.now ready }
    {
        let mut next = self;
        let reply = next.poll(sheet, ready);
        (reply, next)
    }

    // Makes the runner fresh with the sheet; refuses with 20 a length that no sheet has, and then changes nothing.
    pub fn start(&mut self, sheet: &[u8]) -> Result<(), Refusal>
        ensures { outcome (answer_of result) self.new ≡ start_of self.old sheet.now }
    {
        if step::bad_size(sheet.len()) {
            return Err(Refusal::NotASheet);
        }
        self.kept = keep(sheet);
        self.len = sheet.len();
        self.stepper = Stepper::new();
        Ok(())
    }

    // A start by value: its answer, and the runner after it.
    pub fn restarted(self, sheet: &[u8]) -> (Result<(), Refusal>, Self)
        ensures { outcome (answer_of result.0) result.1 ≡ start_of self sheet.now }
    {
        let mut next = self;
        let opened = next.start(sheet);
        (opened, next)
    }

    // The frequency in Hz that the runner holds for a clock. That of the RTC is 0 on the RP235x, which has no RTC clock.
    pub fn freq(&self, clock: Clock) -> u32
        ensures { result ≡ freq_of self.now (clock_number clock) }
    {
        self.stepper.freqs[clock as usize]
    }
}

// The kept form of a sheet: its bytes, followed by zeros.
fn keep(sheet: &[u8]) -> [u8; MAX_BYTES]
    requires { length sheet.now ≤ max_bytes }
    ensures { result ≡ padded sheet.now }
{
    let mut kept = [0u8; MAX_BYTES];
    kept[..sheet.len()].copy_from_slice(sheet);
    kept
}

// Whether a and b hold the same bytes. It looks at all of them, so that it is short and compares several bytes at a time; the
// library's `==` of slices takes 1556 bytes of a firmware, which is at its limit of 5120 (docs/BOARD.md).
fn same_bytes(a: &[u8], b: &[u8]) -> bool
    ensures { result ≡ same a.now b.now }
{
    if a.len() != b.len() {
        return false;
    }
    let mut equal = true;
    for (x, y) in a.iter().zip(b) {
        equal &= x == y;
    }
    equal
}

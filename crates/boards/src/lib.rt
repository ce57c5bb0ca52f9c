// The bench (docs/FORMAT.md, Bench): eight boards with one kept sheet. A board steps as a runner does, by `Stepper::poll`.
#![tactic(auto)]

ghost use Rattle.std.specs.Prelude.{◌≡◌};
ghost use Rattle.base.specs.Answer.{answer_of};
ghost use Rattle.runner.specs.Run.{outcome};
ghost use Rattle.boards.specs.Bench.{fresh_bench, bench_of, start_all_of, board_hz};

use base::Refusal;
use runner::{Kept, Reply, Runner, Stepper};
use step::MAX_BYTES;

// Eight boards, and the sheet that all were started with: `len` bytes, followed by zeros. The two are fields of their own, as a
// bench may have any length: one that no sheet has is refused with 21.
#[derive(Clone, Copy)]
pub struct Bench {
    pub boards: [Stepper; 8],
    pub kept: [u8; MAX_BYTES],
    pub len: usize,
}

impl Bench {
    // A bench before any start: its kept sheet is empty.
    pub fn new() -> Self
        ensures { result ≡ fresh_bench }
    {
        Self {
            boards: [Stepper::new(); 8],
            kept: [0; MAX_BYTES],
            len: 0,
        }
    }

    // One call for a board; refuses with 28 a number over 7, then as the runner. The number is tested by hand, since of `get_mut` the
    // library does not say what the boards end as.
    #[tactic(auto, using(std::proofs::lemmas::Bool::Decides::nat_tests), unfolding(crate::specs::Bench::bench_of))]
    pub fn poll(&mut self, board: u8, sheet: &[u8], ready: bool) -> Result<Reply, Refusal>
        ensures { outcome (answer_of result) self.new ≡ bench_of self.old board sheet.now ready }
    {
        if board > 7 {
            return Err(Refusal::NoBoard);
        }
        let kept = Kept {
            bytes: &self.kept,
            len: self.len,
        };
        self.boards[board as usize].poll(kept, sheet, ready)
    }

    // One call for a board by value: its answer, and the bench after it. The calls by value stand beside those in
    // place: they leave the caller's own as it was, and answer the one after the call (docs/DECISIONS.md, 20).
    pub fn advance(self, board: u8, sheet: &[u8], ready: bool) -> (Result<Reply, Refusal>, Self)
        ensures { outcome (answer_of result.0) result.1 ≡ bench_of self board sheet.now ready }
    {
        let mut next = self;
        let reply = next.poll(board, sheet, ready);
        (reply, next)
    }

    // A start of all eight boards; refuses with 20 as a runner's start does, and then changes nothing.
    #[tactic(auto, unfolding(crate::specs::Bench::start_all_of, runner::specs::Run::start_of))]
    pub fn start(&mut self, sheet: &[u8]) -> Result<(), Refusal>
        ensures { outcome (answer_of result) self.new ≡ start_all_of self.old sheet.now }
    {
        let mut one = Runner::new();
        one.start(sheet)?;
        self.boards = [one.stepper; 8];
        self.kept = one.kept;
        self.len = one.len;
        Ok(())
    }

    // A start of all eight boards by value: its answer, and the bench after it.
    pub fn restarted(self, sheet: &[u8]) -> (Result<(), Refusal>, Self)
        ensures { outcome (answer_of result.0) result.1 ≡ start_all_of self sheet.now }
    {
        let mut next = self;
        let opened = next.start(sheet);
        (opened, next)
    }

    // The frequency in Hz that a board holds for a clock, by the number of the clock; a clock over 9 has 0 Hz. Refuses
    // with 28 a board over 7. The clock is a number, since any may be asked for; a `Clock` would admit ten alone.
    #[tactic(auto, using(std::proofs::lemmas::Bool::Decides::nat_tests), unfolding(crate::specs::Bench::board_hz))]
    pub fn clock_freq(&self, board: u8, clock: u8) -> Result<u32, Refusal>
        ensures { answer_of result ≡ board_hz self.now board clock }
    {
        let stepper = self.boards.get(board as usize).ok_or(Refusal::NoBoard)?;
        Ok(stepper.freqs.get(clock as usize).copied().unwrap_or(0))
    }
}

// Reads a sheet back: from its bytes and a reading to the plan that gives them (docs/FORMAT.md, Reading a sheet back).
#![tactic(auto)]

mod clocks;
mod codes;
mod held;
mod oscillators;
mod parse;

ghost use Rattle.std.specs.Prelude.{◌≡◌};
ghost use Rattle.base.specs.Answer.{answer_of, answer_in};
ghost use Rattle.readback.specs.Steps.{taken_at, left_in, MovesOn, steps_read};
ghost use Rattle.readback.specs.{Law.chip_in, Law.top_reading, Read.gives, Read.read_of};

use crate::held::NO_STEP;
use base::Refusal;
use chip::Chip;
use config::ClockConfig;
pub use held::Steps;
use step::{Kind, MAX_BYTES, MAX_STEPS, Step};

// The bytes of a sheet, and the position of the next step, counted in steps.
#[derive(Drop)]
pub struct Reader<'a> {
    pub sheet: &'a [u8],
    pub at: usize,
}

// The step at a position of a sheet, counted in steps; nothing past the last. Refusal: 20 where the eight bytes are no step.
pub fn take(sheet: &[u8], at: usize) -> Option<Result<Step, Refusal>>
    ensures { answer_in result ≡ taken_at sheet.now at }
{
    if sheet.len() / 8 <= at {
        return None;
    }
    Some(step::read(sheet, 8 * at))
}

// One step after another. At the end there is none, and the reader stays.
impl<'a> Iterator for Reader<'a> {
    type Item = Result<Step, Refusal>;

    ghost next_gives = { MovesOn };

    ghost remaining = { left_in };

    #[tactic(auto, using(crate::proofs::Gathered::finds_none, crate::proofs::Gathered::finds_some))]
    fn next(&mut self) -> Option<Result<Step, Refusal>> {
        let step = take(self.sheet, self.at)?;
        self.at += 1;
        Some(step)
    }
}

// The steps of a sheet, at most 66, as no sheet of a plan has more, taken by one reader from the first to the last.
pub fn steps_of(sheet: &[u8]) -> Steps
    ensures { result.list ≡ steps_read sheet.now }
{
    let mut steps = Steps::new(NO_STEP);
    for step in (Reader { sheet, at: 0 }).take(MAX_STEPS) {
        steps.push(step.unwrap_or(NO_STEP));
    }
    steps
}

// Whether a plan is accepted at a reading and its sheet is exactly these bytes.
fn gives(sheet: &[u8], reading: u8, plan: ClockConfig) -> bool
    ensures { result ≡ gives sheet.now reading plan }
{
    let mut written = [0; MAX_BYTES];
    match sheet::init(plan, reading, &mut written) {
        Ok(n) => &written[..n] == sheet,
        Err(_) => false,
    }
}

// The chip of a sheet, by the six kind bits of its first step; the RP2040 for fewer than 8 bytes.
pub fn chip_in(sheet: &[u8]) -> Chip
    ensures { result ≡ chip_in sheet.now }
{
    if sheet.len() >= 8 && Kind::from(sheet[0] / 4) == Kind::ChipMark {
        Chip::Rp235x
    } else {
        Chip::Rp2040
    }
}

// The greatest reading of the sheet's chip: 15, or 31 on the RP235x.
#[tactic(auto, unfolding(crate::specs::Law::top_reading))]
fn top_reading(sheet: &[u8]) -> u8
    ensures { result ≡ top_reading sheet.now }
{
    chip_in(sheet).facts().top_reading
}

// The plan whose sheet at a regulator reading is these bytes; of all such plans the one with the smallest delay multiplier and
// the smallest settling time, which is given. 18 for a reading over the greatest of the sheet's chip, then 26 where no accepted
// plan gives these bytes.
#[tactic(auto, unfolding(crate::specs::Read::plan_in, crate::specs::Read::read_of))]
pub fn read_sheet(sheet: &[u8], reading: u8) -> Result<ClockConfig, Refusal>
    ensures { answer_of result ≡ read_of sheet.now reading }
{
    if top_reading(sheet) < reading {
        return Err(Refusal::VoltageReading);
    }
    let steps = steps_of(sheet);
    let plan = settings::least_plan::plan_of(parse::settings_in(steps.as_slice(), reading));
    if gives(sheet, reading, plan) {
        Ok(plan)
    } else {
        Err(Refusal::NoPlan)
    }
}

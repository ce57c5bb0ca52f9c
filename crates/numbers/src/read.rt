// Writes a plan that is read back from a sheet as numbers.
ghost use Rattle.std.specs.Prelude.{◌≡◌};
ghost use Rattle.base.specs.Answer.{answer_of};
ghost use Rattle.numbers.specs.Read.{plan_chip, RowCall};

use crate::answers;
use base::Refusal;
use config::ClockConfig;

// The number of a plan's chip: 0 is the RP2040, 1 the RP235x.
pub fn plan_chip(plan: ClockConfig) -> u64
    ensures { result ≡ plan_chip plan }
{
    plan.chip.settings().model as u64
}

// Writes the numbers of a plan and answers its chip's number, or answers the refusal's number.
pub fn leave(planned: Result<ClockConfig, Refusal>, plan: &mut [u32; 48]) -> u64
    ensures { RowCall (answer_of planned) plan.old result plan.new }
{
    match planned {
        Ok(config) => {
            crate::plan_row::put_plan(plan, config);
            plan_chip(config)
        }
        Err(why) => answers::refused(why),
    }
}

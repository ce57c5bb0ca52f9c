// The register access of a step, as data: the address, the mask and the value. The code that touches registers uses
// only this (targets/firmware/execute.c).
#![tactic(auto)]

mod place;
mod row;

ghost use Rattle.std.specs.Prelude.{◌≡◌, [], ◌∷◌};
ghost use Rattle.registers.specs.Access.{op_of, address_of, mask_of, value_of, has, access_of, access_at};
ghost use Rattle.base.specs.Answer.{answer_of};

use base::Refusal;
use chip::Chip;
use step::{Kind, Step};

// All bits of a register.
pub(crate) const WHOLE: u32 = 0xFFFFFFFF;

// An access to a register. Its fields have no names, which would make the 43 rows of row.rt much longer.
#[derive(Clone, Copy, PartialEq, Eq)]
pub enum Access {
    Nothing,
    Write(u32, u32), // address, value: the value becomes the whole register
    Change(u32, u32, u32), // address, mask, value: the bits in the mask become those of the value
    Wait(u32, u32, u32), // address, mask, value: until the bits in the mask equal the value
    Pause(u32), // for this many processor cycles
}

impl Access {
    // The number of what the access does.
    pub fn op(self) -> u8
        ensures { result ≡ op_of self }
    {
        match self {
            Access::Nothing => 0,
            Access::Write(_, _) => 1,
            Access::Change(_, _, _) => 2,
            Access::Wait(_, _, _) => 3,
            Access::Pause(_) => 4,
        }
    }

    // Its address, its mask and its value: a write has all bits in its mask, a pause its cycles as its value, and what an access
    // lacks is 0.
    pub fn numbers(self) -> [u32; 3]
        ensures { result ≡ address_of self ∷ mask_of self ∷ value_of self ∷ [] }
    {
        match self {
            Access::Nothing => [0, 0, 0],
            Access::Write(address, value) => [address, WHOLE, value],
            Access::Change(address, mask, value) | Access::Wait(address, mask, value) => [
                address, mask, value,
            ],
            Access::Pause(cycles) => [0, 0, cycles],
        }
    }
}

// Whether the chip has this kind of step.
#[tactic(auto, unfolding(crate::specs::Access::has))]
fn has(chip: Chip, kind: Kind) -> bool
    ensures { result ≡ has chip kind }
{
    match chip {
        Chip::Rp2040 => !matches!(
            kind,
            Kind::ChipMark
                | Kind::TimerCycles
                | Kind::TimerOn
                | Kind::WatchdogCycles
                | Kind::WatchdogOn
                | Kind::Voltage235
                | Kind::Brownout235
                | Kind::SysDivider235
                | Kind::Unknown(_)
        ),
        Chip::Rp235x => !matches!(
            kind,
            Kind::Voltage
                | Kind::Brownout
                | Kind::Tick
                | Kind::SysDivider
                | Kind::RtcDivider
                | Kind::RtcControl
                | Kind::Unknown(_)
        ),
    }
}

// Answers the access of a step on a chip; refuses with 20 a kind that the chip does not have.
#[tactic(auto, unfolding(crate::specs::Access::access_of))]
pub fn access_of(chip: Chip, s: Step) -> Result<Access, Refusal>
    ensures { answer_of result ≡ access_of chip s }
{
    if !has(chip, s.kind) {
        return Err(Refusal::NotASheet);
    }
    Ok(row::row(chip, s))
}

// Answers the access of the step at a position of a sheet; refuses with 20 where no valid step of this chip is there.
#[tactic(auto, unfolding(crate::specs::Access::access_at))]
pub fn access_at(chip: Chip, sheet: &[u8], position: u32) -> Result<Access, Refusal>
    ensures { answer_of result ≡ access_at chip sheet.now position }
{
    let s = step::read(sheet, 8 * u64::from(position) as usize)?;
    access_of(chip, s)
}

// The steps of a sheet, decoded and held by value, and reading on in them.
ghost use Rattle.std.specs.Prelude.{◌≡◌, drop};
ghost use Rattle.sheet.specs.Read.{step_at};

use base::BoundedList;
use step::{Kind, MAX_STEPS, Step};

// The step that stands for none, as no sheet has a step of kind 0. It is no Option, since what is read ahead is only compared by its kind.
pub(crate) const NO_STEP: Step = Step {
    kind: Kind::Unknown(0),
    f0: 0,
    f1: 0,
    f2: 0,
    f3: 0,
    f4: 0,
};

// Up to 66 steps, as no sheet of a plan has more.
pub type Steps = BoundedList<Step, MAX_STEPS>;

// Step i; a step of kind 0 past the last.
pub(crate) fn ahead(s: &[Step], i: usize) -> Step
    ensures { result ≡ step_at s.now i }
{
    s.get(i).copied().unwrap_or(NO_STEP)
}

// The steps after the first n.
pub(crate) fn past(s: &[Step], n: usize) -> &[Step]
    ensures { result.now ≡ drop n s.now }
{
    s.get(n..).unwrap_or(&[])
}

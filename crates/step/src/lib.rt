// The format of a step: a 64-bit word of a kind and its fields, stored as 8 bytes, the most significant first.
#![tactic(auto)]

mod access;
mod clock;
mod kind;
mod packing;

ghost use Rattle.std.specs.Prelude.{◌≡◌};
ghost use Rattle.step.specs.Size.{bad_size};

pub use access::{copy_turned, read, turned, word};
pub use clock::{Clock, Pll};
pub use kind::Kind;
pub use packing::pack;

// The greatest number of steps of a sheet, and of its bytes.
pub const MAX_STEPS: usize = 66;

pub const MAX_BYTES: usize = 8 * MAX_STEPS;

// A step: its kind and up to five fields. A field that the kind lacks is 0. The fields are no array: a theorem of all steps would
// need the array's length as a condition.
#[derive(Clone, Copy)]
pub struct Step {
    pub kind: Kind,
    pub f0: u64,
    pub f1: u64,
    pub f2: u64,
    pub f3: u64,
    pub f4: u64,
}

// Whether no sheet has this length in bytes: it is over 528 or not a multiple of 8.
pub fn bad_size(n: usize) -> bool
    ensures { result ≡ bad_size n }
{
    (n > MAX_BYTES) | (n % 8 != 0)
}

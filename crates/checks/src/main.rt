// Tests of functions that no other program reaches (docs/PROGRAMS.md, Program checks): the output of `clocks` and
// `load` at the limits of their input, and a runner and a bench that each call changes in place.
#![tactic(auto)]

mod in_place;
mod programs;

use std::io;

fn main(rt: HostRuntime) -> io::Result<()> {
    programs::show_all(&rt)?;
    in_place::show_all(&rt)
}

// Program `load` (docs/PROGRAMS.md, Program load): reads a seed and a count from standard input and prints both trials.
#![tactic(auto)]

use std::io;

fn main(rt: HostRuntime) -> io::Result<()> {
    let mut line = [0u8; 22];
    let mut out = [0u8; trial::LONGEST];
    match input::read_line(&mut rt.stdin(), &mut line) {
        Ok(n) => {
            let size = trial::load(&line[..n], &mut out);
            rt.write_all(&out[..size])
        }
        Err(_) => rt.write_all(text::replies::unread()),
    }
}

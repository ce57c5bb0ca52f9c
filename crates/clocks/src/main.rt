// Program `clocks` (docs/PROGRAMS.md, Program clocks): reads a target in Hz from standard input and prints the stored
// values of its sheet.
#![tactic(auto)]

use std::io;

fn main(rt: HostRuntime) -> io::Result<()> {
    let mut line = [0u8; 11];
    let mut out = [0u8; 256];
    match input::read_line(&mut rt.stdin(), &mut line) {
        Ok(n) => {
            let size = report::report(&line[..n], &mut out);
            rt.write_all(&out[..size])
        }
        Err(_) => rt.write_all(text::replies::unread()),
    }
}

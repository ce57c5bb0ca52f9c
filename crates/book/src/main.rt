// Program `book` (docs/PROGRAMS.md, Program book): prints the 1988 lines of the book, each with output, feedback
// divider, post 1 and post 2.
#![tactic(auto)]

use std::io;

fn main(rt: HostRuntime) -> io::Result<()> {
    let book = speed_book::book();
    for k in 0..speed_book::ENTRIES {
        let mut line = [0u8; 32];
        let size = speed_book::page::put_line(&mut line, book, k);
        rt.write_all(&line[..size])?;
    }
    Ok(())
}

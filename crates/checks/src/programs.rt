// The output of the programs `clocks` and `load` at the limits of their input.
use std::io;

// Prints the output of `clocks` for an input of which the first bytes are given.
fn show(rt: &impl Print, start: &[u8]) -> io::Result<()> {
    let mut out = [0u8; 256];
    let size = report::report(start, &mut out);
    rt.write_all(&out[..size])
}

// Prints the output of `load` for an input of which the first bytes are given. One function over both programs would take the size of
// the buffer and the program, with a bound on its answer as `requires`, and be longer than these three lines.
fn show_load(rt: &impl Print, start: &[u8]) -> io::Result<()> {
    let mut out = [0u8; trial::LONGEST];
    let size = trial::load(start, &mut out);
    rt.write_all(&out[..size])
}

// Prints the output of both programs for inputs at their limits.
pub(crate) fn show_all(rt: &impl Print) -> io::Result<()> {
    // The end of the input closes the line as a newline does.
    show(rt, b"125000000")?;
    // A long line: its first 11 bytes decide.
    show(rt, b"12500000012")?;
    // The largest number, and one more.
    show(rt, b"4294967295\n")?;
    show(rt, b"4294967296\n")?;
    // No digit, and no byte at all.
    show(rt, b"\n")?;
    show(rt, b"")?;
    rt.write_all(text::replies::unread())?;
    // The end of the input closes the line as a newline does; no draw.
    show_load(rt, b"0 1")?;
    show_load(rt, b"0 0\n")?;
    // One more than the largest count; no seed is refused before it.
    show_load(rt, b"0 10001\n")?;
    show_load(rt, b"x 10001\n")?;
    // The longest line, and a longer one: its first 22 bytes decide.
    show_load(rt, b"0000000000 0000000001\n")?;
    show_load(rt, b"0000000000 00000000010")?;
    // Two spaces, no count, and no byte at all.
    show_load(rt, b"1  1\n")?;
    show_load(rt, b"1\n")?;
    show_load(rt, b"")?;
    rt.write_all(text::replies::unread())
}

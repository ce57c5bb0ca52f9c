// Reads the first lines of an input for the programs.
#![tactic(auto)]

ghost use Rattle.std.specs.Prelude.{◌≤◌, length, IfOk};

use std::io;
use std::io::Read;

// Reads up to `lines` lines, the end of the input or a full buffer, and answers the number of bytes stored. It reads byte by byte,
// so that what follows stays in the input. The contract does not cover which bytes they are, as they are program input.
pub fn read_lines<R: Read>(reader: &mut R, buffer: &mut [u8], lines: usize) -> io::Result<usize>
    ensures { IfOk result (λ n. n ≤ length buffer.new) }
{
    let mut left = lines;
    for n in 0..buffer.len() {
        if left == 0 || reader.read(&mut buffer[n..=n])? == 0 {
            return Ok(n);
        }
        left -= usize::from(buffer[n] == b'\n');
    }
    Ok(buffer.len())
}

// Reads the first line, or as much of it as the buffer holds.
pub fn read_line<R: Read>(reader: &mut R, line: &mut [u8]) -> io::Result<usize>
    ensures { IfOk result (λ n. n ≤ length line.new) }
{
    read_lines(reader, line, 1)
}

// Reads the numbers of a row by index, as 8, 16 or 32 bits.

ghost use Rattle.std.specs.Prelude.{◌≡◌};
ghost use Rattle.numbers.specs.Fields.{nth, byte_at, half_at, room_at, pll_at, ten_at};

use pll::PllConfig;
use std::array;

// The number at index i of a row; 0 past the row's end.
pub fn number_at(row: &[u32], i: usize) -> u32
    ensures { result ≡ nth row.now i }
{
    row.get(i).copied().unwrap_or(0)
}

// The number at index i, clamped to 255.
pub fn byte_at(row: &[u32], i: usize) -> u8
    ensures { result ≡ byte_at row.now i }
{
    u8::try_from(number_at(row, i)).unwrap_or(u8::MAX)
}

// The number at index i, clamped to 65535. It is no one function with `byte_at`: the library has no trait for a type's greatest value.
pub fn half_at(row: &[u32], i: usize) -> u16
    ensures { result ≡ half_at row.now i }
{
    u16::try_from(number_at(row, i)).unwrap_or(u16::MAX)
}

// The longest buffer in bytes that a case may ask for.
pub const ROOM: u32 = 1024;

// The number at index i as the length of a buffer, at most the longest.
pub fn room_at(row: &[u32], i: usize) -> usize
    ensures { result ≡ room_at row.now i }
{
    number_at(row, i).min(ROOM) as usize
}

// The four dividers of a PLL from index i on: reference, feedback, post 1, post 2.
pub fn pll_at(row: &[u32], i: u16) -> PllConfig
    ensures { result ≡ pll_at row.now i }
{
    let at = usize::from(i);
    PllConfig {
        refdiv: byte_at(row, at),
        fbdiv: half_at(row, at + 1),
        post_div1: byte_at(row, at + 2),
        post_div2: byte_at(row, at + 3),
    }
}

// Ten numbers from index i on.
pub fn ten_at(row: &[u32], i: u16) -> [u32; 10]
    ensures { result ≡ ten_at row.now i }
{
    let at = usize::from(i);
    array::from_fn(|k| number_at(row, at + k))
}

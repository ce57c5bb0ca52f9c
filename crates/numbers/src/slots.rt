// Slots and steps as numbers: a slot is a flag and eleven words, a step is two numbers.
mod put;

ghost use Rattle.std.specs.Prelude.{◌≡◌, ◌<◌};
ghost use Rattle.numbers.specs.Slots.{words_at, slot_in, slots_in};

use crate::fields::{number_at, ten_at};
pub use put::{put_slots, put_steps};
use sleep::Slot;

// Eleven words from index i on of any numbers; 0 past their end.
pub fn words_at(n: &[u32], i: u16) -> [u32; 11]
    ensures { result ≡ words_at n.now i }
{
    let [a, b, c, d, e, f, g, h, j, k] = ten_at(n, i);
    let last = number_at(n, usize::from(i) + 10);
    [a, b, c, d, e, f, g, h, j, k, last]
}

// The slot from index i on of any numbers: a flag, then its words, which are read one by one (docs/DECISIONS.md, 100).
fn slot_at(n: &[u32], i: u16) -> Slot
    requires { i < 1000 }
    ensures { result ≡ slot_in n.now i }
{
    Slot {
        saved: number_at(n, usize::from(i)) == 1,
        words: words_at(n, i + 1),
    }
}

// The four slots from index i on of any numbers; 0 past their end.
pub fn slots_at(n: &[u32], i: u8) -> [Slot; 4]
    ensures { result ≡ slots_in n.now i }
{
    let at = u16::from(i);
    [
        slot_at(n, at),
        slot_at(n, at + 12),
        slot_at(n, at + 24),
        slot_at(n, at + 36),
    ]
}

// The four slots.
pub fn slots(n: &[u32; 48]) -> [Slot; 4]
    ensures { result ≡ slots_in n.now 0 }
{
    slots_at(n, 0)
}

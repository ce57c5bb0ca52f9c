// What the crates share: why a call is refused, and values written one after another into a lent buffer.
#![tactic(auto)]

mod list;
mod refusal;
mod writer;

ghost use Rattle.std.specs.Prelude.{[], ◌∷◌, ◌≡◌, take};
ghost use Rattle.base.specs.Placed.{Placed};

pub use list::BoundedList;
pub use refusal::Refusal;
pub use writer::Writer;

// The greatest number of 24 bits.
pub const U24_MAX: u32 = 0xFFFFFF;

// The first n bytes of s, or all of s where it has fewer.
pub fn first(s: &[u8], n: usize) -> &[u8]
    ensures { result.now ≡ take n s.now }
{
    &s[..n.min(s.len())]
}

// Writes x at index `at` if the buffer has that index, and answers the index after it, at most the buffer's length, so that a
// sequence of calls places the values of all calls one after another. It takes the index, since `Writer`, which keeps one, is made
// of it.
pub fn put<T: Copy>(buf: &mut [T], at: usize, x: T) -> usize
    ensures { Placed buf.old at (x ∷ []) result buf.new }
{
    if at < buf.len() {
        buf[at] = x;
        return at + 1;
    }
    buf.len()
}

// Writes the values xs from index `at` on and answers the index after them; those past the buffer's end are dropped. It takes the index
// for the same reason. One value after the other: a copy of a few values is a call of the C library, which takes longer.
pub fn put_all<T: Copy>(buf: &mut [T], at: usize, xs: &[T]) -> usize
    ensures { Placed buf.old at xs.now result buf.new }
{
    let mut end = at.min(buf.len());
    for x in xs {
        end = put(buf, end, *x);
    }
    end
}

// A list of at most N elements. There is no heap, so an array holds them.
ghost use Rattle.std.specs.Prelude.{◌≡◌, ◌<◌, ◌≤◌, [], ◌∷◌, ◌++◌, length};

use std::marker::Model;

// The list is the first `len` items. A contract sees the others too, as `spare`, of which no clause says anything: a type is `Copy`
// only where all of its fields are seen. It is no `ArrayVec` of arrayvec, a crate beside the standard library (docs/DECISIONS.md,
// 95), whose `new` would ask a step for a default value.
#[derive(Clone, Copy, Drop)]
pub struct BoundedList<T, const N: usize> {
    items: [T; N],
    len: usize,
}

impl<T, const N: usize> Model for BoundedList<T, N> {
    ghost use Rattle.std.specs.Prelude.{◌≡◌, ◌≤◌, ◌++◌, length, take, drop};
    ghost use Rattle.std.proofs.Common.{take-append-drop, length-take-le};
    ghost use Rattle.base.specs.Bounded.{Bounded};

    ghost Value = { Bounded T };

    ghost view = { λ l. record { list = take l.len l.items; spare = drop l.len l.items } };

    ghost invariant = { λ l. (length l.items ≡ N) × (l.len ≤ length l.items) };

    ghost inverse = { λ l. record { items = l.list ++ l.spare; len = length l.list } };

    ghost inverse_ok = { λ l h i. record {
      items = take-append-drop l.len l.items i;
      len = length-take-le l.len l.items h.1 i;
    } };
}

impl<T: Copy, const N: usize> BoundedList<T, N> {
    // The empty list; the filler stands in the array alone.
    pub fn new(filler: T) -> Self
        ensures { result.list ≡ [] }
    {
        BoundedList {
            items: [filler; N],
            len: 0,
        }
    }

    // Appends an element; a list of N elements stays as it is.
    pub fn push(&mut self, x: T)
        ensures room { length self.old.list < N → self.new.list ≡ self.old.list ++ x ∷ [] }
        ensures full { length self.old.list ≡ N → self.new ≡ self.old }
    {
        if self.len < N {
            self.items[self.len] = x;
            self.len += 1;
        }
    }

    // The elements in order.
    pub fn as_slice(&self) -> &[T]
        ensures list { result.now ≡ self.now.list }
        ensures few { length self.now.list ≤ N }
    {
        &self.items[..self.len]
    }
}

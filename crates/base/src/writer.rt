// A writer puts values one after another into a lent buffer.
ghost use Rattle.std.specs.Prelude.{[], ◌∷◌, ◌≡◌};
ghost use Rattle.base.specs.Writing.{Puts, IsNew};

// A lent buffer, and the index up to which it is written. What does not fit is dropped, so a text is cut at the buffer's end. Who has a
// whole buffer makes a writer, writes, and answers `at`: a function that takes what writes as a closure would be no shorter to call.
#[derive(Drop)]
pub struct Writer<'a, T> {
    pub buf: &'a mut [T],
    pub at: usize,
}

impl<'a, T: Copy> Writer<'a, T> {
    // A writer at the start of the buffer.
    pub fn new(buf: &'a mut [T]) -> Writer<'a, T>
        ensures { IsNew buf.entry result }
    {
        Writer { buf, at: 0 }
    }

    // Puts a value.
    #[tactic(auto, unfolding(crate::specs::Writing::puts))]
    pub fn put(&mut self, x: T)
        ensures { Puts self.old (x ∷ []) self.new }
    {
        let buf = &mut *self.buf;
        self.at = self.at.max(crate::put(buf, self.at, x));
    }

    // Puts values.
    #[tactic(auto, unfolding(crate::specs::Writing::puts))]
    pub fn put_all(&mut self, xs: &[T])
        ensures { Puts self.old xs.now self.new }
    {
        let buf = &mut *self.buf;
        let end = crate::put_all(buf, self.at, xs);
        self.at = self.at.max(end);
    }
}

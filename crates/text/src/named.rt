// Values that have a name in a text.
ghost use Rattle.std.specs.Prelude.{◌≡◌, List, ℕ, find};
ghost use Rattle.text.specs.Ascii.{same};

// A value that has a name.
pub trait Named: Copy {
    ghost the_name: { Self → List ℕ };

    fn name(self) -> &'static [u8]
        ensures { result.now ≡ the_name self };
}

// The first of these values whose name is the word.
pub fn find_named<T: Named>(all: &[T], word: &[u8]) -> Option<T>
    ensures { result ≡ find (λ x. same word.now (T.the_name x)) all.now }
{
    all.iter().copied().find(|x| word == x.name())
}

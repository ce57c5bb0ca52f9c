// The words of a line are separated by one space.
ghost use Rattle.std.specs.Prelude.{◌≡◌};
ghost use Rattle.text.specs.Words.{up_to};
ghost use Rattle.cases.specs.Line.{rest_of, word_after, rest_after};

// The line's first word, and the rest, which is empty or begins with the space before the next word.
#[tactic(auto, using(crate::proofs::Cuts::first_cut))]
pub fn first_word(line: &[u8]) -> (&[u8], &[u8])
    ensures word { result.0.now ≡ up_to 32 line.now }
    ensures rest { result.1.now ≡ rest_of line.now }
{
    line.split_at(text::index_of(line, b' '))
}

// The next word of a rest, and the rest after it; both are empty at the line's end.
pub fn next_word(rest: &[u8]) -> (&[u8], &[u8])
    ensures word { result.0.now ≡ word_after rest.now }
    ensures rest { result.1.now ≡ rest_after rest.now }
{
    first_word(rest.get(1..).unwrap_or(b""))
}

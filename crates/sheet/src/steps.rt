// The steps of a sheet, collected in an array of byte-swapped words, which is copied to the sheet without further change. The
// first `at` words are in use, and each function answers the new number of words in use: a struct of the array and the number keeps
// the number in memory, which took 292 instructions more for each sheet (docs/DECISIONS.md, 92); a random plan's is close to its
// bar (docs/SPEED.md).

ghost use Rattle.std.specs.Prelude.{◌≡◌, get_or};
ghost use Rattle.step.specs.Clocks.{clock_number};
ghost use Rattle.sheet.specs.{Steps.step_with, Steps.store_step, Gather.held, Gather.pushed};

use step::{Clock, Kind};

pub type Words = [u64; step::MAX_STEPS];

// The field at an index, 0 where the step has fewer.
fn field(fields: &[u64], i: usize) -> u64
    ensures { result ≡ get_or fields.now i 0 }
{
    fields.get(i).copied().unwrap_or(0)
}

// Appends a step of a kind with its fields, of which it has up to five; a full array is unchanged.
#[tactic(auto, unfolding(crate::specs::Gather::pushed))]
pub fn add<const N: usize>(words: &mut Words, at: usize, kind: Kind, fields: [u64; N]) -> usize
    ensures { held words.new result ≡ pushed (held words.old at) (step_with kind fields.entry) }
{
    if at < words.len() {
        let f = &fields;
        let word = step::pack(
            kind,
            field(f, 0),
            field(f, 1),
            field(f, 2),
            field(f, 3),
            field(f, 4),
        );
        words[at] = step::turned(word);
        return at + 1;
    }
    at
}

// Appends the store of a clock's frequency.
pub fn store(words: &mut Words, at: usize, clock: Clock, hz: u64) -> usize
    ensures { held words.new result ≡ pushed (held words.old at) (store_step (clock_number clock) hz) }
{
    add(words, at, Kind::Store, [u64::from(clock), hz])
}

// The words of steps as bytes in a buffer: a sheet has the most significant byte of a word first.
ghost use Rattle.std.specs.Prelude.{◌≡◌, take, drop, Some, None};
ghost use Rattle.base.specs.{Answer.answer_of, Choice.pick};
ghost use Rattle.step.specs.Bytes.{word8, turned_of};
ghost use Rattle.step.specs.Access.{copy_of, copied, has_eight, read_at, word_at};

use crate::Step;
use crate::packing::unpack;
use base::Refusal;

// Writes byte-swapped words to the start of buf; without room for all of them it refuses with 19 and writes nothing. Bytes in the
// order of the machine compile to one plain copy.
pub fn copy_turned(words: &[u64], buf: &mut [u8]) -> Result<(), Refusal>
    ensures value { answer_of result ≡ copy_of words.now buf.old }
    ensures buf_after { buf.new ≡ copied words.now buf.old }
{
    if buf.len() / 8 < words.len() {
        return Err(Refusal::ShortBuffer);
    }
    for (i, word) in words.iter().enumerate() {
        buf[8 * i..8 * i + 8].copy_from_slice(&word.to_le_bytes());
    }
    Ok(())
}

// The word with its bytes swapped.
pub fn turned(x: u64) -> u64
    ensures { result ≡ turned_of x }
{
    x.swap_bytes()
}

// The word whose 8 bytes start at `at`, the most significant first; None where fewer than 8 bytes follow.
fn eight(buf: &[u8], at: usize) -> Option<u64>
    ensures { result ≡ pick (has_eight buf.now at) (Some (word8 (take 8 (drop at buf.now)))) None }
{
    let bytes = buf.get(at..)?.first_chunk::<8>()?;
    Some(u64::from_be_bytes(*bytes))
}

// The step whose 8 bytes start at `at`; 20 where fewer than 8 bytes follow or they are not a step.
#[tactic(auto, unfolding(crate::specs::Access::read_at))]
pub fn read(buf: &[u8], at: usize) -> Result<Step, Refusal>
    ensures { answer_of result ≡ read_at buf.now at }
{
    unpack(eight(buf, at).ok_or(Refusal::NotASheet)?)
}

// The word whose 8 bytes start at `at`, 0 where fewer than 8 bytes follow: a caller hands it on only where `read` finds a step there.
#[tactic(auto, unfolding(crate::specs::Access::word_at))]
pub fn word(buf: &[u8], at: usize) -> u64
    ensures { result ≡ word_at buf.now at }
{
    eight(buf, at).unwrap_or(0)
}

// A bench as 113 numbers and its kept bytes: for each of its eight boards position, lock polls, total, stopped mark and ten
// frequencies, then the kept length. A board's numbers and the kept length are a runner's numbers.
ghost use Rattle.std.specs.Prelude.{◌≡◌, ◌*◌};
ghost use Rattle.std.proofs.lemmas.List.Edits.{sets};
ghost use Rattle.numbers.specs.Bench.{runner_at, fourteen};

use crate::fields::{number_at, ten_at};
use base::Writer;

// The 15 numbers of a board as a runner.
#[tactic(auto, using(base::proofs::Writing::put_more))]
pub fn runner_at(n: &[u32], board: u8) -> [u32; 15]
    ensures { result ≡ runner_at n.now board }
{
    let at = 14 * usize::from(board);
    let mut runner = [0; 15];
    let mut out = Writer::new(&mut runner);
    out.put_all(&[
        number_at(n, at),
        number_at(n, at + 1),
        number_at(n, at + 2),
        number_at(n, at + 3),
        number_at(n, 112),
    ]);
    out.put_all(&ten_at(n, 14 * u16::from(board) + 4));
    runner
}

// Writes a runner's numbers back as a board; the kept length stays.
pub fn put_runner(n: &mut [u32], board: u8, r: &[u32; 15])
    ensures { n.new ≡ sets n.old (14 * board) (fourteen r.now) }
{
    let freqs = base::put_all(n, 14 * usize::from(board), &r[..4]);
    base::put_all(n, freqs, &r[5..]);
}

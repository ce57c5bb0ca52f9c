// A bench as 113 numbers and its kept bytes: for each of its eight boards position, lock polls, total, stopped mark and ten
// frequencies, then the kept length. A board's numbers and the kept length are a runner's numbers.
ghost use Rattle.std.specs.Prelude.{◌≡◌};
ghost use Rattle.numbers.specs.Bench.{bench_number, bench_leaves, StartAllCall};

use base::Refusal;
use numbers::answers;
use runner::Runner;
use step::MAX_BYTES;

// Starts eight fresh boards with one sheet and answers 0; any numbers may be given before. Refusal: 20. One runner is started, since
// of a bench that is started only its length and its kept bytes are not 0; a whole bench takes a quarter more instructions.
#[tactic(auto, using(step::proofs::Sizes::size_fits), unfolding(boards::specs::Bench::start_all_of, runner::specs::Run::start_of))]
#[unsafe(no_mangle)]
pub extern "C" fn dizbaral_bench_start(
    bench: &mut [u32; 113],
    kept: &mut [u8; MAX_BYTES],
    sheet: &[u8],
) -> u64
    ensures { StartAllCall bench.old kept.old sheet.now result bench.new kept.new }
{
    let mut one = Runner::new();
    if let Err(why) = one.start(sheet) {
        return answers::refused(why);
    }
    *bench = [0; 113];
    bench[112] = one.len as u32;
    *kept = one.kept;
    0
}

// One call for a board, as `dizbaral_run` for a runner. Refusals: 28, then those of `dizbaral_run`; a bad mark is malformed.
#[unsafe(no_mangle)]
pub extern "C" fn dizbaral_bench_run(
    bench: &mut [u32; 113],
    kept: &[u8; MAX_BYTES],
    board: u8,
    sheet: &[u8],
    ready: bool,
) -> u64
    ensures value { result ≡ bench_number bench.old kept.now board sheet.now ready }
    ensures bench_after { bench.new ≡ bench_leaves bench.old kept.now board sheet.now ready }
{
    // A board over 7 is told before a bad mark, of which a bench has eight.
    if 7 < board {
        return answers::refused(Refusal::NoBoard);
    }
    let mut one = numbers::bench::runner_at(bench, board);
    if 1 < one[3] {
        return answers::MALFORMED;
    }
    let number = crate::dizbaral_run(&mut one, kept, sheet, ready);
    numbers::bench::put_runner(bench, board, &one);
    number
}

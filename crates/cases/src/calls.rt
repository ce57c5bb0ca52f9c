// The cases that lend a buffer, a runner, a bench or slots. Each takes the case's words and writes the answer.
ghost use Rattle.std.specs.Prelude.{◌≡◌, ◌≤◌, length};
ghost use Rattle.cases.specs.Calls.{chip_at, part, kept_text, gpout_text, list_text, manual_text, plan_at, sheet_text, start_text};
ghost use Rattle.cases.specs.Calls.{run_text, bench_start_text, bench_run_text, changed_row, change_text};
ghost use Rattle.cases.specs.{Say.Says, Words.sheet_at};

use crate::say::{write, write_one, write_planned, write_written};
use crate::words::Words;
use base::Writer;
use chip::Chip;
use export::bench::{dizbaral_bench_run, dizbaral_bench_start};
use numbers::answers::MALFORMED;
use numbers::fields::{ROOM, byte_at, half_at, number_at, pll_at, room_at, ten_at};
use numbers::manual::manual;
use step::MAX_BYTES;

// The chip that the case's first number names.
pub(crate) fn chip_at(n: &[u32; 128]) -> Chip
    ensures { result ≡ chip_at n.now }
{
    if n[0] == 1 {
        Chip::Rp235x
    } else {
        Chip::Rp2040
    }
}

// N numbers of the row from index `from` on.
fn part<const N: usize>(n: &[u32; 128], from: usize) -> [u32; N]
    requires { from ≤ 128 }
    ensures { result ≡ part N from n.now }
{
    let mut numbers = [0; N];
    let _end = base::put_all(&mut numbers, 0, &n[from..]);
    numbers
}

// The case `gpout`: CHIP SOURCE WHOLE FRACTION F0 to F9.
pub(crate) fn write_gpout(out: &mut Writer<'_, u8>, n: &[u32; 128])
    ensures { Says out.old (gpout_text n.now) out.new }
{
    let (chip, source) = (byte_at(n, 0), byte_at(n, 1));
    let freqs = ten_at(n, 4);
    let r = export::dizbaral_gpout_frequency(chip, source, n[2], half_at(n, 3), &freqs);
    write_one(out, r);
}

// The case `list`: INPUT TARGET ROOM.
#[tactic(auto, using(crate::proofs::Lent::take_same), unfolding(crate::specs::Calls::list_text))]
pub(crate) fn write_list(out: &mut Writer<'_, u8>, n: &[u32; 128])
    ensures { Says out.old (list_text n.now) out.new }
{
    let mut lent = [238u8; ROOM as usize];
    let buf = &mut lent[..room_at(n, 2)];
    let r = export::dizbaral_list(n[0], n[1], buf);
    write_written(out, r, buf);
}

// The case `manual`: CRYSTAL, four dividers, CODE; a code that is no voltage's is malformed.
pub(crate) fn write_manual(out: &mut Writer<'_, u8>, n: &[u32; 128])
    ensures { Says out.old (manual_text n.now) out.new }
{
    match manual(n[0], pll_at(n, 1), byte_at(n, 5)) {
        Some(plan) => write_planned(out, plan),
        None => write_one(out, MALFORMED),
    }
}

// The plan's numbers, which follow READING, ROOM and CHIP.
fn plan_at(words: &Words) -> &[u32]
    ensures { result.now ≡ plan_at words.now.row words.now.count }
{
    words.numbers_past(3).unwrap_or(&[])
}

// The case `sheet`: READING ROOM CHIP PLAN.
pub(crate) fn write_sheet(out: &mut Writer<'_, u8>, words: &Words)
    ensures { Says out.old (sheet_text words.now.row words.now.count) out.new }
{
    let n = &words.row;
    let mut lent = [238u8; ROOM as usize];
    let buf = &mut lent[..room_at(n, 1)];
    let r = export::dizbaral_plan_sheet(byte_at(n, 2), plan_at(words), byte_at(n, 0), buf);
    write_written(out, r, buf);
}

// Writes what a start leaves: the numbers, of which number i is the count of the kept bytes, and these bytes.
fn write_kept(out: &mut Writer<'_, u8>, r: u64, numbers: &[u32], i: usize, held: &[u8; MAX_BYTES])
    requires { length numbers.now ≤ 128 }
    ensures { Says out.old (kept_text i r numbers.now held.now) out.new }
{
    let kept = base::first(held, number_at(numbers, i) as usize);
    write(out, r, numbers, kept);
}

// The case `start`: SHEET KEPT RUNNER.
#[tactic(auto, unfolding(crate::specs::Calls::start_text))]
pub(crate) fn write_start(out: &mut Writer<'_, u8>, words: &Words)
    ensures { Says out.old (start_text words.now.row words.now.kept (sheet_at words.now 0)) out.new }
{
    let mut runner = part(&words.row, 2);
    let mut held = words.kept;
    let r = export::dizbaral_start(&mut runner, &mut held, words.sheet_at(0));
    write_kept(out, r, &runner, 4, &held);
}

// The case `run`: SHEET KEPT READY RUNNER.
#[tactic(auto, unfolding(crate::specs::Calls::run_text))]
pub(crate) fn write_run(out: &mut Writer<'_, u8>, words: &Words)
    ensures { Says out.old (run_text words.now.row words.now.kept (sheet_at words.now 0)) out.new }
{
    let ready = words.row[2] == 1;
    let mut runner = part(&words.row, 3);
    let r = export::dizbaral_run(&mut runner, &words.kept, words.sheet_at(0), ready);
    write(out, r, &runner, b"");
}

// The case `bench_start`: SHEET KEPT BOARD BENCH; a start ignores BOARD. With `start` it shares five lines, of which each has its own row,
// place of the count and call; so have `bench_run` and `run`.
pub(crate) fn write_bench_start(out: &mut Writer<'_, u8>, words: &Words)
    ensures { Says out.old (bench_start_text words.now.row words.now.kept (sheet_at words.now 0)) out.new }
{
    let mut bench = part(&words.row, 3);
    let mut held = words.kept;
    let r = dizbaral_bench_start(&mut bench, &mut held, words.sheet_at(0));
    write_kept(out, r, &bench, 112, &held);
}

// The case `bench_run`: SHEET KEPT BOARD READY BENCH.
#[tactic(auto, unfolding(crate::specs::Calls::bench_run_text))]
pub(crate) fn write_bench_run(out: &mut Writer<'_, u8>, words: &Words)
    ensures { Says out.old (bench_run_text words.now.row words.now.kept (sheet_at words.now 0)) out.new }
{
    let (board, ready) = (byte_at(&words.row, 2), words.row[3] == 1);
    let mut bench = part(&words.row, 4);
    let r = dizbaral_bench_run(&mut bench, &words.kept, board, words.sheet_at(0), ready);
    write(out, r, &bench, b"");
}

// The row of words, slots and steps that a sleep or a wake leaves.
fn changed_row(words: &[u32; 11], slots: &[u32; 48], steps: &[u32; 28]) -> [u32; 87]
    ensures { result ≡ changed_row words.now slots.now steps.now }
{
    let mut row = [0u32; 87];
    let mut out = Writer::new(&mut row);
    out.put_all(words);
    out.put_all(slots);
    out.put_all(steps);
    row
}

// The cases `sleep` and `wake`: SLOT, eleven words, four slots. A flag says which, as in `change`.
pub(crate) fn write_change(out: &mut Writer<'_, u8>, wakes: bool, n: &[u32; 128])
    ensures { Says out.old (change_text wakes n.now) out.new }
{
    let mut words = part(n, 1);
    let mut slots = part(n, 12);
    let mut steps = [0u32; 28];
    let slot = byte_at(n, 0);
    let r = numbers::sleep_call::change(wakes, &mut slots, slot, &mut words, &mut steps);
    write(out, r, &changed_row(&words, &slots, &steps), b"");
}

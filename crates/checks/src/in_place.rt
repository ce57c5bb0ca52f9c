// Runs the sheet of the `crystal` preset of 12000000 at 1.10 V on a runner and on two boards of a bench, which
// each call changes in place; the first poll of each wait is not ready. It prints the steps, the unready polls and
// the ten frequencies of each, and the answer for a board over 7 (docs/FORMAT.md, Runner).
use base::Refusal;
use boards::Bench;
use chip::Chip;
use chip::voltage::CoreVoltage;
use config::ClockConfig;
use runner::{Clock, Reply, Runner, Stepper};
use std::io;
use step::MAX_BYTES;

// Prints a name and a number on a line.
fn show(rt: &impl Print, name: &str, n: u64) -> io::Result<()> {
    println!(rt; "{name} {n}")
}

// Runs a sheet until done; a call is ready after the answer waiting, so each wait has one unready poll. `run` of report says why
// the two are not one.
fn run(sheet: &[u8]) -> Runner {
    let mut runner = Runner::new();
    let _opened = runner.start(sheet);
    let mut ready = false;
    for _ in 0..bring_up::longest_wait(1) {
        let reply = runner.poll(sheet, ready);
        ready = matches!(reply, Ok(Reply::Waiting));
        if matches!(reply, Ok(Reply::Done)) {
            break;
        }
    }
    runner
}

// Makes `calls` calls for a board; a call is ready after the answer waiting.
fn run_board(mut bench: Bench, board: u8, sheet: &[u8], calls: usize) -> Bench {
    let mut ready = false;
    for _ in 0..calls {
        ready = matches!(bench.poll(board, sheet, ready), Ok(Reply::Waiting));
    }
    bench
}

fn show_stepper(rt: &impl Print, s: Stepper) -> io::Result<()> {
    show(rt, "steps", s.state.position as u64)?;
    show(rt, "unready", u64::from(s.state.total))
}

fn show_runner(rt: &impl Print, r: Runner) -> io::Result<()> {
    let s = r.stepper;
    show_stepper(rt, s)?;
    for clock in Clock::ALL {
        show(rt, clock.name(), u64::from(r.freq(clock)))?;
    }
    Ok(())
}

fn show_freq(rt: &impl Print, b: Bench, board: u8, clock: u8) -> io::Result<()> {
    match b.clock_freq(board, clock) {
        Ok(hz) => show(rt, "hz", u64::from(hz)),
        Err(why) => show(rt, "refused", u64::from(u8::from(why))),
    }
}

fn show_board(rt: &impl Print, b: Bench, board: u8, s: Stepper) -> io::Result<()> {
    show(rt, "board", u64::from(board))?;
    show_stepper(rt, s)?;
    for clock in 0..10 {
        show_freq(rt, b, board, clock)?;
    }
    Ok(())
}

fn show_refusal(rt: &impl Print, reply: Result<Reply, Refusal>) -> io::Result<()> {
    if let Err(why) = reply {
        show(rt, "refused", u64::from(u8::from(why)))?;
    }
    Ok(())
}

// Board 2 runs the whole sheet, board 5 the steps before the store of `ref`. There is no clock 10 and no board 8.
fn show_bench(rt: &impl Print, sheet: &[u8]) -> io::Result<()> {
    let mut fresh = Bench::new();
    let _opened = fresh.start(sheet);
    let one = run_board(fresh, 2, sheet, 72);
    let mut bench = run_board(one, 5, sheet, 44);
    show_board(rt, bench, 2, bench.boards[2])?;
    show_board(rt, bench, 5, bench.boards[5])?;
    show_freq(rt, bench, 5, 10)?;
    show_freq(rt, bench, 8, 0)?;
    show_refusal(rt, bench.poll(8, sheet, true))
}

fn show_sheet(rt: &impl Print, sheet: &[u8]) -> io::Result<()> {
    show_runner(rt, run(sheet))?;
    show_bench(rt, sheet)
}

// Prints the results of the runner and of the bench.
pub(crate) fn show_all(rt: &impl Print) -> io::Result<()> {
    let mut bytes = [0u8; MAX_BYTES];
    let plan = ClockConfig::crystal(Chip::Rp2040, 12000000);
    match sheet::init(plan, CoreVoltage::V1_10 as u8, &mut bytes) {
        Ok(n) => show_sheet(rt, &bytes[..n]),
        Err(why) => show(rt, "refused", u64::from(u8::from(why))),
    }
}

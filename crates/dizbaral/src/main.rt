// The shell command: joins its arguments to a line, in which the bytes of FILE in hex replace @FILE, and prints the answer to it.
// `make FILE` writes a sheet to a file instead.
#![tactic(auto)]

mod files;
mod said;

use base::Writer;
use files::Stopped;
use std::env::{Env, FillError};
use std::io;
use std::rt::Files;
use wording::commands::Made;

// The longest line has two sheets in hex, or one and the numbers of a plan.
const LINE: usize = 16384;

// Prints the answer to the arguments.
fn answer(rt: &(impl Env + Files + Print)) -> Result<(), Stopped> {
    let mut line = [0u8; LINE];
    let end = files::join(rt, &mut line, 1)?;
    let mut out = [0u8; 65536];
    let size = wording::commands::answer(base::first(&line, end), &mut out);
    rt.write_all(base::first(&out, size))?;
    Ok(())
}

// Prints the length of a sheet that was made, its refusal, or the usage of `make`.
fn say(rt: &impl Print, made: Made) -> Result<(), Stopped> {
    let mut out = [0u8; 65536];
    let mut writer = Writer::new(&mut out);
    said::write_made(&mut writer, made);
    let size = writer.at;
    rt.write_all(base::first(&out, size))?;
    Ok(())
}

// Writes a sheet that was made to its file and prints its length; otherwise prints the refusal or the usage of `make`.
fn keep(rt: &(impl Files + Print), path: &[u8], made: Made, sheet: &[u8]) -> Result<(), Stopped> {
    if let Some(Ok(n)) = made {
        files::replace(rt, path, base::first(sheet, n))?;
    }
    say(rt, made)
}

// Makes the sheet that the arguments from the third on order, and writes it to the file that the second names.
fn make(rt: &(impl Env + Files + Print)) -> Result<(), Stopped> {
    let mut path = [0u8; 4096];
    let n = match rt.arg(2, &mut path) {
        Ok(n) => n,
        Err(FillError::NotPresent) => 0,
        Err(FillError::TooLong) => return Err(files::too_long(rt)),
    };
    if n == 0 {
        return say(rt, None);
    }
    let mut line = [0u8; LINE];
    let end = files::join(rt, &mut line, 3)?;
    let mut sheet = [0u8; step::MAX_BYTES];
    let made = wording::commands::make(base::first(&line, end), &mut sheet);
    keep(rt, &path[..n], made, &sheet)
}

fn main(rt: HostRuntime) -> io::Result<()> {
    let mut word = [0u8; 8];
    let n = rt.arg(1, &mut word).unwrap_or(0);
    let done = if said::is_make(base::first(&word, n)) {
        make(&rt)
    } else {
        answer(&rt)
    };
    done.or_else(|stopped| stopped.printed)
}

// Reads arguments and files, and writes files.
use crate::said::{self, Reason};
use base::Writer;
use cases::words::MOST_READ;
use std::env::{Env, FillError};
use std::fs::{OpenFile, OpenOptions};
use std::io::{Read, Write};
use std::rt::Files;
use std::{fs, io, str};

// The system's error numbers that have a reason of their own. They are not `ErrorKind`, of which one kind is error 1 and error 13, and 1
// has no reason here.
const ENOENT: i32 = 2;

const EACCES: i32 = 13;

const EEXIST: i32 = 17;

const EISDIR: i32 = 21;

// An error message stands in the place of an answer; what printing it gave.
#[derive(Drop)]
pub(crate) struct Stopped {
    pub(crate) printed: io::Result<()>,
}

// An answer that cannot be printed stops the program too.
impl From<io::Error> for Stopped {
    fn from(error: io::Error) -> Stopped {
        Stopped {
            printed: Err(error),
        }
    }
}

// The reason why a file is not read or written, from the system's error number.
impl From<&io::Error> for Reason {
    fn from(error: &io::Error) -> Reason {
        match error.raw_os_error() {
            Some(ENOENT) => Reason::NoFile,
            Some(EISDIR) => Reason::Directory,
            Some(EACCES) => Reason::Denied,
            Some(EEXIST) => Reason::Exists,
            _ => Reason::Other,
        }
    }
}

// Prints the name of a file and the reason why it is not read or written.
fn complain(rt: &impl Print, name: &[u8], why: Reason) -> Stopped {
    let mut out = [0u8; 4200];
    let mut line = Writer::new(&mut out);
    said::write_trouble(&mut line, name, why);
    let size = line.at;
    Stopped {
        printed: rt.write_all(base::first(&out, size)),
    }
}

pub(crate) fn too_long(rt: &impl Print) -> Stopped {
    Stopped {
        printed: rt.write_all(b"the arguments are too long\n"),
    }
}

// The name of a file as a path. A path is text, so no file has any other name here.
fn path_of<'a>(rt: &impl Print, name: &'a [u8]) -> Result<&'a str, Stopped> {
    str::from_utf8(name).map_err(|_| complain(rt, name, Reason::Other))
}

// Reads until the buffer is full or the file ends, and answers the number of bytes. It is no `for`: each turn goes on by as many
// bytes as were read.
fn fill<F: Read>(file: &mut F, bytes: &mut [u8]) -> io::Result<usize> {
    let mut n = 0;
    while n < bytes.len() {
        let got = file.read(&mut bytes[n..])?;
        if got == 0 {
            break;
        }
        n += got;
    }
    Ok(n)
}

// Opens a file and fills the buffer from it. A directory can be opened, and only the read reports it.
fn read_file(rt: &impl Files, path: &str, bytes: &mut [u8]) -> io::Result<usize> {
    let mut file = fs::open(rt, path)?;
    fill(&mut file, bytes)
}

// Puts the bytes of a file into the line in hex.
fn join_file(
    rt: &(impl Files + Print),
    line: &mut Writer<'_, u8>,
    name: &[u8],
) -> Result<(), Stopped> {
    let mut bytes = [0u8; MOST_READ + 1];
    let path = path_of(rt, name)?;
    match read_file(rt, path, &mut bytes) {
        Ok(n) if n <= MOST_READ => {
            text::write_hex(line, base::first(&bytes, n));
            Ok(())
        }
        Ok(_) => Err(complain(rt, name, Reason::TooLong)),
        Err(error) => Err(complain(rt, name, Reason::from(&error))),
    }
}

// Puts a word into the line: an argument, or for @FILE the bytes of the file.
fn join_word(
    rt: &(impl Files + Print),
    line: &mut Writer<'_, u8>,
    word: &[u8],
) -> Result<(), Stopped> {
    match word {
        // No file has an empty name, so the message names the sign itself.
        [b'@'] => Err(complain(rt, word, Reason::NoFile)),
        [b'@', name @ ..] => join_file(rt, line, name),
        _ => {
            line.put_all(word);
            Ok(())
        }
    }
}

// Joins the arguments from `from` on, with one space between.
pub(crate) fn join(
    rt: &(impl Env + Files + Print),
    line: &mut [u8],
    from: usize,
) -> Result<usize, Stopped> {
    let room = line.len();
    let mut line = Writer::new(line);
    for i in from..usize::MAX {
        let mut word = [0u8; 8192];
        let n = match rt.arg(i, &mut word) {
            Ok(n) => n,
            Err(FillError::NotPresent) => break,
            Err(FillError::TooLong) => return Err(too_long(rt)),
        };
        if i != from {
            line.put(b' ');
        }
        join_word(rt, &mut line, base::first(&word, n))?;
        if room <= line.at {
            return Err(too_long(rt));
        }
    }
    Ok(line.at)
}

// Writes bytes to an open file, and sees them stored: closing a file reports no error.
fn write_open<F: Write + OpenFile>(file: &mut F, bytes: &[u8]) -> io::Result<()> {
    file.write_all(bytes)?;
    file.sync_all()
}

// Renames a new file to its path; removes it where it was not written whole or cannot be renamed.
fn put_in_place(
    rt: &(impl Files + Print),
    name: &str,
    path: &str,
    written: io::Result<()>,
) -> Result<(), Stopped> {
    match written.and_then(|_| fs::rename(rt, name, path)) {
        Ok(()) => Ok(()),
        Err(error) => {
            let _ = fs::remove_file(rt, name);
            Err(complain(rt, path.as_bytes(), Reason::from(&error)))
        }
    }
}

// Creates the new file, writes it and renames it to its path.
fn write_new(
    rt: &(impl Files + Print),
    name: &str,
    path: &str,
    bytes: &[u8],
) -> Result<(), Stopped> {
    match OpenOptions::new()
        .write(true)
        .create_new(true)
        .open(rt, name)
    {
        Ok(mut file) => {
            let written = write_open(&mut file, bytes);
            put_in_place(rt, name, path, written)
        }
        Err(error) => Err(complain(rt, name.as_bytes(), Reason::from(&error))),
    }
}

// Replaces a file by these bytes. They are written to a new file first, so the old file is kept until they are whole.
pub(crate) fn replace(rt: &(impl Files + Print), path: &[u8], bytes: &[u8]) -> Result<(), Stopped> {
    let mut name = [0u8; 4200];
    let mut writer = Writer::new(&mut name);
    said::write_new_name(&mut writer, path);
    let n = writer.at;
    write_new(
        rt,
        path_of(rt, base::first(&name, n))?,
        path_of(rt, path)?,
        bytes,
    )
}

// The messages about a sheet that was made, and about a file that is not read or written.
ghost use Rattle.std.specs.Prelude.{◌≡◌};
ghost use Rattle.base.specs.Writing.{Puts};
ghost use Rattle.text.specs.Ascii.{ascii, same};
ghost use Rattle.dizbaral.specs.Said.{made_text, reason_text, trouble_line, new_name};

use base::Writer;
use wording::commands::{Made, Usage};

// Why a file is not read or written.
#[derive(Clone, Copy, Debug, PartialEq, Eq)]
pub(crate) enum Reason {
    NoFile,
    Directory,
    Denied,
    Exists,
    TooLong,
    Other,
}

// Whether a word is `make`.
pub(crate) fn is_make(word: &[u8]) -> bool
    ensures { result ≡ same word.now (ascii "make") }
{
    word == b"make".as_slice()
}

// Writes the length of a sheet, its refusal, or the usage of `make`.
#[tactic(auto, using(base::proofs::Writing::writing))]
pub(crate) fn write_made(out: &mut Writer<'_, u8>, made: Made)
    ensures { Puts out.old (made_text made) out.new }
{
    match made {
        Some(Ok(n)) => {
            out.put_all(b"made ");
            text::write_decimal(out, n as u64);
            out.put_all(b" bytes\n");
        }
        Some(Err(why)) => wording::write_refused(out, b"order: ", u8::from(why)),
        None => wording::commands::write_usage(out, Usage::Make),
    }
}

// Writes the reason why a file is not read or written.
#[tactic(auto, unfolding(crate::specs::Said::reason_text))]
fn write_reason(out: &mut Writer<'_, u8>, why: Reason)
    ensures { Puts out.old (reason_text why) out.new }
{
    match why {
        Reason::NoFile => out.put_all(b"there is no such file\n"),
        Reason::Directory => out.put_all(b"it is a directory\n"),
        Reason::Denied => out.put_all(b"permission denied\n"),
        Reason::Exists => out.put_all(b"it is there already\n"),
        Reason::TooLong => out.put_all(b"it is longer than 2048 bytes\n"),
        Reason::Other => out.put_all(b"it cannot be read or written\n"),
    }
}

// Writes a line with the name of a file and the reason.
#[tactic(auto, using(base::proofs::Writing::writing), unfolding(crate::specs::Said::trouble_line))]
pub(crate) fn write_trouble(out: &mut Writer<'_, u8>, name: &[u8], why: Reason)
    ensures { Puts out.old (trouble_line name.now why) out.new }
{
    out.put_all(name);
    out.put_all(b": ");
    write_reason(out, why);
}

// Writes the name of the new file that will replace another.
#[tactic(auto, using(base::proofs::Writing::writing))]
pub(crate) fn write_new_name(out: &mut Writer<'_, u8>, path: &[u8])
    ensures { Puts out.old (new_name path.now) out.new }
{
    out.put_all(path);
    out.put_all(b".new");
}

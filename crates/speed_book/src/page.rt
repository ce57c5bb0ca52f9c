// The text of the printed book.
ghost use Rattle.base.specs.{Placed.Placed, Writing.Puts};
ghost use Rattle.speed_book.specs.{Book.line_in, Page.entry_line};

use crate::{Book, Line};
use base::Writer;

// Writes a line; where there is none it writes nothing.
#[tactic(auto, using(base::proofs::Writing::writing))]
fn write_line(out: &mut Writer<'_, u8>, line: Option<Line>)
    ensures { Puts out.old (entry_line line) out.new }
{
    if let Some(Line { hz, setting }) = line {
        let dividers = [
            u64::from(setting.fbdiv),
            u64::from(setting.post_div1),
            u64::from(setting.post_div2),
        ];
        text::replies::write_row(out, hz, &dividers);
        out.put(b'\n');
    }
}

// Puts the line at an index of an open book and answers its length; past the end of the book it puts nothing and answers 0.
pub fn put_line(out: &mut [u8], book: &Book, k: usize) -> usize
    ensures { Placed out.old 0 (entry_line (line_in book.now k)) result out.new }
{
    let mut writer = Writer::new(out);
    write_line(&mut writer, crate::entry_in(book, k));
    writer.at
}

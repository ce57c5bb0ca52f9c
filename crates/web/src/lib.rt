// The product for a page in a browser (docs/PAGE.md): it takes a line of text and answers a text, the same that the program
// `dizbaral` prints.
#![tactic(auto)]

ghost use Rattle.base.specs.Placed.{Placed};
ghost use Rattle.wording.specs.Commands.{answer_of};

// Writes the answer to a line at the buffer's start and answers its length; bytes that do not fit are dropped.
#[unsafe(no_mangle)]
pub extern "C" fn dizbaral_answer(line: &[u8], out: &mut [u8]) -> usize
    ensures { Placed out.old 0 (answer_of line.now) result out.new }
{
    wording::commands::answer(line, out)
}

// A sheet's steps in words, a line for each: its position and bytes, its kind and fields, and what it does to which register.
// Where the bytes stop being steps of the sheet's chip, the last line has what is there.

mod does;
mod names;

ghost use Rattle.std.specs.Prelude.{◌≡◌};
ghost use Rattle.base.specs.Writing.{Puts};
ghost use Rattle.registers.specs.Access.{access_of};
ghost use Rattle.step.specs.Access.{read_at};
ghost use Rattle.wording.specs.StepLines.{on_chip, found_in, meaning_text, line_text, steps_text};

use crate::meanings;
use crate::steps::does::write_does;
use base::Writer;
use chip::Chip;
use registers::Access;
use step::Step;

// A step of a chip, and what it does there.
#[derive(Clone, Copy)]
pub struct Known {
    pub step: Step,
    pub access: Access,
}

// A step with what it does on the chip; nothing where the chip has no step of this kind.
fn on_chip(chip: Chip, step: Step) -> Option<Known>
    ensures { result ≡ on_chip step (access_of chip step) }
{
    let access = registers::access_of(chip, step).ok()?;
    Some(Known { step, access })
}

// The step of the chip in the first eight bytes.
fn found_in(chip: Chip, bytes: &[u8]) -> Option<Known>
    ensures { result ≡ found_in chip (read_at bytes.now 0) }
{
    on_chip(chip, step::read(bytes, 0).ok()?)
}

// Writes kind, fields and what the step does; `no step` where there is none.
#[tactic(auto, using(base::proofs::Writing::put_more))]
fn write_meaning(out: &mut Writer<'_, u8>, chip: Chip, found: Option<Known>)
    ensures { Puts out.old (meaning_text chip found) out.new }
{
    match found {
        Some(known) => {
            meanings::write_step(out, known.step);
            out.put_all(b"; ");
            write_does(out, chip, known.access);
        }
        None => out.put_all(b"no step"),
    }
}

// Writes the line of a position.
#[tactic(auto, using(base::proofs::Writing::put_more), unfolding(crate::specs::StepLines::line_text))]
fn write_line(
    out: &mut Writer<'_, u8>,
    chip: Chip,
    position: usize,
    bytes: &[u8],
    found: Option<Known>,
)
    ensures { Puts out.old (line_text chip position bytes.now found) out.new }
{
    text::write_decimal(out, position as u64);
    out.put(b' ');
    text::write_hex(out, bytes);
    out.put(b' ');
    write_meaning(out, chip, found);
    out.put(b'\n');
}

// Writes a line for each step of a sheet. A sheet whose bytes stop being steps of its chip is listed up to there, and the last
// line has the bytes that are left, at most 8.
pub fn write_steps(out: &mut Writer<'_, u8>, sheet: &[u8])
    ensures { Puts out.old (steps_text sheet.now) out.new }
{
    let chip = readback::chip_in(sheet);
    for (position, bytes) in sheet.chunks(8).enumerate() {
        let found = found_in(chip, bytes);
        write_line(out, chip, position, bytes, found);
        if found.is_none() {
            return;
        }
    }
}

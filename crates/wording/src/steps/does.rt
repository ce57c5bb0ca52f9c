// What a step does to a register, in words.
ghost use Rattle.std.specs.Prelude.{◌++◌};
ghost use Rattle.base.specs.Writing.{Puts};
ghost use Rattle.wording.specs.Does.{word_text, register_text, does_text};

use crate::steps::names::name_of;
use base::Writer;
use chip::Chip;
use registers::Access;

// Writes a text and a 32-bit number as eight hex digits after it.
#[tactic(auto, using(base::proofs::Writing::put_more, crate::proofs::Words::word_bytes))]
fn write_word(out: &mut Writer<'_, u8>, before: &[u8], n: u32)
    ensures { Puts out.old (before.now ++ word_text n) out.new }
{
    out.put_all(before);
    text::write_hex(out, &n.to_be_bytes());
}

// Writes a verb, and the name and address of a register after it.
#[tactic(auto, using(base::proofs::Writing::put_more), unfolding(crate::specs::Does::register_text))]
fn write_register(out: &mut Writer<'_, u8>, verb: &[u8], chip: Chip, address: u32)
    ensures { Puts out.old (verb.now ++ register_text chip address) out.new }
{
    out.put_all(verb);
    out.put_all(name_of(chip, address));
    write_word(out, b" 0x", address);
}

// Writes what an access does to its register.
#[tactic(auto, using(base::proofs::Writing::writing), unfolding(crate::specs::Does::does_text))]
pub(crate) fn write_does(out: &mut Writer<'_, u8>, chip: Chip, access: Access)
    ensures { Puts out.old (does_text chip access) out.new }
{
    match access {
        Access::Write(address, value) => {
            write_register(out, b"write ", chip, address);
            write_word(out, b" = 0x", value);
        }
        Access::Change(address, mask, value) => {
            write_register(out, b"change ", chip, address);
            write_word(out, b" bits 0x", mask);
            write_word(out, b" to 0x", value);
        }
        Access::Wait(address, mask, value) => {
            write_register(out, b"wait until ", chip, address);
            write_word(out, b" bits 0x", mask);
            write_word(out, b" are 0x", value);
        }
        Access::Pause(cycles) => {
            out.put_all(b"let ");
            text::write_decimal(out, u64::from(cycles));
            out.put_all(b" cycles pass");
        }
        Access::Nothing => out.put_all(b"no register"),
    }
}

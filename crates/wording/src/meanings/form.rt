// Forms: texts in which `#` stands for the next number in decimal, `$` for the next as a mask in hex and `@` for the next as the
// name of a clock.
ghost use Rattle.std.specs.Prelude.{◌≡◌, get_or, drop};
ghost use Rattle.std.specs.Slice.Iter.{iter_rest};
ghost use Rattle.base.specs.{Choice.bit, Writing.Puts};
ghost use Rattle.wording.specs.Form.{clock_name, mask_text, is_field, piece_of, formed};

use base::Writer;
use std::slice::Iter;
use step::Clock;

// The name of a clock. A step's field is any number; from 10 on there is no clock.
#[tactic(auto, unfolding(crate::specs::Form::clock_rows, crate::specs::Form::clock_name, crate::specs::Rows::row_text))]
fn clock_name(clock: u64) -> &'static [u8]
    ensures { result.now ≡ clock_name clock }
{
    match Clock::ALL.get(clock as usize) {
        Some(clock) => clock.name().as_bytes(),
        None => b"no clock",
    }
}

// Writes the 28 low bits in hex.
#[tactic(auto, using(base::proofs::Writing::put_more), unfolding(crate::specs::Form::mask_text))]
fn write_mask(out: &mut Writer<'_, u8>, mask: u64)
    ensures { Puts out.old (mask_text mask) out.new }
{
    let [.., high, a, b, c] = mask.to_be_bytes();
    out.put(text::hex_digit(high));
    text::write_hex(out, &[a, b, c]);
}

// The next number; 0 where there is none.
fn next(numbers: &mut Iter<'_, u64>) -> u64
    ensures value { result ≡ get_or (iter_rest numbers.old) 0 0 }
    ensures others { iter_rest numbers.new ≡ drop 1 (iter_rest numbers.old) }
{
    numbers.next().copied().unwrap_or(0)
}

// Writes a byte of a form, or the next number where the byte stands for one.
#[tactic(auto, using(std::proofs::lemmas::Bool::Decides::nat_tests), unfolding(crate::specs::Form::piece_of))]
fn write_piece(out: &mut Writer<'_, u8>, c: u8, numbers: &mut Iter<'_, u64>)
    ensures text { Puts out.old (piece_of c (get_or (iter_rest numbers.old) 0 0)) out.new }
    ensures others { iter_rest numbers.new ≡ drop (bit (is_field c)) (iter_rest numbers.old) }
{
    match c {
        b'#' => text::write_decimal(out, next(numbers)),
        b'$' => write_mask(out, next(numbers)),
        b'@' => out.put_all(clock_name(next(numbers))),
        _ => out.put(c),
    }
}

// Writes a form's bytes, with the next number for each byte that stands for one; a missing number is 0.
#[tactic(auto, using(crate::proofs::Forms::steps))]
pub fn write_form(out: &mut Writer<'_, u8>, form: &[u8], ns: &[u64])
    ensures { Puts out.old (formed form.now ns.now) out.new }
{
    let mut numbers = ns.iter();
    for c in form {
        write_piece(out, *c, &mut numbers);
    }
}

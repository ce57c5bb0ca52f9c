// Writes the texts that answers consist of: `bad case`, a refusal, and numbers with spaces.

ghost use Rattle.std.specs.Prelude.{ℕ, ◌≡◌};
ghost use Rattle.base.specs.Writing.{Puts};
ghost use Rattle.text.specs.Reply.{bad_case, refused_text, refused_line, spaced_by, row_text};

use crate::write_decimal;
use base::Writer;

// A program's whole output where its input cannot be read: `refused 24` and a newline.
#[tactic(auto, unfolding(crate::specs::Decimal::decimal_of))]
pub fn unread() -> &'static [u8]
    ensures { result.now ≡ refused_line 24 }
{
    b"refused 24\n"
}

// A type of numbers that fit 64 bits; `number` is the value that `into` answers.
pub trait Number: Copy + Into<u64> {
    ghost number: { Self → ℕ };

    ghost widens: { (x : Self) (n : ℕ) → Self.converts x n → n ≡ number x };
}

impl Number for u32 {
    ghost number = { λ x. x };

    ghost widens = { λ x n e. e };
}

impl Number for u64 {
    ghost number = { λ x. x };

    ghost widens = { λ x n e. e };
}

// Writes `bad case`.
#[tactic(auto, using(base::proofs::Writing::writing))]
pub fn write_bad(out: &mut Writer<'_, u8>)
    ensures { Puts out.old bad_case out.new }
{
    out.put_all(b"bad case");
}

// Writes `refused N`. N is a number and no `Refusal`, as a call of the C interface answers one.
#[tactic(auto, using(base::proofs::Writing::writing))]
pub fn write_refused(out: &mut Writer<'_, u8>, number: u8)
    ensures { Puts out.old (refused_text number) out.new }
{
    out.put_all(b"refused ");
    write_decimal(out, u64::from(number));
}

// Writes `refused N` and a newline.
#[tactic(auto, using(base::proofs::Writing::writing))]
pub fn write_refused_line(out: &mut Writer<'_, u8>, number: u8)
    ensures { Puts out.old (refused_line number) out.new }
{
    write_refused(out, number);
    out.put(b'\n');
}

// Writes numbers, each after a space.
#[tactic(auto, using(base::proofs::Writing::writing))]
pub fn write_spaced<T: Number>(out: &mut Writer<'_, u8>, ns: &[T])
    ensures { Puts out.old (spaced_by T.number ns.now) out.new }
{
    for n in ns {
        out.put(b' ');
        write_decimal(out, (*n).into());
    }
}

// Writes numbers with one space between.
#[tactic(auto, using(base::proofs::Writing::writing))]
pub fn write_row(out: &mut Writer<'_, u8>, first: u64, more: &[u64])
    ensures { Puts out.old (row_text first more.now) out.new }
{
    write_decimal(out, first);
    write_spaced(out, more);
}

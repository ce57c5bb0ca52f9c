// Decodes voltages and dividers, and truncates numbers to their types. A cast that loses bits is not allowed, so each type has its
// own remainder: one function over the three types would need a trait with an impl for each, which is longer than the three.
ghost use Rattle.std.specs.Prelude.{◌≡◌, ◌%◌, ◌^◌, min, Result};
ghost use Rattle.std.specs.Result.{result_unwrap_or};
ghost use Rattle.base.specs.declared.refusal.Refusal.{Refusal};
ghost use Rattle.config.specs.Codes.{div_from};

use base::Refusal;

// The low 8 bits.
pub(crate) fn cut8(x: u64) -> u8
    ensures { result ≡ x % 2 ^ 8 }
{
    (x % 256) as u8
}

// The low 16 bits.
pub(crate) fn cut16(x: u64) -> u16
    ensures { result ≡ x % 2 ^ 16 }
{
    (x % 65536) as u16
}

// The low 32 bits.
pub(crate) fn cut32(x: u64) -> u32
    ensures { result ≡ x % 2 ^ 32 }
{
    (x % 4294967296) as u32
}

// Decodes a divider; a field of two bits holds 4 as 0. A divider is a plain number, so there is no type for a `From`.
pub(crate) fn div_from(code: u64) -> u8
    ensures { result ≡ div_from code % 2 ^ 8 }
{
    if code == 0 { 4 } else { cut8(code) }
}

// Decodes a voltage of either chip; an unknown code gives `other`. A larger code than 255 clamps to 255, which is unknown. It is
// no `From`, as it takes what an unknown code gives.
pub(crate) fn voltage_from<V: Copy + TryFrom<u8, Error = Refusal>>(code: u64, other: V) -> V
    ensures { (r : Result V Refusal) × V.try_from_gives (min code 255) r × (result ≡ result_unwrap_or r other) }
{
    V::try_from(code.min(255) as u8).unwrap_or(other)
}

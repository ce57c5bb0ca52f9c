// Text for the programs: numbers and bytes in hex written into a lent buffer, and lines and words read from one.
#![tactic(auto)]

mod named;
pub mod replies;

ghost use Rattle.std.specs.Prelude.{◌≡◌, ◌%◌, ◌≤◌, ◌<◌, ◌&&◌, length};
ghost use Rattle.base.specs.{Choice.in_range, Answer.answer_of, Writing.Puts};
ghost use Rattle.text.specs.Decimal.{last_digit, decimal_of, all_digits, number_of};
ghost use Rattle.text.specs.Hex.{hex_digit, hex_pair, hex_of, hex_value, are_pairs, pair_values, is_hex_word, HexReading};
ghost use Rattle.text.specs.Words.{up_to, line_number_of};

use base::{Refusal, Writer};
pub use named::{Named, find_named};

// The last decimal digit of n.
fn last_digit(n: u64) -> u8
    ensures { result ≡ last_digit n }
{
    b'0' + (n % 10) as u8
}

// Writes n in decimal, without leading zeros. It calls itself for the digits before the last, which come first; a loop finds the
// last one first, and would need a buffer for them. It is no `write!`: of a formatter the library promises nothing where it fails, and
// not that a writer of ours never does; nor `itoa`, since all stands on the standard library alone (docs/DECISIONS.md, 95).
#[tactic(auto, using(base::proofs::Writing::put_more, crate::proofs::Decimals::decimal_small, crate::proofs::Decimals::decimal_more))]
pub fn write_decimal(out: &mut Writer<'_, u8>, n: u64)
    ensures { Puts out.old (decimal_of n) out.new }
{
    if n >= 10 {
        write_decimal(out, n / 10);
    }
    out.put(last_digit(n));
}

// The last hex digit of b. `char::from_digit` would leave a case for no digit, and a cast.
pub fn hex_digit(b: u8) -> u8
    ensures { result ≡ hex_digit (b % 16) }
{
    let d = b % 16;
    if d < 10 { b'0' + d } else { b'a' - 10 + d }
}

// Writes the two hex digits of b, one after the other: a slice of two would be copied by a call of the C library.
#[tactic(auto, using(base::proofs::Writing::put_more))]
fn write_pair(out: &mut Writer<'_, u8>, b: u8)
    ensures { Puts out.old (hex_pair b) out.new }
{
    out.put(hex_digit(b / 16));
    out.put(hex_digit(b));
}

// Writes the bytes of s in hex, two digits for each byte; `-` where s is empty. It is no `write!`, as above.
pub fn write_hex(out: &mut Writer<'_, u8>, s: &[u8])
    ensures { Puts out.old (hex_of s.now) out.new }
{
    if s.is_empty() {
        return out.put(b'-');
    }
    for b in s {
        write_pair(out, *b);
    }
}

// Whether s is 1 to 10 decimal digits.
fn are_digits(s: &[u8]) -> bool
    ensures { result ≡ (in_range 1 10 (length s.now) && all_digits s.now) }
{
    (1..=10).contains(&s.len()) && s.iter().all(|c| c.is_ascii_digit())
}

// The number that s spells: 1 to 10 decimal digits, at most 4294967295. Refusal: 24 where s spells no such number. `parse` alone
// would take a sign, and more zeros.
#[tactic(auto, using(crate::proofs::Decimals::not_digits))]
pub fn number(s: &[u8]) -> Result<u32, Refusal>
    ensures { answer_of result ≡ number_of s.now }
{
    if !are_digits(s) {
        return Err(Refusal::UnreadableInput);
    }
    let digits = str::from_utf8(s).map_err(|_| Refusal::UnreadableInput)?;
    digits.parse().map_err(|_| Refusal::UnreadableInput)
}

// The index of the first b, which is the count of the bytes before it; the end of s where there is none.
pub fn index_of(s: &[u8], b: u8) -> usize
    ensures value { result ≡ length (up_to b s.now) }
    ensures within { result ≤ length s.now }
{
    s.iter().position(|x| *x == b).unwrap_or(s.len())
}

// The number that the bytes up to the first b, or the end of s, spell. Refusal: 24 where they spell none.
pub fn number_up_to(s: &[u8], b: u8) -> Result<u32, Refusal>
    ensures { answer_of result ≡ number_of (up_to b s.now) }
{
    number(&s[..index_of(s, b)])
}

// The number on the first line; bytes after its newline are ignored. Refusal: 24 where the line is no number.
pub fn line_number(s: &[u8]) -> Result<u32, Refusal>
    ensures { answer_of result ≡ line_number_of s.now }
{
    number_up_to(s, b'\n')
}

// The value of a hex digit of either case; 0 for any other byte.
fn hex_value(c: u8) -> u8
    ensures { (result ≡ hex_value c) × (result < 16) }
{
    char::from(c).to_digit(16).map_or(0, |d| d as u8)
}

// Whether s consists of pairs of hex digits.
fn are_pairs(s: &[u8]) -> bool
    ensures { result ≡ are_pairs s.now }
{
    s.len() % 2 == 0 && s.iter().all(|c| c.is_ascii_hexdigit())
}

// Whether s is a word of hex: `-` alone, or at least one pair.
fn is_hex_word(s: &[u8]) -> bool
    ensures { result ≡ is_hex_word s.now }
{
    match s {
        [] => false,
        [c] => *c == b'-',
        _ => are_pairs(s),
    }
}

// Writes the bytes that the digit pairs of s spell; a last byte without its pair is left out.
fn write_pairs(out: &mut Writer<'_, u8>, s: &[u8])
    ensures { Puts out.old (pair_values s.now) out.new }
{
    let (pairs, _) = s.as_chunks::<2>();
    for [high, low] in pairs {
        out.put(hex_value(*high) * 16 + hex_value(*low));
    }
}

// Reads a word of hex digits, of either case, into the buffer. Where s is no such word, or the buffer is too short for its bytes,
// nothing is written.
pub fn hex_bytes(s: &[u8], buf: &mut [u8]) -> Option<usize>
    ensures { HexReading s.now buf.old result buf.new }
{
    if !is_hex_word(s) {
        return None;
    }
    if buf.len() < s.len() / 2 {
        return None;
    }
    let mut out = Writer::new(buf);
    write_pairs(&mut out, s);
    Some(out.at)
}

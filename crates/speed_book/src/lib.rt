// The book (docs/PLL.md, The 12 MHz book): every setting of a 12 MHz crystal, ordered by output, and a lookup that
// gives the same answer as the search.
#![tactic(auto)]

pub mod page;
mod table;

ghost use Rattle.std.specs.Prelude.{◌≡◌};
ghost use Rattle.pll.specs.Search.{search_of};
ghost use Rattle.base.specs.Answer.{answer_of};
ghost use Rattle.speed_book.specs.Book.{crystal, table, setting_in, line_in};
ghost use Rattle.speed_book.specs.Lookup.{entry_at, first_from, nearer_entry, lookup_in};

use base::Refusal;
use pll::PllConfig;

// The number of settings at 12 MHz.
pub const ENTRIES: usize = 1988;

// The table of a book: an output and its setting as the decimal digits of one number. It is no struct with methods, since a
// program in C holds an open book as numbers and hands it in: so there are `open`, `lookup_in` and `entry_in` beside `book`, `lookup`
// and `entry`, which take no table (docs/DECISIONS.md, 46).
pub type Book = [u64; ENTRIES];

// A line of the book: an output in whole hertz and its setting.
#[derive(Clone, Copy)]
pub struct Line {
    pub hz: u64,
    pub setting: PllConfig,
}

// The entry past the end: its output is more than twice any target, so it is never the nearer one, and no case of an Option is left.
const FAR: u64 = 8589934592_000_0_0;

// The book. It is a static, so that no use stores it anew.
pub fn book() -> &'static Book
    ensures { result.now ≡ table }
{
    &table::BOOK
}

// The table of the book, for a caller that keeps it.
pub fn open() -> Book
    ensures { result ≡ table }
{
    *book()
}

// The setting that an entry encodes.
fn setting_in(entry: u64) -> PllConfig
    ensures { result ≡ setting_in entry }
{
    PllConfig {
        refdiv: 1,
        fbdiv: (entry / 100 % 1000) as u16,
        post_div1: (entry / 10 % 10) as u8,
        post_div2: (entry % 10) as u8,
    }
}

// The line at an index of an open book, from 0; none past the last.
#[tactic(auto, unfolding(crate::specs::Book::line_in))]
pub fn entry_in(book: &Book, k: usize) -> Option<Line>
    ensures { result ≡ line_in book.now k }
{
    let entry = *book.get(k)?;
    Some(Line {
        hz: entry / 100000,
        setting: setting_in(entry),
    })
}

// The line at an index of the book, from 0; none past the last.
pub fn entry(k: usize) -> Option<Line>
    ensures { result ≡ line_in table k }
{
    entry_in(book(), k)
}

// The index of the first entry that is not less than the bound. Halving is written out, and no `partition_point`: any table
// may be handed in, and what halving finds in it is promised.
fn first_from(book: &Book, bound: u64) -> usize
    ensures { result ≡ first_from book.now bound }
{
    let mut low = 0;
    let mut high = ENTRIES;
    while low < high {
        let middle = (low + high) / 2;
        if book[middle] < bound {
            low = middle + 1;
        } else {
            high = middle;
        }
    }
    low
}

// The entry at an index, and `FAR` past the end.
fn entry_at(book: &Book, k: usize) -> u64
    ensures { result ≡ entry_at book.now k }
{
    book.get(k).copied().unwrap_or(FAR)
}

// The nearer of an entry below the target and one that is not; of equally near ones the first in the order of the search.
#[tactic(auto, using(std::proofs::lemmas::Bool::Decides::nat_tests), unfolding(crate::specs::Lookup::nearer_entry))]
fn nearer(target_hz: u32, lower: u64, upper: u64) -> u64
    ensures { result ≡ nearer_entry target_hz lower upper }
{
    let twice = 2 * u64::from(target_hz);
    let both = lower / 100000 + upper / 100000;
    let first = upper % 100000 < lower % 100000;
    if twice < both || twice == both && first {
        lower
    } else {
        upper
    }
}

// Answers the setting for a target frequency at 12 MHz from an open book, as the search does. It never refuses, but it answers
// a Result, since a caller takes it in place of the search.
#[tactic(auto, unfolding(crate::specs::Lookup::lookup_in))]
pub fn lookup_in(book: &Book, target_hz: u32) -> Result<PllConfig, Refusal>
    ensures { answer_of result ≡ lookup_in book.now target_hz }
{
    let above = first_from(book, u64::from(target_hz) * 100000);
    let before = entry_at(book, above.saturating_sub(1));
    let below = first_from(book, before / 100000 * 100000);
    let lower = entry_at(book, below);
    let upper = entry_at(book, above);
    Ok(setting_in(nearer(target_hz, lower, upper)))
}

// Answers the setting for a target frequency at 12 MHz, as the search does; it never refuses.
#[tactic(auto, using(crate::proofs::Lookups::searches))]
pub fn lookup(target_hz: u32) -> Result<PllConfig, Refusal>
    ensures { answer_of result ≡ search_of crystal target_hz }
{
    lookup_in(book(), target_hz)
}

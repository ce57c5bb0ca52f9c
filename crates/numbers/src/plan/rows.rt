// Tests on a row of numbers from index i on.
ghost use Rattle.std.specs.Prelude.{◌≡◌, leb};
ghost use Rattle.numbers.specs.{Fields.nth, Parts.fit_from, Parts.is_part};

use crate::fields::number_at;

// Whether each number is at most its limit, and 0 in an absent part.
pub(crate) fn fits(n: &[u32], i: u8, limits: &[u32], there: bool) -> bool
    ensures { result ≡ fit_from there n.now i limits.now }
{
    limits.iter().enumerate().all(|(k, &limit)| {
        let top = if there { limit } else { 0 };
        number_at(n, usize::from(i) + k) <= top
    })
}

// Whether the numbers are of an optional part: all within their limits where its flag is 1, otherwise all 0.
#[tactic(auto, unfolding(crate::specs::Parts::is_part))]
pub(crate) fn is_part(n: &[u32], i: u8, limits: &[u32]) -> bool
    ensures { result ≡ is_part n.now i limits.now }
{
    fits(n, i, limits, number_at(n, usize::from(i)) == 1)
}

// Whether the number at index i is at most the one at index j.
pub(crate) fn at_most(n: &[u32], i: usize, j: usize) -> bool
    ensures { result ≡ leb (nth n.now i) (nth n.now j) }
{
    number_at(n, i) <= number_at(n, j)
}

// The draws of a trial, from a linear congruential generator, and the target trial, where each draw is a target of
// the search at 12 MHz.
ghost use Rattle.std.specs.Prelude.{◌≡◌};
ghost use Rattle.base.specs.Writing.{Puts};
ghost use Rattle.trial.specs.{Lcg.draw_of, Lcg.top_bit, Targets.target_line, Targets.target_lines};

use crate::CRYSTAL_HZ;
use base::Writer;

// The draw after x.
#[tactic(auto, unfolding(crate::specs::Lcg::draw_of))]
pub fn draw(x: u32) -> u32
    ensures { result ≡ draw_of x }
{
    x.wrapping_mul(1664525).wrapping_add(1013904223)
}

// The top bit of a draw.
pub fn top_bit(x: u32) -> bool
    ensures { result ≡ top_bit x }
{
    2147483648 <= x
}

// Writes the setting for a target on a line. At 12 MHz every target has one.
#[tactic(auto, using(base::proofs::Writing::writing), unfolding(crate::specs::Targets::target_line))]
fn write_target(out: &mut Writer<'_, u8>, x: u32)
    ensures { Puts out.old (target_line x) out.new }
{
    let Ok(p) = pll::find_pll_params(CRYSTAL_HZ, x) else {
        return;
    };
    let posts = [u64::from(p.post_div1), u64::from(p.post_div2)];
    text::replies::write_row(out, u64::from(p.fbdiv), &posts);
    out.put(b'\n');
}

// Writes the setting for each of `count` drawn targets, a line each.
pub fn write_targets(out: &mut Writer<'_, u8>, seed: u32, count: u32)
    ensures { Puts out.old (target_lines seed count) out.new }
{
    let mut x = seed;
    for _ in 0..count {
        x = draw(x);
        write_target(out, x);
    }
}

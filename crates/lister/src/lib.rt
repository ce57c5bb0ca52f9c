// The lister (docs/PLL.md): it writes every setting that gives a target frequency with no remainder, two bytes each.
#![tactic(auto)]

ghost use Rattle.std.specs.Prelude.{◌≡◌, ◌≤◌, [], ◌∷◌, length};
ghost use Rattle.base.specs.Answer.{answer_of};
ghost use Rattle.pll.specs.{Ranges.reference_min, Ranges.feedback_max, Law.VcoPermits, Search.keep};
ghost use Rattle.lister.specs.Lister.{meets, list_of, listed_of, listed_in};
ghost use Rattle.lister.specs.Order.{at_post1, at_feedback, has_product, Puts, IsNew};

use base::Refusal;
use pll::PllConfig;
use pll::feedback::{self, Ends};

// A lent buffer into which settings are put, two bytes each, and the index past them. What does not fit is dropped, but it
// is counted: `base::Writer` would stop at the buffer's end. There are 8540 settings, so the index stays below 20000. That is no
// invariant of the type, as each put moves the index on: only who puts the whole list knows how far. What a divider
// is at most is known where `dividers` answers its ends; a type for it would be made and taken apart in three methods.
#[derive(Drop)]
struct Listing<'a> {
    buf: &'a mut [u8],
    at: usize,
}

impl<'a> Listing<'a> {
    // A listing at the start of the buffer.
    fn new(buf: &'a mut [u8]) -> Listing<'a>
        ensures { IsNew buf.entry result }
    {
        Listing { buf, at: 0 }
    }

    // Puts a setting.
    #[tactic(auto, unfolding(crate::specs::Order::puts, crate::specs::Lister::list_bytes))]
    fn put(&mut self, c: PllConfig)
        requires { (self.old.at ≤ 20000) × (c.fbdiv ≤ feedback_max) × (c.post_div1 ≤ 7) × (c.post_div2 ≤ 7) }
        ensures { Puts self.old (c ∷ []) self.new }
    {
        let word = c.fbdiv * 128 + u16::from(c.post_div1) * 16 + u16::from(c.post_div2) * 2;
        base::put_all(self.buf, self.at, &word.to_be_bytes());
        self.at += 2;
    }

    // Puts the setting with a given feedback divider, post 1 and post product, if there is one.
    #[tactic(auto, using(crate::proofs::Hits::product_kept))]
    fn put_post1(&mut self, fbdiv: u32, post1: u32, product: u32)
        requires { (self.old.at ≤ 20000) × (fbdiv ≤ feedback_max) × (1 ≤ post1) × (post1 ≤ 7) }
        ensures { Puts self.old (keep (has_product product) (at_post1 fbdiv post1)) self.new }
    {
        let post2 = product / post1;
        if (1..=post1).contains(&post2) && product % post1 == 0 {
            self.put(PllConfig {
                refdiv: 1,
                fbdiv: fbdiv as u16,
                post_div1: post1 as u8,
                post_div2: post2 as u8,
            });
        }
    }

    // Puts the settings with a given feedback divider and post product, the greatest post 1 first.
    fn put_posts(&mut self, fbdiv: u32, product: u32)
        requires { (self.old.at ≤ 19000) × (fbdiv ≤ feedback_max) }
        ensures { Puts self.old (keep (has_product product) (at_feedback fbdiv)) self.new }
    {
        for post1 in (1..=7).rev() {
            self.put_post1(fbdiv, post1, product);
        }
    }

    // Puts the settings with a given feedback divider that give the target with no remainder.
    fn put_feedback(&mut self, input_hz: u32, target_hz: u32, fbdiv: u32)
        requires { (self.old.at ≤ 19000) × (reference_min ≤ input_hz) × VcoPermits input_hz fbdiv }
        ensures { Puts self.old (keep (meets input_hz target_hz) (at_feedback fbdiv)) self.new }
    {
        let vco = input_hz * fbdiv;
        if vco.is_multiple_of(target_hz) {
            self.put_posts(fbdiv, vco / target_hz);
        }
    }

    // Puts the whole list, from the lowest permitted feedback divider to the highest.
    fn put_all(&mut self, input_hz: u32, target_hz: u32)
        requires { self.old.at ≡ 0 }
        ensures { Puts self.old (list_of input_hz target_hz) self.new }
    {
        let Ok(Ends { low, high }) = feedback::dividers(input_hz) else {
            return;
        };
        for fbdiv in low..=high {
            self.put_feedback(input_hz, target_hz, fbdiv);
        }
    }
}

// Writes every setting of the search that gives the target with no remainder, the lowest feedback divider first, then
// the greatest post 1, then the greatest post 2, and answers the number of bytes. Refuses with 19 a buffer that is
// too short, and then writes nothing.
pub fn list_exact(input_hz: u32, target_hz: u32, buf: &mut [u8]) -> Result<usize, Refusal>
    ensures result_value { answer_of result ≡ listed_of input_hz target_hz (length buf.old) }
    ensures buf_after { buf.new ≡ listed_in input_hz target_hz buf.old }
{
    // The first pass, over an empty buffer, only counts.
    let mut counted = Listing::new(&mut []);
    counted.put_all(input_hz, target_hz);
    if buf.len() < counted.at {
        return Err(Refusal::ShortBuffer);
    }
    let mut list = Listing::new(buf);
    list.put_all(input_hz, target_hz);
    Ok(list.at)
}

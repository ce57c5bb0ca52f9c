// The search for a setting: it walks down the feedback dividers and keeps the lowest rank.
ghost use Rattle.std.specs.Prelude.{◌≡◌, ◌/◌, ◌≤◌, ◌<◌, min, true};
ghost use Rattle.base.specs.Answer.{value};
ghost use Rattle.pll.specs.Ranges.{reference_min, feedback_max, vco_max};
ghost use Rattle.pll.specs.{Ends.lowest_of, Ends.walked_of, Ends.Among, Law.VcoPermits};
ghost use Rattle.pll.specs.Walk.{PostCode, product, WantedProduct, NearestPosts, score_of, code_rank_of, setting_of};
ghost use Rattle.pll.specs.Walk.{keys, no_rank, LowestRank, Lowered, CandidatesAt, CandidatesTo};

use crate::PllConfig;

// Keys are below this number. So a rank below it has score 0: a setting that meets the target with no remainder.
const KEYS: u64 = 65536;

// Above every rank. It is no Option, since the walk carries the best rank so far as one number (docs/DECISIONS.md, 13).
pub(crate) const NO_RANK: u64 = 1 << 63;

// Two post dividers as one number, three bits each: post 1 times 8 plus post 2. It stays one number, since ranks hold it.
#[derive(Clone, Copy)]
struct Posts {
    code: u32,
    ghost in_range: { PostCode code },
}

impl Posts {
    // The product of the two.
    fn product(self) -> u32
        ensures { (result ≡ product self.code) × (0 < result) × (result ≤ 49) }
    {
        self.code / 8 * (self.code % 8)
    }
}

// A feedback divider, the VCO frequency that it gives, and the target.
#[derive(Clone, Copy)]
struct Stage {
    vco: u32,
    target: u32,
    fbdiv: u32,
    ghost vco_low: { 49 ≤ vco },
    ghost vco_high: { vco ≤ vco_max },
    ghost fbdiv_high: { fbdiv ≤ feedback_max },
}

impl Stage {
    // 0 where the target is met with no remainder, else one more than the distance in whole hertz.
    #[tactic(auto, using(std::proofs::lemmas::Bool::Decides::nat_tests), unfolding(crate::specs::Walk::score_of))]
    fn score(self, posts: Posts) -> u32
        ensures { result ≡ score_of self.vco self.target (product posts.code) }
    {
        let product = posts.product();
        if u64::from(self.target) * u64::from(product) == u64::from(self.vco) {
            return 0;
        }
        (self.vco / product).abs_diff(self.target) + 1
    }

    // The rank of a setting, the lower the better: by the score, and of equal scores the greater dividers first.
    #[tactic(auto, unfolding(crate::specs::Walk::code_rank_of))]
    fn rank(self, posts: Posts) -> u64
        ensures { result ≡ code_rank_of self.vco self.target self.fbdiv posts.code }
    {
        let key = self.fbdiv * 64 + posts.code;
        u64::from(self.score(posts)) * KEYS + (KEYS - 1 - u64::from(key))
    }

    // Whether an output is more than d over the target, and whether it is more than d under it. Neither divides. One
    // test of both sides took 1479 instructions for an exact hit, whose bar is 1400 (docs/SPEED.md, What was tried).
    fn too_high(self, d: u64, posts: Posts) -> bool
        requires { d ≤ 140737488355328 }
        ensures { result ≡ true → d < score_of self.vco self.target (product posts.code) }
    {
        (u64::from(self.target) + d + 1) * u64::from(posts.product()) <= u64::from(self.vco)
    }

    #[tactic(auto, using(crate::proofs::Scores::farther))]
    fn too_low(self, d: u64, posts: Posts) -> bool
        requires { d ≤ 140737488355328 }
        ensures { result ≡ true → d < score_of self.vco self.target (product posts.code) }
    {
        let product = u64::from(posts.product());
        u64::from(self.vco) + d * product < u64::from(self.target) * product
    }

    // The lower of `best` and the rank of a setting, which is not calculated where it is known to be higher.
    #[tactic(auto, unfolding(crate::specs::Walk::code_rank_of))]
    fn nearer(self, higher: bool, best: u64, posts: Posts) -> u64
        requires { higher ≡ true → best / keys < score_of self.vco self.target (product posts.code) }
        ensures { result ≡ min best (code_rank_of self.vco self.target self.fbdiv posts.code) }
    {
        if higher {
            return best;
        }
        best.min(self.rank(posts))
    }

    // The VCO frequency over the target, rounded down and at most 49: the product of the post dividers to look for.
    fn wanted_product(self) -> usize
        ensures { WantedProduct self.vco self.target result }
    {
        self.vco.checked_div(self.target).unwrap_or(49).min(49) as usize
    }
}

// For a product of 0 to 49, the post dividers with the greatest product up to it, and those with the least above it,
// three bits for each divider: 11 gives 0o5262, which is 5 and 2, then 6 and 2. Equal products give the greater post
// 1. No product is up to 0 and none is above 49; 0o11 and 0o77 fill these. An entry is one number, as its digits are the four
// dividers: pairs would only be longer to read.
static NEAREST: [u16; 50] = [
    0o1111, 0o1121, 0o2131, 0o3141, 0o4151, 0o5161, 0o6171, 0o7142, 0o4233, 0o3352, 0o5262, 0o5262,
    0o6272, 0o6272, 0o7253, 0o5344, 0o4463, 0o4463, 0o6354, 0o6354, 0o5473, 0o7364, 0o7364, 0o7364,
    0o6455, 0o5574, 0o5574, 0o5574, 0o7465, 0o7465, 0o6575, 0o6575, 0o6575, 0o6575, 0o6575, 0o7566,
    0o6676, 0o6676, 0o6676, 0o6676, 0o6676, 0o6676, 0o7677, 0o7677, 0o7677, 0o7677, 0o7677, 0o7677,
    0o7677, 0o7777,
];

fn posts_near(product: usize) -> u16
    requires { product ≤ 49 }
    ensures { NearestPosts product result }
{
    NEAREST[product]
}

// The lowest of `best` and the ranks at one feedback divider. Where the target goes q times into the VCO frequency,
// post dividers with a product up to q give the target or more, and the greatest such product is nearest. Products
// above q give less, and the least of them is nearest. For most settings one multiplication shows that they are
// farther than `best`. Input and target are no struct, here as in the lister and the margin: C hands them in as two numbers.
fn best_posts(input_hz: u32, target: u32, fbdiv: u32, best: u64) -> u64
    requires { (reference_min ≤ input_hz) × VcoPermits input_hz fbdiv × (best ≤ no_rank) }
    ensures { Lowered input_hz target (CandidatesAt input_hz fbdiv) best result }
{
    let stage = Stage {
        vco: input_hz * fbdiv,
        target,
        fbdiv,
    };
    let pair = u32::from(posts_near(stage.wanted_product()));
    let more = Posts { code: pair / 64 };
    let less = Posts { code: pair % 64 };
    let d = best / KEYS;
    let now = stage.nearer(stage.too_high(d, more), best, more);
    stage.nearer(stage.too_low(d, less), now, less)
}

// The lowest of `best` and the ranks at the feedback dividers from fbdiv down to `low`. It is a recursion and no loop, since
// the customer asks for one. It takes exactly the dividers that the VCO permits: `walk-takes-permitted` (proofs/Walked). A
// rank with no remainder ends the walk, since no later rank is lower.
pub(crate) fn walk(input_hz: u32, target: u32, fbdiv: u32, low: u32, best: u64) -> u64
    requires among { Among fbdiv (walked_of input_hz) × (lowest_of input_hz ≡ value low) }
    requires keys_le_best { (keys ≤ best) × (best ≤ no_rank) }
    ensures { LowestRank input_hz target (CandidatesTo input_hz fbdiv) best result }
{
    let now = best_posts(input_hz, target, fbdiv, best);
    if now < KEYS {
        return now;
    }
    if fbdiv <= low {
        return now;
    }
    walk(input_hz, target, fbdiv - 1, low, now)
}

// The setting that a rank encodes.
pub(crate) fn setting(rank: u64) -> PllConfig
    ensures { result ≡ setting_of rank }
{
    let key = KEYS - 1 - rank % KEYS;
    PllConfig {
        refdiv: 1,
        fbdiv: (key / 64) as u16,
        post_div1: (key / 8 % 8) as u8,
        post_div2: (key % 8) as u8,
    }
}

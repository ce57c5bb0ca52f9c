// The PLL (docs/PLL.md): whether a setting is valid, which frequency it gives, and the search for a setting.
#![tactic(auto)]

pub mod feedback;
pub mod usb;
mod walk;

ghost use Rattle.std.specs.Prelude.{◌≡◌, true, ◌*◌, ◌/◌, ◌^◌, ◌≤◌, ◌<◌, min};
ghost use Rattle.std.specs.{Option.SomeIff, Bool.then_some};
ghost use Rattle.pll.specs.Setting.{posts_of, reference_of, vco_of, output_hz, dividers_of, valid_of, valid_hz, output_fits, output_of};
ghost use Rattle.pll.specs.Search.{search_of};
ghost use Rattle.base.specs.Answer.{answer_of};

use base::Refusal;

pub const REFERENCE_MIN: u32 = 5000000;

const REFERENCE_MAX: u32 = 800000000;

pub const FEEDBACK_MIN: u16 = 16;

pub const FEEDBACK_MAX: u16 = 320;

pub const VCO_MIN: u32 = 750000000;

pub const VCO_MAX: u32 = 1600000000;

// The four dividers of a PLL.
#[derive(Clone, Copy, PartialEq, Eq)]
pub struct PllConfig {
    pub refdiv: u8,
    pub fbdiv: u16,
    pub post_div1: u8,
    pub post_div2: u8,
}

impl PllConfig {
    // Whether each divider is in its range.
    fn dividers_valid(self) -> bool
        ensures { result ≡ dividers_of self }
    {
        (1..=63).contains(&self.refdiv)
            & (FEEDBACK_MIN..=FEEDBACK_MAX).contains(&self.fbdiv)
            & (1..=7).contains(&self.post_div1)
            & (1..=7).contains(&self.post_div2)
            & (self.post_div2 <= self.post_div1)
    }

    // The product of the post dividers.
    fn posts(self) -> u32
        ensures { result ≡ posts_of self }
    {
        u32::from(self.post_div1) * u32::from(self.post_div2)
    }

    // The reference frequency, rounded down; none where its divider is 0.
    fn reference(self, input_hz: u32) -> Option<u32>
        ensures { SomeIff result (0 < self.refdiv) (reference_of self input_hz) }
    {
        input_hz.checked_div(u32::from(self.refdiv))
    }

    // The VCO frequency; none where the reference divider is 0 or the frequency needs more than 32 bits.
    fn vco(self, input_hz: u32) -> Option<u32>
        ensures { SomeIff result ((0 < self.refdiv) × (vco_of self input_hz < 2 ^ 32)) (vco_of self input_hz) }
    {
        self.reference(input_hz)?.checked_mul(u32::from(self.fbdiv))
    }

    // The VCO frequency of a valid setting: dividers, reference and VCO are in range. The tests do not branch, and the input
    // is divided once: a sheet takes this way for each of its PLLs.
    fn valid_vco(self, input_hz: u32) -> Option<u32>
        ensures { result ≡ then_some (valid_of self input_hz) (vco_of self input_hz) }
    {
        let reference = self.reference(input_hz).unwrap_or(0);
        let vco = u64::from(reference) * u64::from(self.fbdiv);
        let valid = self.dividers_valid()
            & (REFERENCE_MIN..=REFERENCE_MAX).contains(&reference)
            & (u64::from(VCO_MIN)..=u64::from(VCO_MAX)).contains(&vco);
        if valid { Some(vco as u32) } else { None }
    }

    // Whether the setting is valid for an input frequency.
    pub fn is_valid(self, input_hz: u32) -> bool
        ensures { result ≡ valid_of self input_hz }
    {
        self.valid_vco(input_hz).is_some()
    }

    // The output frequency of a valid setting; of any other it counts as 0 (docs/DECISIONS.md, 24).
    pub fn valid_hz(self, input_hz: u32) -> u32
        ensures { result ≡ valid_hz self input_hz }
    {
        self.valid_vco(input_hz).map_or(0, |vco| vco / self.posts())
    }

    // The output frequency with no test of validity; none where a divisor is 0 or a number is too large.
    fn output(self, input_hz: u32) -> Option<u32>
        ensures { result ≡ then_some (output_fits self input_hz) (output_hz self input_hz) }
    {
        let vco = self.vco(input_hz)?;
        let posts = self.post_div1.checked_mul(self.post_div2)?;
        vco.checked_div(u32::from(posts))
    }

    // The output frequency with no test of validity; refuses with 16 where a divisor is 0 or a number is too large.
    pub fn output_frequency(self, input_hz: u32) -> Result<u32, Refusal>
        ensures { answer_of result ≡ output_of self input_hz }
    {
        self.output(input_hz).ok_or(Refusal::NoPllOutput)
    }
}

// Answers the setting for a target frequency: the first with no remainder, else the nearest. Refuses with 15 an input
// that has no permitted feedback divider.
pub fn find_pll_params(input_hz: u32, target_hz: u32) -> Result<PllConfig, Refusal>
    ensures { answer_of result ≡ search_of input_hz target_hz }
{
    let ends = feedback::dividers(input_hz)?;
    let rank = walk::walk(input_hz, target_hz, ends.high, ends.low, walk::NO_RANK);
    Ok(walk::setting(rank))
}

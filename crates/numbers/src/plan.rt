// Reads a plan from its numbers: 48 for the RP2040, 43 for the RP235x (docs/CASES.md, A plan in numbers).
mod part;
mod rows;

ghost use Rattle.std.specs.Prelude.{◌≡◌};
ghost use Rattle.numbers.specs.Plan.{whole_oscillators, whole_clocks, whole_chip, whole_plan, plan_at, plan_numbered};

use crate::fields;
use chip::Chip;
use config::{ChipConfig, ClockConfig, SysClkSrc};
use rows::{fits, is_part};

const U8: u32 = u8::MAX as u32;

const U16: u32 = u16::MAX as u32;

const U32: u32 = u32::MAX;

// Whether the numbers of ring, crystal and PLLs are within their limits; a PLL needs a crystal.
#[tactic(auto, using(std::proofs::lemmas::Bool::Decides::nat_tests), unfolding(crate::specs::Plan::whole_oscillators))]
fn whole_oscillators(n: &[u32]) -> bool
    ensures { result ≡ whole_oscillators n.now }
{
    let ring = is_part(n, 0, &[1, U32, 3, U8, U8, U8, U8, U8, U8, U8, U8, U16]);
    let crystal = is_part(n, 12, &[1, U32, U32]);
    let sys_pll = is_part(n, 15, &[1, U8, U16, U8, U8]);
    let usb_pll = is_part(n, 20, &[1, U8, U16, U8, U8]);
    let fed = rows::at_most(n, 15, 12) & rows::at_most(n, 20, 12);
    ring & (crystal & (sys_pll & (usb_pll & fed)))
}

// Whether the numbers of voltage, settling time and clocks are within their limits.
#[tactic(auto, using(std::proofs::lemmas::Bool::Decides::nat_tests), unfolding(crate::specs::Plan::whole_clocks))]
fn whole_clocks(n: &[u32]) -> bool
    ensures { result ≡ whole_clocks n.now }
{
    let voltage = fits(n, 25, &[15], true);
    let settling = is_part(n, 26, &[1, U32]);
    let reference = fits(n, 28, &[2, U8], true);
    let system = fits(n, 30, &[4], true);
    let peripheral = is_part(n, 33, &[1, 4]);
    let usb = is_part(n, 35, &[1, 3, U8, U8]);
    let adc = is_part(n, 39, &[1, 3, U8, U8]);
    voltage & (settling & (reference & (system & (peripheral & (usb & adc)))))
}

// Whether the row's length, the system divider and the RTC are within the chip's limits.
#[tactic(auto, using(std::proofs::lemmas::Bool::Decides::nat_tests), unfolding(crate::specs::Plan::whole_chip))]
fn whole_chip(chip: Chip, n: &[u32]) -> bool
    ensures { result ≡ whole_chip chip n.now }
{
    match chip {
        Chip::Rp2040 => {
            if n.len() != 48 {
                return false;
            }
            let divider = fits(n, 31, &[U32, U8], true);
            let rtc = is_part(n, 43, &[1, 3, U32, U8, U8]);
            divider & rtc
        }
        Chip::Rp235x => {
            if n.len() != 43 {
                return false;
            }
            fits(n, 31, &[U16, U16], true)
        }
    }
}

// Whether the numbers are of a plan, apart from the voltage code.
fn whole_plan(chip: Chip, n: &[u32]) -> bool
    ensures { result ≡ whole_plan chip n.now }
{
    if !whole_chip(chip, n) {
        return false;
    }
    whole_oscillators(n) & whole_clocks(n)
}

// The plan that the numbers hold, with its chip-specific part; `whole_plan` tests the numbers first.
#[tactic(auto, using(std::proofs::lemmas::Bool::Decides::nat_tests), unfolding(crate::specs::Plan::plan_at))]
fn plan_at(chip: ChipConfig, n: &[u32]) -> ClockConfig
    ensures { result ≡ plan_at chip n.now }
{
    ClockConfig {
        chip,
        rosc: part::ring(n),
        xosc: part::crystal(n),
        ref_clk: part::reference(n),
        sys_clk_src: SysClkSrc::from(u64::from(fields::number_at(n, 30))),
        peri_clk_src: part::peripheral(n),
        usb_clk: part::divided(n, 35),
        adc_clk: part::divided(n, 39),
        voltage_stabilization_delay_us: part::settling(n),
    }
}

// The plan for a chip that these numbers hold, or None.
#[tactic(auto, unfolding(crate::specs::Plan::plan_numbered))]
pub fn plan(chip: Chip, n: &[u32]) -> Option<ClockConfig>
    ensures { result ≡ plan_numbered chip n.now }
{
    if !whole_plan(chip, n) {
        return None;
    }
    Some(plan_at(part::chip(chip, n)?, n))
}

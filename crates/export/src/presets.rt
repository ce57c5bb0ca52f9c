// The presets of the Rust, as the numbers of their plans.
ghost use Rattle.base.specs.Answer.{value, answer_in};
ghost use Rattle.config.specs.Presets.{crystal_plan, rosc_plan, default_plan, system_plan, system_plan_from};
ghost use Rattle.numbers.specs.{Answers.chip_numbered, Answers.dividers_are, Manual.manual_by_code};
ghost use Rattle.export.specs.{Sheet.preset_on, Plan.PlanCall};

use base::Refusal;
use config::ClockConfig;
use numbers::answers;
use numbers::manual::manual;

// Writes the numbers of a plan and answers its chip; a refused plan answers its refusal, and no plan is malformed. By `map_or` the proof
// does not close: the library does not say that a closure that is not called leaves the numbers it holds as they were.
fn write(plan: Option<Result<ClockConfig, Refusal>>, numbers: &mut [u32; 48]) -> u64
    ensures { PlanCall (answer_in plan) numbers.old result numbers.new }
{
    match plan {
        Some(planned) => numbers::read::leave(planned, numbers),
        None => answers::MALFORMED,
    }
}

// Writes the plan of `crystal` for a chip. Malformed for an unknown chip.
#[unsafe(no_mangle)]
pub extern "C" fn dizbaral_crystal(chip: u8, crystal_hz: u32, plan: &mut [u32; 48]) -> u64
    ensures { PlanCall (preset_on (λ on. value (crystal_plan on crystal_hz)) (chip_numbered chip)) plan.old result plan.new }
{
    write(
        answers::chip(chip).map(|on| Ok(ClockConfig::crystal(on, crystal_hz))),
        plan,
    )
}

// Writes the plan of `rosc` for a chip. Malformed for an unknown chip.
#[unsafe(no_mangle)]
pub extern "C" fn dizbaral_rosc(chip: u8, plan: &mut [u32; 48]) -> u64
    ensures { PlanCall (preset_on (λ on. value (rosc_plan on)) (chip_numbered chip)) plan.old result plan.new }
{
    write(
        answers::chip(chip).map(|on| Ok(ClockConfig::rosc(on))),
        plan,
    )
}

// Writes the plan of `default` for a chip. Malformed for an unknown chip.
#[unsafe(no_mangle)]
pub extern "C" fn dizbaral_default(chip: u8, plan: &mut [u32; 48]) -> u64
    ensures { PlanCall (preset_on (λ on. value (default_plan on)) (chip_numbered chip)) plan.old result plan.new }
{
    write(
        answers::chip(chip).map(|on| Ok(ClockConfig::default(on))),
        plan,
    )
}

// Writes the plan of `system_freq` for a chip. Malformed for an unknown chip; it never refuses.
#[unsafe(no_mangle)]
pub extern "C" fn dizbaral_system_freq(chip: u8, hz: u32, plan: &mut [u32; 48]) -> u64
    ensures { PlanCall (preset_on (λ on. system_plan on hz) (chip_numbered chip)) plan.old result plan.new }
{
    write(
        answers::chip(chip).map(|on| ClockConfig::system_freq(on, hz)),
        plan,
    )
}

// Writes the plan of `system_freq_from` for a chip. Refusals: 15, 25; malformed for an unknown chip.
#[unsafe(no_mangle)]
pub extern "C" fn dizbaral_system_freq_from(
    chip: u8,
    crystal_hz: u32,
    hz: u32,
    plan: &mut [u32; 48],
) -> u64
    ensures { PlanCall (preset_on (λ on. system_plan_from on crystal_hz hz) (chip_numbered chip)) plan.old result plan.new }
{
    write(
        answers::chip(chip).map(|on| ClockConfig::system_freq_from(on, crystal_hz, hz)),
        plan,
    )
}

// Writes the plan of `manual_pll`, which is the RP2040's. Refusal: 5; malformed for a code that no voltage has.
#[unsafe(no_mangle)]
pub extern "C" fn dizbaral_manual_pll(
    crystal_hz: u32,
    refdiv: u8,
    fbdiv: u16,
    post_div1: u8,
    post_div2: u8,
    voltage: u8,
    plan: &mut [u32; 48],
) -> u64
    ensures { PlanCall (manual_by_code crystal_hz (dividers_are refdiv fbdiv post_div1 post_div2) voltage) plan.old result plan.new }
{
    let pll = crate::dividers(refdiv, fbdiv, post_div1, post_div2);
    write(manual(crystal_hz, pll, voltage), plan)
}

// The presets of the Rust, as the numbers of their plans.
ghost use Rattle.base.specs.Answer.{value};
ghost use Rattle.config.specs.Presets.{crystal_plan, rosc_plan, default_plan, system_plan, system_plan_from};
ghost use Rattle.numbers.specs.{Answers.chip_numbered, Answers.dividers_are, Manual.manual_by_code};
ghost use Rattle.export.specs.{Sheet.preset_on, Plan.PlanCall};

// Writes the plan of `crystal` for a chip. Malformed for an unknown chip.
#[unsafe(no_mangle)]
pub extern "C" fn dizbaral_crystal(chip: u8, crystal_hz: u32, plan: &mut [u32; 48]) -> u64
    ensures { PlanCall (preset_on (λ on. value (crystal_plan on crystal_hz)) (chip_numbered chip)) plan.old result plan.new }
{
    export::presets::dizbaral_crystal(chip, crystal_hz, plan)
}

// Writes the plan of `rosc` for a chip. Malformed for an unknown chip.
#[unsafe(no_mangle)]
pub extern "C" fn dizbaral_rosc(chip: u8, plan: &mut [u32; 48]) -> u64
    ensures { PlanCall (preset_on (λ on. value (rosc_plan on)) (chip_numbered chip)) plan.old result plan.new }
{
    export::presets::dizbaral_rosc(chip, plan)
}

// Writes the plan of `default` for a chip. Malformed for an unknown chip.
#[unsafe(no_mangle)]
pub extern "C" fn dizbaral_default(chip: u8, plan: &mut [u32; 48]) -> u64
    ensures { PlanCall (preset_on (λ on. value (default_plan on)) (chip_numbered chip)) plan.old result plan.new }
{
    export::presets::dizbaral_default(chip, plan)
}

// Writes the plan of `system_freq` for a chip. Malformed for an unknown chip; it never refuses.
#[unsafe(no_mangle)]
pub extern "C" fn dizbaral_system_freq(chip: u8, hz: u32, plan: &mut [u32; 48]) -> u64
    ensures { PlanCall (preset_on (λ on. system_plan on hz) (chip_numbered chip)) plan.old result plan.new }
{
    export::presets::dizbaral_system_freq(chip, hz, plan)
}

// Writes the plan of `system_freq_from` for a chip. Refusals: 15, 25; malformed for an unknown chip.
#[unsafe(no_mangle)]
pub extern "C" fn dizbaral_system_freq_from(
    chip: u8,
    crystal_hz: u32,
    hz: u32,
    plan: &mut [u32; 48],
) -> u64
    ensures { PlanCall (preset_on (λ on. system_plan_from on crystal_hz hz) (chip_numbered chip)) plan.old result plan.new }
{
    export::presets::dizbaral_system_freq_from(chip, crystal_hz, hz, plan)
}

// Writes the plan of `manual_pll`, which is the RP2040's. Refusal: 5; malformed for a code that no voltage has.
#[unsafe(no_mangle)]
pub extern "C" fn dizbaral_manual_pll(
    crystal_hz: u32,
    refdiv: u8,
    fbdiv: u16,
    post_div1: u8,
    post_div2: u8,
    voltage: u8,
    plan: &mut [u32; 48],
) -> u64
    ensures { PlanCall (manual_by_code crystal_hz (dividers_are refdiv fbdiv post_div1 post_div2) voltage) plan.old result plan.new }
{
    export::presets::dizbaral_manual_pll(
        crystal_hz, refdiv, fbdiv, post_div1, post_div2, voltage, plan,
    )
}

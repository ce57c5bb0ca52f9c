// The archive for programs in C, Rust and Python: each export calls the function of `export` that has its name, and keeps its
// promise. The promises stand here once more, since an archive's functions have contracts of their own.
#![tactic(auto)]

mod bench;
mod presets;
mod read;
mod slots;

ghost use Rattle.std.specs.Prelude.{◌≡◌, length};
ghost use Rattle.base.specs.Answer.{value, answer_of};
ghost use Rattle.divider.specs.Pio.{pio_of};
ghost use Rattle.pll.specs.{Setting.valid_of, Setting.output_of, Search.search_of, Usb.usb_of};
ghost use Rattle.speed_book.specs.{Book.crystal, Book.table, Lookup.lookup_in};
ghost use Rattle.margin.specs.Margin.{margin_of};
ghost use Rattle.config.specs.Presets.{system_plan, system_plan_from};
ghost use Rattle.lister.specs.Lister.{listed_of, listed_in};
ghost use Rattle.bring_up.specs.ComesUp.{longest_wait};
ghost use Rattle.numbers.specs.Answers.{answer_number, itself, setting_number, dividers_are, done, limits_after, chip_numbered, given_number};
ghost use Rattle.numbers.specs.Answers.{voltage_number, divider_numbered, gpout_number};
ghost use Rattle.numbers.specs.{Run.run_number, Run.run_leaves, Run.StartCall, Access.AccessCall};
ghost use Rattle.export.specs.Sheet.{SheetCall, preset_on, plan_on};

use step::MAX_BYTES;

// The PLL setting for a target, as one number. Refusal: 15.
#[unsafe(no_mangle)]
pub extern "C" fn dizbaral_search(input_hz: u32, target_hz: u32) -> u64
    ensures { result ≡ answer_number setting_number (search_of input_hz target_hz) }
{
    export::dizbaral_search(input_hz, target_hz)
}

// The PLL setting for a target from a 12 MHz crystal, by the book. Refusal: 15.
#[unsafe(no_mangle)]
pub extern "C" fn dizbaral_lookup(target_hz: u32) -> u64
    ensures { result ≡ answer_number setting_number (search_of crystal target_hz) }
{
    export::dizbaral_lookup(target_hz)
}

// Writes the 12 MHz book, for `dizbaral_lookup_in`.
#[unsafe(no_mangle)]
pub extern "C" fn dizbaral_open_book(book: &mut speed_book::Book)
    ensures { book.new ≡ table }
{
    export::dizbaral_open_book(book);
}

// The PLL setting for a target, looked up in an open book. Refusal: 15.
#[unsafe(no_mangle)]
pub extern "C" fn dizbaral_lookup_in(book: &speed_book::Book, target_hz: u32) -> u64
    ensures { result ≡ answer_number setting_number (lookup_in book.now target_hz) }
{
    export::dizbaral_lookup_in(book, target_hz)
}

// The PLL setting that gives exactly 48 MHz from a crystal. Refusal: 25.
#[unsafe(no_mangle)]
pub extern "C" fn dizbaral_usb_pll(crystal_hz: u32) -> u64
    ensures { result ≡ answer_number setting_number (usb_of crystal_hz) }
{
    export::dizbaral_usb_pll(crystal_hz)
}

// Writes the nearest lower and higher targets with another setting, 2 ^ 32 where absent; answers 0. Refusal: 15.
#[unsafe(no_mangle)]
pub extern "C" fn dizbaral_target_margin(
    input_hz: u32,
    target_hz: u32,
    limits: &mut [u64; 2],
) -> u64
    ensures value { result ≡ answer_number done (margin_of input_hz target_hz) }
    ensures limits_after { limits.new ≡ limits_after (margin_of input_hz target_hz) limits.old }
{
    export::dizbaral_target_margin(input_hz, target_hz, limits)
}

// Whether the four dividers are valid for an input frequency.
#[unsafe(no_mangle)]
pub extern "C" fn dizbaral_is_valid(
    input_hz: u32,
    refdiv: u8,
    fbdiv: u16,
    post_div1: u8,
    post_div2: u8,
) -> bool
    ensures { result ≡ valid_of (dividers_are refdiv fbdiv post_div1 post_div2) input_hz }
{
    export::dizbaral_is_valid(input_hz, refdiv, fbdiv, post_div1, post_div2)
}

// The output frequency of a PLL in Hz, without a test of validity. Refusal: 16.
#[unsafe(no_mangle)]
pub extern "C" fn dizbaral_output_frequency(
    input_hz: u32,
    refdiv: u8,
    fbdiv: u16,
    post_div1: u8,
    post_div2: u8,
) -> u64
    ensures { result ≡ answer_number itself (output_of (dividers_are refdiv fbdiv post_div1 post_div2) input_hz) }
{
    export::dizbaral_output_frequency(input_hz, refdiv, fbdiv, post_div1, post_div2)
}

// The voltage code and brownout level of a regulator reading. Refusal: 18; an unknown chip is malformed.
#[unsafe(no_mangle)]
pub extern "C" fn dizbaral_core_voltage(chip: u8, reading: u8) -> u64
    ensures { result ≡ given_number (λ on. voltage_number on reading) (chip_numbered chip) }
{
    export::dizbaral_core_voltage(chip, reading)
}

// The PIO clock divider in 256ths. Refusal: 17.
#[unsafe(no_mangle)]
pub extern "C" fn dizbaral_pio_divider(sys_hz: u32, target_hz: u32) -> u64
    ensures { result ≡ answer_number itself (pio_of sys_hz target_hz) }
{
    export::dizbaral_pio_divider(sys_hz, target_hz)
}

// The frequency of a Gpout in Hz. Refusal: 23; an unknown chip or a fraction of too many bits is malformed.
#[unsafe(no_mangle)]
pub extern "C" fn dizbaral_gpout_frequency(
    chip: u8,
    source: u8,
    whole: u32,
    fraction: u16,
    freqs: &[u32; 10],
) -> u64
    ensures { result ≡ gpout_number (divider_numbered whole fraction (chip_numbered chip)) source freqs.now }
{
    export::dizbaral_gpout_frequency(chip, source, whole, fraction, freqs)
}

// Writes the sheet of `system_freq` and answers its length. Refusals: 18, 1 to 14, 19; an unknown chip is malformed.
#[unsafe(no_mangle)]
pub extern "C" fn dizbaral_system_sheet(chip: u8, hz: u32, reading: u8, sheet: &mut [u8]) -> u64
    ensures { SheetCall (preset_on (λ on. system_plan on hz) (chip_numbered chip)) reading sheet.old result sheet.new }
{
    export::dizbaral_system_sheet(chip, hz, reading, sheet)
}

// Writes the sheet of `system_freq_from`. Refusals: 15, 25, 18, 1 to 14, 19; an unknown chip is malformed.
#[unsafe(no_mangle)]
pub extern "C" fn dizbaral_system_sheet_from(
    chip: u8,
    crystal_hz: u32,
    hz: u32,
    reading: u8,
    sheet: &mut [u8],
) -> u64
    ensures { SheetCall (preset_on (λ on. system_plan_from on crystal_hz hz) (chip_numbered chip)) reading sheet.old result sheet.new }
{
    export::dizbaral_system_sheet_from(chip, crystal_hz, hz, reading, sheet)
}

// Writes the sheet of a plan given as numbers. Refusals: 18, 1 to 14, 19; an unknown chip or no plan is malformed.
#[unsafe(no_mangle)]
pub extern "C" fn dizbaral_plan_sheet(chip: u8, plan: &[u32], reading: u8, sheet: &mut [u8]) -> u64
    ensures { SheetCall (plan_on plan.now (chip_numbered chip)) reading sheet.old result sheet.new }
{
    export::dizbaral_plan_sheet(chip, plan, reading, sheet)
}

// Writes every setting that gives the target exactly, two bytes each, and answers the length in bytes. Refusal: 19.
#[unsafe(no_mangle)]
pub extern "C" fn dizbaral_list(input_hz: u32, target_hz: u32, list: &mut [u8]) -> u64
    ensures value { result ≡ answer_number itself (listed_of input_hz target_hz (length list.old)) }
    ensures list_after { list.new ≡ listed_in input_hz target_hz list.old }
{
    export::dizbaral_list(input_hz, target_hz, list)
}

// Starts a runner with a sheet and answers 0; any numbers may be given before. Refusal: 20.
#[unsafe(no_mangle)]
pub extern "C" fn dizbaral_start(
    runner: &mut [u32; 15],
    kept: &mut [u8; MAX_BYTES],
    sheet: &[u8],
) -> u64
    ensures { StartCall runner.old kept.old sheet.now result runner.new kept.new }
{
    export::dizbaral_start(runner, kept, sheet)
}

// One call of the runner: done, passed, waiting, or the word of the step. Refusals: 21, 22, 27, 20; a bad mark is malformed.
#[unsafe(no_mangle)]
pub extern "C" fn dizbaral_run(
    runner: &mut [u32; 15],
    kept: &[u8; MAX_BYTES],
    sheet: &[u8],
    ready: bool,
) -> u64
    ensures value { result ≡ run_number runner.old kept.now sheet.now ready }
    ensures runner_after { runner.new ≡ run_leaves runner.old kept.now sheet.now ready }
{
    export::dizbaral_run(runner, kept, sheet, ready)
}

// Writes address, mask and value of the access of the step at a position; answers its kind. Refusal: 20; a bad chip is malformed.
#[unsafe(no_mangle)]
pub extern "C" fn dizbaral_access(
    chip: u8,
    sheet: &[u8],
    position: u32,
    access: &mut [u32; 3],
) -> u64
    ensures { AccessCall (chip_numbered chip) sheet.now position access.old result access.new }
{
    export::dizbaral_access(chip, sheet, position, access)
}

// The most calls until a run is done, where each wait has at most k unready polls; 2 ^ 32 - 1 for k from 1000000 on.
#[unsafe(no_mangle)]
pub extern "C" fn dizbaral_longest_wait(k: u32) -> u32
    ensures { result ≡ longest_wait k }
{
    export::dizbaral_longest_wait(k)
}

// Cases as text: a line is a question, and its answer is a text (docs/CASES.md).
#![tactic(auto)]

mod calls;
pub mod lines;
mod say;
mod table;
pub mod words;

ghost use Rattle.std.specs.Prelude.{◌≡◌};
ghost use Rattle.cases.specs.{Say.Says, Say.Answered, Cases.case_text, Cases.is_case, Cases.answer_to};

use base::Writer;
use calls::chip_at;
use config::ClockConfig;
use export::dizbaral_core_voltage;
use numbers::answers;
use numbers::fields::{byte_at, pll_at};
use say::{write_found, write_one, write_plan, write_planned};
use table::Case;
use text::find_named;
use words::{Words, first_word};

// Answers a case from its words; a case's first word of hex is SHEET.
fn write_case(out: &mut Writer<'_, u8>, case: Case, words: &Words)
    ensures { Says out.old (case_text case words.now) out.new }
{
    let n = &words.row;
    match case {
        Case::Valid => write_one(out, u64::from(pll_at(n, 1).is_valid(n[0]))),
        Case::Output => write_one(
            out,
            answers::number(pll_at(n, 1).output_frequency(n[0]).map(u64::from)),
        ),
        Case::Search => write_found(out, pll::find_pll_params(n[0], n[1])),
        Case::UsbPll => write_found(out, pll::usb::find_usb_pll(n[0])),
        Case::Book => write_found(out, speed_book::lookup(n[0])),
        Case::Margin => say::write_margin(out, margin::target_margin(n[0], n[1])),
        Case::Voltage => say::write_level(out, dizbaral_core_voltage(byte_at(n, 0), byte_at(n, 1))),
        Case::Pio => write_one(out, export::dizbaral_pio_divider(n[0], n[1])),
        Case::Gpout => calls::write_gpout(out, n),
        Case::Wait => write_one(out, u64::from(bring_up::longest_wait(n[0]))),
        Case::List => calls::write_list(out, n),
        Case::Crystal => write_plan(out, ClockConfig::crystal(chip_at(n), n[1])),
        Case::Rosc => write_plan(out, ClockConfig::rosc(chip_at(n))),
        Case::Default => write_plan(out, ClockConfig::default(chip_at(n))),
        Case::System => write_planned(out, ClockConfig::system_freq(chip_at(n), n[1])),
        Case::SystemFrom => write_planned(
            out,
            ClockConfig::system_freq_from(chip_at(n), n[1], n[2]),
        ),
        Case::Manual => calls::write_manual(out, n),
        Case::Sheet => calls::write_sheet(out, words),
        Case::Read => write_planned(out, readback::read_sheet(words.sheet_at(0), byte_at(n, 1))),
        Case::Start => calls::write_start(out, words),
        Case::Run => calls::write_run(out, words),
        Case::BenchStart => calls::write_bench_start(out, words),
        Case::BenchRun => calls::write_bench_run(out, words),
        Case::Sleep => calls::write_change(out, false, n),
        Case::Wake => calls::write_change(out, true, n),
    }
}

// Whether a word is the name of a case.
pub fn is_case(word: &[u8]) -> bool
    ensures { result ≡ is_case word.now }
{
    find_named(&Case::ALL, word).is_some()
}

// Writes the answer to a line; of a line that is no case it is malformed.
#[tactic(auto, unfolding(crate::specs::Cases::answer_to))]
pub fn write_answer(out: &mut Writer<'_, u8>, line: &[u8])
    ensures { Says out.old (answer_to line.now) out.new }
{
    let (name, rest) = first_word(line);
    let Some(case) = find_named(&Case::ALL, name) else {
        return write_one(out, answers::MALFORMED);
    };
    let mut words = Words::unread();
    if words.fill(case.letters(), rest) {
        write_case(out, case, &words);
    } else {
        write_one(out, answers::MALFORMED);
    }
}

// Writes the answer to a line at the buffer's start and answers the index after it; a refusal is text there too.
pub fn answer(line: &[u8], out: &mut [u8]) -> usize
    ensures { Answered out.old (answer_to line.now) result out.new }
{
    let mut out = Writer::new(out);
    write_answer(&mut out, line);
    out.at
}

// What people read: a sheet in words, which is a line for each setting, what the last release leaves out and the plan's numbers; and
// in modules its steps, the meanings of refusals and settings, and the verdict on two plans.
#![tactic(auto)]

pub mod commands;
pub mod meanings;
pub mod orders;
pub mod phrases;
pub mod steps;
pub mod verdict;

ghost use Rattle.base.specs.Writing.{Puts};
ghost use Rattle.wording.specs.Words.{line_of, setting_line, setting_lines, left_out_text, plan_line, words_of};
ghost use Rattle.wording.specs.Words.{refused_lines, explain_text};

use base::Writer;
use config::ClockConfig;
use numbers::plan_row::{self, Row};
use phrases::clocks::{self, Absent};
use phrases::sources;
use settings::{Frequencies, Settings};

// The line of setting k, in the order of docs/FORMAT.md, Settings that count; nothing from 13 on. A setting goes by its number,
// as the bits of a mask of differences do, and each number is taken.
#[tactic(auto, using(base::proofs::Writing::writing, crate::proofs::Lines::line_past), unfolding(crate::specs::Words::line_of))]
fn write_line(out: &mut Writer<'_, u8>, k: u8, plan: ClockConfig, s: Settings, f: Frequencies)
    ensures { Puts out.old (line_of k plan s f) out.new }
{
    let chip = s.chip;
    match k {
        0 => sources::write_chip(out, chip.model),
        1 => sources::write_ring(out, s.rosc),
        2 => sources::write_crystal(out, s.xosc),
        3 => sources::write_pll(
            out,
            b"pll_sys",
            f.sources.pll_sys,
            plan_row::sys_pll(plan.xosc),
        ),
        4 => sources::write_pll(
            out,
            b"pll_usb",
            f.sources.pll_usb,
            plan_row::usb_pll(plan.xosc),
        ),
        5 => sources::write_voltage(out, chip.model, chip.volts.code),
        6 => sources::write_settling(out, s.settling),
        7 => clocks::write_ref(out, f.reference, s.reference),
        8 => {
            let scale = chip.model.facts().scale;
            clocks::write_sys(out, f.sys, s.sys, chip.whole, chip.fraction, scale)
        }
        9 => clocks::write_peri(out, f.peri, s.peri),
        10 => clocks::write_aux(out, b"usb", f.usb, s.usb),
        11 => clocks::write_aux(out, b"adc", f.adc, s.adc),
        12 => clocks::write_rtc(out, f.rtc, chip.rtc),
        _ => {}
    }
}

// Writes the line of setting k of a plan at a reading; nothing from 13 on. The two are no struct, as `settings_of` takes them apart.
#[tactic(auto, unfolding(crate::specs::Words::setting_line))]
pub fn write_setting(out: &mut Writer<'_, u8>, k: u8, plan: ClockConfig, reading: u8)
    ensures { Puts out.old (setting_line k plan reading) out.new }
{
    let s = settings::settings_of(plan, reading);
    write_line(out, k, plan, s, settings::frequencies_of(s));
}

// The lines of the thirteen settings.
#[tactic(auto, using(crate::proofs::Lines::settings))]
fn write_settings(out: &mut Writer<'_, u8>, plan: ClockConfig, reading: u8)
    ensures { Puts out.old (setting_lines plan reading 13) out.new }
{
    for k in 0..13 {
        write_setting(out, k, plan, reading);
    }
}

// The blocks that the last release leaves out.
#[tactic(auto, unfolding(crate::specs::Words::left_out_text))]
fn write_left_out(out: &mut Writer<'_, u8>, s: Settings)
    ensures { Puts out.old (left_out_text s) out.new }
{
    let no = Absent {
        chip: s.chip.model,
        peri: s.peri.is_none(),
        usb: s.usb.is_none(),
        adc: s.adc.is_none(),
        rtc: s.chip.rtc.is_none(),
    };
    clocks::write_left_out(out, no);
}

// The line `plan` with the plan's numbers.
#[tactic(auto, using(base::proofs::Writing::writing), unfolding(crate::specs::Words::plan_line))]
fn write_plan(out: &mut Writer<'_, u8>, plan: ClockConfig)
    ensures { Puts out.old (plan_line plan) out.new }
{
    out.put_all(b"plan");
    text::replies::write_spaced(out, Row::of(plan).as_slice());
    out.put(b'\n');
}

// A plan at a reading in words.
#[tactic(auto, using(base::proofs::Writing::writing), unfolding(crate::specs::Words::words_of))]
fn write_words(out: &mut Writer<'_, u8>, plan: ClockConfig, reading: u8)
    ensures { Puts out.old (words_of plan reading) out.new }
{
    write_settings(out, plan, reading);
    write_left_out(out, settings::settings_of(plan, reading));
    write_plan(out, plan);
}

// Writes a refusal's number on a line, and on the next its meaning after the name of what is refused. Any number may be given,
// where a `Refusal` would admit fewer.
#[tactic(auto, using(base::proofs::Writing::writing), unfolding(crate::specs::Words::refused_lines))]
pub fn write_refused(out: &mut Writer<'_, u8>, what: &[u8], number: u8)
    ensures { Puts out.old (refused_lines what.now number) out.new }
{
    text::replies::write_refused(out, number);
    out.put(b'\n');
    out.put_all(what);
    meanings::write_refusal(out, number);
    out.put(b'\n');
}

// Writes the sheet that was written at a reading in words, or its refusal, 18 or 26, with its meaning.
#[tactic(auto, unfolding(crate::specs::Words::explain_text))]
pub fn write_explanation(out: &mut Writer<'_, u8>, reading: u8, sheet: &[u8])
    ensures { Puts out.old (explain_text reading sheet.now) out.new }
{
    match readback::read_sheet(sheet, reading) {
        Ok(plan) => write_words(out, plan, reading),
        Err(why) => write_refused(out, b"", u8::from(why)),
    }
}

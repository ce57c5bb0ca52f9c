// Delivered compared with ordered: whether a sheet is the ordered plan's, and where not, in which settings the two differ.

ghost use Rattle.std.specs.Prelude.{◌≡◌};
ghost use Rattle.base.specs.{Writing.Puts, Answer.answer_of};
ghost use Rattle.wording.specs.Differs.{part_text, part_texts, hz_of, plan_hz, clock_text, clock_texts, differs_text};
ghost use Rattle.wording.specs.Verdict.{by_bits, compared, verdict_text, answer_by_number, check_text};

use crate::{meanings, write_refused, write_setting};
use base::{Refusal, Writer};
use config::ClockConfig;
use settings::Frequencies;

// The plan of a sheet that was delivered and the plan that was ordered, at a reading. The definitions take the three one by one,
// since the theorems speak of each.
#[derive(Clone, Copy)]
struct Plans {
    reading: u8,
    delivered: ClockConfig,
    ordered: ClockConfig,
}

impl Plans {
    // The name of setting k and its two lines, where its bit is set.
    #[tactic(auto, using(base::proofs::Writing::writing), unfolding(crate::specs::Differs::part_text))]
    fn write_part(&self, out: &mut Writer<'_, u8>, mask: u32, k: u8)
        ensures { Puts out.old (part_text mask k self.now.reading self.now.delivered self.now.ordered) out.new }
    {
        if meanings::has_bit(mask, k) {
            meanings::write_part_name(out, k);
            out.put_all(b"\n  delivered: ");
            write_setting(out, k, self.delivered, self.reading);
            out.put_all(b"  ordered: ");
            write_setting(out, k, self.ordered, self.reading);
        }
    }

    // The texts of the thirteen settings.
    #[tactic(auto, using(crate::proofs::Texts::parts))]
    fn write_parts(&self, out: &mut Writer<'_, u8>, mask: u32)
        ensures { Puts out.old (part_texts mask self.now.reading self.now.delivered self.now.ordered 13) out.new }
    {
        for k in 0..13 {
            self.write_part(out, mask, k);
        }
    }

    // The settings that differ, delivered and ordered, and the clocks that run at another frequency.
    #[tactic(auto, using(base::proofs::Writing::writing), unfolding(crate::specs::Differs::differs_text))]
    fn write_differs(&self, out: &mut Writer<'_, u8>, mask: u32)
        ensures { Puts out.old (differs_text mask self.now.reading self.now.delivered self.now.ordered) out.new }
    {
        out.put_all(b"differs\n");
        self.write_parts(out, mask);
        let delivered = plan_hz(self.delivered, self.reading);
        let ordered = plan_hz(self.ordered, self.reading);
        write_clocks(out, &delivered, &ordered);
    }

    // The verdict on two plans that are accepted, by the settings that differ.
    fn write_by_bits(&self, out: &mut Writer<'_, u8>, mask: u32)
        ensures { Puts out.old (verdict_text self.now.reading (by_bits mask self.now.delivered self.now.ordered)) out.new }
    {
        if mask == 0 {
            out.put_all(b"as ordered\n");
        } else {
            self.write_differs(out, mask);
        }
    }

    // The verdict on the two plans: the order is refused, or they agree, or they differ.
    #[tactic(auto, using(crate::proofs::Compared::refused_order, crate::proofs::Compared::accepted_order))]
    fn write_compared(&self, out: &mut Writer<'_, u8>)
        ensures { Puts out.old (verdict_text self.now.reading (compared self.now.reading self.now.delivered self.now.ordered)) out.new }
    {
        let asked = settings::settings_of(self.ordered, self.reading);
        match refusals::examine(asked, self.reading) {
            Err(why) => write_refused(out, b"order: ", u8::from(why)),
            Ok(_) => {
                let was = settings::settings_of(self.delivered, self.reading);
                self.write_by_bits(out, meanings::differences(was, asked));
            }
        }
    }
}

// The ten frequencies in the order of their clocks.
fn hz_of(f: Frequencies) -> [u64; 10]
    ensures { result ≡ hz_of f }
{
    let from = f.sources;
    [
        u64::from(from.rosc),
        u64::from(from.xosc),
        u64::from(from.pll_sys),
        u64::from(from.pll_usb),
        u64::from(f.reference),
        f.sys,
        f.peri,
        u64::from(f.usb),
        u64::from(f.adc),
        f.rtc,
    ]
}

// The ten frequencies of a plan at a reading.
#[tactic(auto, unfolding(crate::specs::Differs::plan_hz))]
fn plan_hz(plan: ClockConfig, reading: u8) -> [u64; 10]
    ensures { result ≡ plan_hz plan reading }
{
    hz_of(settings::frequencies_of(settings::settings_of(plan, reading)))
}

// A clock's line, where the two frequencies are not the same. The clock is the number that a form names; a `Clock` would only be
// turned into it.
#[tactic(auto, using(base::proofs::Writing::put_none), unfolding(crate::specs::Differs::clock_text))]
fn write_clock(out: &mut Writer<'_, u8>, clock: u64, delivered: u64, ordered: u64)
    ensures { Puts out.old (clock_text clock delivered ordered) out.new }
{
    if delivered != ordered {
        let form = b"clock @: delivered # Hz, ordered # Hz\n";
        meanings::write_form(out, form, &[clock, delivered, ordered]);
    }
}

// The lines of the ten clocks.
#[tactic(auto, using(crate::proofs::Texts::clocks))]
fn write_clocks(out: &mut Writer<'_, u8>, delivered: &[u64; 10], ordered: &[u64; 10])
    ensures { Puts out.old (clock_texts delivered.now ordered.now 10) out.new }
{
    for (clock, (was, asked)) in delivered.iter().zip(ordered).enumerate() {
        write_clock(out, clock as u64, *was, *asked);
    }
}

// Writes the verdict on a sheet that was written at a reading: `as ordered`, `differs` and the settings that differ, or the
// refusal of the sheet, 18 or 26, or of the order, by its number; any number is told.
#[tactic(auto, unfolding(crate::specs::Verdict::verdict_of, crate::specs::Verdict::check_text))]
pub fn write_verdict_by_number(
    out: &mut Writer<'_, u8>,
    reading: u8,
    sheet: &[u8],
    order: Result<ClockConfig, u8>,
)
    ensures { Puts out.old (check_text reading sheet.now (answer_by_number order)) out.new }
{
    match (readback::read_sheet(sheet, reading), order) {
        (Ok(delivered), Ok(ordered)) => Plans {
            reading,
            delivered,
            ordered,
        }
        .write_compared(out),
        (Err(why), _) => write_refused(out, b"sheet: ", u8::from(why)),
        (_, Err(number)) => write_refused(out, b"order: ", number),
    }
}

// The same of an order whose refusal is one of docs/FORMAT.md.
pub fn write_verdict(
    out: &mut Writer<'_, u8>,
    reading: u8,
    sheet: &[u8],
    order: Result<ClockConfig, Refusal>,
)
    ensures { Puts out.old (check_text reading sheet.now (answer_of order)) out.new }
{
    write_verdict_by_number(out, reading, sheet, order.map_err(u8::from));
}

// Writes a plan as the numbers that cases and exported calls use: 48 for the RP2040, 43 for the RP235x.
mod rows;

ghost use Rattle.std.specs.Prelude.{◌≡◌};
ghost use Rattle.base.specs.{Placed.Placed, Writing.Puts};
ghost use Rattle.numbers.specs.Row.{oscillator_row, clock_row, rtc_numbers, plan_row};

use base::Writer;
use config::{ChipConfig, ClockConfig, RoscConfig, XoscConfig};
pub use rows::{sys_pll, usb_pll};
use std::marker::Model;

// Puts the numbers of ring, crystal and PLLs.
#[tactic(auto, using(base::proofs::Writing::put_more), unfolding(crate::specs::Row::oscillator_row))]
fn put_oscillators(row: &mut Writer<'_, u32>, ring: Option<RoscConfig>, crystal: Option<XoscConfig>)
    ensures { Puts row.old (oscillator_row ring crystal) row.new }
{
    row.put_all(&rows::ring(ring));
    row.put_all(&rows::crystal(crystal));
    row.put_all(&rows::pll(rows::sys_pll(crystal)));
    row.put_all(&rows::pll(rows::usb_pll(crystal)));
}

// Puts the numbers of voltage, settling time and clocks.
#[tactic(auto, using(base::proofs::Writing::put_more), unfolding(crate::specs::Row::clock_row))]
fn put_clocks(row: &mut Writer<'_, u32>, plan: ClockConfig)
    ensures { Puts row.old (clock_row plan) row.new }
{
    let chip = plan.chip.settings();
    row.put_all(&rows::first(
        chip.volts.code,
        plan.voltage_stabilization_delay_us,
        plan.ref_clk,
    ));
    row.put_all(&rows::sys(plan.sys_clk_src, chip.whole, chip.fraction));
    row.put_all(&rows::peri(plan.peri_clk_src));
    row.put_all(&rows::aux(plan.usb_clk));
    row.put_all(&rows::aux(plan.adc_clk));
}

// Puts the numbers of the RTC clock; the RP235x has none.
#[tactic(auto, using(base::proofs::Writing::put_none))]
fn put_rtc(row: &mut Writer<'_, u32>, chip: ChipConfig)
    ensures { Puts row.old (rtc_numbers chip) row.new }
{
    if let ChipConfig::Rp2040(on) = chip {
        row.put_all(&rows::rtc(on.rtc_clk));
    }
}

// Puts the plan's numbers.
#[tactic(auto, using(base::proofs::Writing::put_more), unfolding(crate::specs::Row::plan_row))]
fn put_parts(row: &mut Writer<'_, u32>, plan: ClockConfig)
    ensures { Puts row.old (plan_row plan) row.new }
{
    put_oscillators(row, plan.rosc, plan.xosc);
    put_clocks(row, plan);
    put_rtc(row, plan.chip);
}

// Writes the plan's numbers and answers how many are written; those past the row's end are dropped.
pub fn put_plan(row: &mut [u32], plan: ClockConfig) -> usize
    ensures { Placed row.old 0 (plan_row plan) result row.new }
{
    let mut out = Writer::new(row);
    put_parts(&mut out, plan);
    out.at
}

// The numbers of a plan. There is no heap, so an array holds them, of which the first `count` are used. It is no `BoundedList`,
// which is filled by pushes: a writer puts these at once.
#[derive(Drop)]
pub struct Row {
    numbers: [u32; 48],
    count: usize,
}

impl Model for Row {
    ghost use Rattle.std.specs.Prelude.{ℕ, List, take, ◌≤◌};

    ghost Value = { List ℕ };

    ghost view = { λ r. take r.count r.numbers };

    ghost invariant = { λ r. r.count ≤ 48 };
}

impl Row {
    // The numbers of a plan.
    pub fn of(plan: ClockConfig) -> Self
        ensures { result ≡ plan_row plan }
    {
        let mut numbers = [0; 48];
        let count = put_plan(&mut numbers, plan);
        Row { numbers, count }
    }

    // The numbers in order.
    pub fn as_slice(&self) -> &[u32]
        ensures { result.now ≡ self.now }
    {
        &self.numbers[..self.count]
    }
}

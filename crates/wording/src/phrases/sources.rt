// The lines of the chip, the oscillators, the PLLs, the voltage and its settling step.
ghost use Rattle.std.specs.Prelude.{◌≡◌};
ghost use Rattle.base.specs.Writing.{Puts};
ghost use Rattle.wording.specs.Lines.{chip_line, ring_line, crystal_line, pll_line, millivolts, voltage_line, settling_line};

use crate::meanings::write_form;
use crate::phrases::names::write_named;
use base::Writer;
use chip::Chip;
use config::RoscConfig;
use pll::PllConfig;
use settings::Crystal;

// Writes the line of the chip.
#[tactic(auto, using(base::proofs::Writing::writing), unfolding(crate::specs::Lines::chip_line))]
pub fn write_chip(out: &mut Writer<'_, u8>, chip: Chip)
    ensures { Puts out.old (chip_line chip) out.new }
{
    match chip {
        Chip::Rp2040 => out.put_all(b"chip rp2040\n"),
        Chip::Rp235x => out.put_all(b"chip rp235x\n"),
    }
}

// Writes the line of the ring oscillator: frequency, range, strengths and divider.
#[tactic(auto, using(base::proofs::Writing::writing), unfolding(crate::specs::Lines::ring_line))]
pub fn write_ring(out: &mut Writer<'_, u8>, ring: Option<RoscConfig>)
    ensures { Puts out.old (ring_line ring) out.new }
{
    match ring {
        Some(on) => {
            let d = on.drive_strength;
            write_named(
                out,
                b"rosc # Hz, range ",
                u64::from(on.hz),
                on.range,
                b", strengths # # # # # # # #, divider #\n",
                &[
                    u64::from(d.s0),
                    u64::from(d.s1),
                    u64::from(d.s2),
                    u64::from(d.s3),
                    u64::from(d.s4),
                    u64::from(d.s5),
                    u64::from(d.s6),
                    u64::from(d.s7),
                    u64::from(on.div),
                ],
            )
        }
        None => out.put_all(b"rosc absent\n"),
    }
}

// Writes the line of the crystal: frequency and startup delay in units of 256 cycles.
#[tactic(auto, using(base::proofs::Writing::writing), unfolding(crate::specs::Lines::crystal_line))]
pub fn write_crystal(out: &mut Writer<'_, u8>, crystal: Option<Crystal>)
    ensures { Puts out.old (crystal_line crystal) out.new }
{
    match crystal {
        Some(on) => write_form(
            out,
            b"xosc # Hz, startup # x 256 cycles\n",
            &[u64::from(on.hz), on.delay],
        ),
        None => out.put_all(b"xosc absent\n"),
    }
}

// Writes the line of a PLL by its name: output in Hz and dividers.
#[tactic(auto, using(base::proofs::Writing::writing), unfolding(crate::specs::Lines::pll_line))]
pub fn write_pll(out: &mut Writer<'_, u8>, name: &[u8], hz: u32, pll: Option<PllConfig>)
    ensures { Puts out.old (pll_line name.now hz pll) out.new }
{
    out.put_all(name);
    match pll {
        Some(on) => write_form(
            out,
            b" # Hz, refdiv #, fbdiv #, post dividers # and #\n",
            &[
                u64::from(hz),
                u64::from(on.refdiv),
                u64::from(on.fbdiv),
                u64::from(on.post_div1),
                u64::from(on.post_div2),
            ],
        ),
        None => out.put_all(b" absent\n"),
    }
}

// The core voltage of a code, in mV. The code is a number, as `Volts` has it for both chips.
#[tactic(auto, unfolding(crate::specs::Lines::millivolts))]
fn millivolts(chip: Chip, code: u8) -> u64
    ensures { result ≡ millivolts chip code }
{
    match (chip, code) {
        (Chip::Rp2040, 0) => 800,
        _ => 550 + 50 * u64::from(code),
    }
}

// Writes the line of the core voltage: mV and code, which is a number, as in `millivolts`.
#[tactic(auto, using(base::proofs::Writing::writing), unfolding(crate::specs::Lines::voltage_line))]
pub fn write_voltage(out: &mut Writer<'_, u8>, chip: Chip, code: u8)
    ensures { Puts out.old (voltage_line chip code) out.new }
{
    write_form(
        out,
        b"voltage # mV, code #\n",
        &[millivolts(chip, code), u64::from(code)],
    )
}

// Writes the line of the settling step: its cycles.
#[tactic(auto, using(base::proofs::Writing::writing), unfolding(crate::specs::Lines::settling_line))]
pub fn write_settling(out: &mut Writer<'_, u8>, settling: Option<u64>)
    ensures { Puts out.old (settling_line settling) out.new }
{
    match settling {
        Some(n) => write_form(out, b"settling # cycles\n", &[n]),
        None => out.put_all(b"settling absent\n"),
    }
}

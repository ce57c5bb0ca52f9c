// Reads the settings from the steps of a sheet, part by part in the order of the sheet. A number that is too large for its type
// is truncated; this is safe, as the caller writes the plan again and compares the bytes.
ghost use Rattle.std.specs.Prelude.{◌≡◌};
ghost use Rattle.sheet.specs.Read.{settings_from};
ghost use Rattle.readback.specs.Cut.{cut_settings};

use crate::held::past;
use crate::{clocks, oscillators};
use settings::Settings;
use step::{Kind, Step};

// The settings of the steps; the nine steps of the head, the stores of `xosc`, `pll_sys` and `pll_usb` and the tick are skipped.
pub(crate) fn settings_in(steps: &[Step], reading: u8) -> Settings
    ensures { result ≡ cut_settings (settings_from reading steps.now) }
{
    let (on, rest) = oscillators::read_chip(steps);
    let facts = on.facts();
    let (rosc, rest) = oscillators::read_ring(past(rest, 9), facts.pass);
    let (voltage, rest) = oscillators::read_voltage(rest, facts.voltage, reading);
    let (xosc, rest) = oscillators::read_crystal(rest);
    let (reference, rest) = clocks::read_ref(past(rest, 3));
    let (sys, rest) = clocks::read_sys(past(rest, clocks::ticks(on)));
    let (peri, rest) = clocks::read_peri(rest);
    let (usb, rest) = clocks::read_aux(rest, Kind::UsbDivider);
    let (adc, rest) = clocks::read_aux(rest, Kind::AdcDivider);
    Settings {
        chip: clocks::read_chip_settings(rest, on, voltage.code, sys),
        rosc,
        xosc,
        settling: voltage.settling,
        reference,
        sys: sys.src,
        peri,
        usb,
        adc,
    }
}

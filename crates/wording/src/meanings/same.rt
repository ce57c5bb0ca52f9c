// Whether two plans agree in each part of their settings.
ghost use Rattle.std.specs.Prelude.{◌≡◌};
ghost use Rattle.wording.specs.{Parts.ring_numbers, Parts.parts_of, Inside.agree, Inside.agreeing};

use config::RoscConfig;
use settings::Settings;

// Whether the two have the same ring, or neither has one. It goes by cases, so that the check of a wrong comparison of two rings
// shows the number that differs.
fn same_ring(a: Option<RoscConfig>, b: Option<RoscConfig>) -> bool
    ensures { result ≡ agree (ring_numbers a) (ring_numbers b) }
{
    match (a, b) {
        (Some(ring), Some(other)) => ring == other,
        (None, None) => true,
        _ => false,
    }
}

// Whether the two have the same chip, ring, crystal, system PLL, USB PLL, voltage code, settling step, reference, system,
// peripheral, USB, ADC and RTC clock, in the order of docs/FORMAT.md, Settings that count. A PLL is absent with its crystal. One `==`
// of the settings would be no plainer: the answer names the parts that differ, by a bit for each.
pub(crate) fn same_parts(a: Settings, b: Settings) -> [bool; 13]
    ensures { result ≡ agreeing (parts_of a) (parts_of b) }
{
    [
        a.chip.model == b.chip.model,
        same_ring(a.rosc, b.rosc),
        a.xosc.map(|x| (x.hz, x.delay)) == b.xosc.map(|x| (x.hz, x.delay)),
        a.xosc.and_then(|x| x.sys) == b.xosc.and_then(|x| x.sys),
        a.xosc.and_then(|x| x.usb) == b.xosc.and_then(|x| x.usb),
        a.chip.volts.code == b.chip.volts.code,
        a.settling == b.settling,
        a.reference == b.reference,
        (a.sys, a.chip.whole, a.chip.fraction) == (b.sys, b.chip.whole, b.chip.fraction),
        a.peri == b.peri,
        a.usb == b.usb,
        a.adc == b.adc,
        a.chip.rtc == b.chip.rtc,
    ]
}

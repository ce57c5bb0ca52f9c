// Reads the clocks and the chip-specific part of a plan from the steps of a sheet.
ghost use Rattle.std.specs.Prelude.{◌≡◌};
ghost use Rattle.config.specs.{ChipSettings.chip_of, Codes.chip_from};
ghost use Rattle.sheet.specs.Read.{read_ref, read_sys, read_peri, read_aux, read_rtc};
ghost use Rattle.readback.specs.{Cut.cut_ref, Cut.cut_aux, Cut.cut_rtc, Cut.cut_chip, Parse.Reads, Parse.ticks, Parse.sys_at};

use crate::codes;
use crate::held::{ahead, past};
use chip::Chip;
use chip::voltage::{CoreVoltage, CoreVoltage235, Voltage};
use config::{
    AuxClkConfig, AuxClkSrc, ChipSettings, PeriClkSrc, RefClkConfig, RefClkSrc, RtcClkConfig,
    SysClkSrc,
};
use step::{Kind, Step};

// The source and the divider of the system clock.
#[derive(Clone, Copy)]
pub struct Sys {
    pub src: SysClkSrc,
    pub whole: u64,
    pub fraction: u64,
}

// The reference clock; its part has a store, control, wait and divider.
pub(crate) fn read_ref(s: &[Step]) -> (RefClkConfig, &[Step])
    ensures { Reads read_ref cut_ref s.now result }
{
    let reference = RefClkConfig {
        src: RefClkSrc::from(ahead(s, 1).f0),
        div: codes::div_from(ahead(s, 3).f0),
    };
    (reference, past(s, 4))
}

// The number of steps of the tick.
pub(crate) fn ticks(chip: Chip) -> usize
    ensures { result ≡ ticks chip }
{
    match chip {
        Chip::Rp2040 => 1,
        Chip::Rp235x => 4,
    }
}

// The system clock. Unless the source is the reference clock, control and wait come twice.
pub(crate) fn read_sys(s: &[Step]) -> (Sys, &[Step])
    ensures { Reads read_sys (λ s. s) s.now (sys_at result.0, result.1) }
{
    let fourth = ahead(s, 3);
    if fourth.kind != Kind::SysControl {
        let sys = Sys {
            src: SysClkSrc::Ref,
            whole: fourth.f0,
            fraction: fourth.f1,
        };
        return (sys, past(s, 4));
    }
    let divider = ahead(s, 5);
    let sys = Sys {
        src: SysClkSrc::from_aux(fourth.f0),
        whole: divider.f0,
        fraction: divider.f1,
    };
    (sys, past(s, 6))
}

// The peripheral clock; without a control step it is absent.
pub(crate) fn read_peri(s: &[Step]) -> (Option<PeriClkSrc>, &[Step])
    ensures { Reads read_peri (λ p. p) s.now result }
{
    let control = ahead(s, 0);
    if control.kind != Kind::PeriControl {
        return (None, past(s, 1));
    }
    (Some(PeriClkSrc::from(control.f0)), past(s, 2))
}

// The USB or the ADC clock, selected by the kind of its divider step; without that step it is absent.
pub(crate) fn read_aux(s: &[Step], divider_kind: Kind) -> (Option<AuxClkConfig>, &[Step])
    ensures { Reads (read_aux divider_kind) cut_aux s.now result }
{
    let divider = ahead(s, 0);
    if divider.kind != divider_kind {
        return (None, past(s, 1));
    }
    let control = ahead(s, 1);
    let aux = AuxClkConfig {
        src: AuxClkSrc::from(control.f1),
        div: codes::div_from(divider.f0),
        phase: codes::cut8(control.f0),
    };
    (Some(aux), past(s, 3))
}

fn read_rtc(s: &[Step]) -> Option<RtcClkConfig>
    ensures { result ≡ cut_rtc (read_rtc s.now) }
{
    let divider = ahead(s, 0);
    if divider.kind != Kind::RtcDivider {
        return None;
    }
    let control = ahead(s, 1);
    Some(RtcClkConfig {
        src: AuxClkSrc::from(control.f1),
        div_int: codes::cut32(divider.f0),
        div_frac: codes::cut8(divider.f1),
        phase: codes::cut8(control.f0),
    })
}

// The chip-specific part in common fields. The steps start with the RTC part where the chip has one.
#[tactic(auto, using(crate::proofs::Voltages::decodes))]
pub(crate) fn read_chip_settings(s: &[Step], chip: Chip, code: u64, sys: Sys) -> ChipSettings
    ensures { result ≡ cut_chip (chip_of (chip_from chip code sys.whole sys.fraction (read_rtc s.now))) }
{
    let (volts, rtc) = match chip {
        Chip::Rp2040 => (
            codes::voltage_from(code, CoreVoltage::V1_10).volts(),
            read_rtc(s),
        ),
        Chip::Rp235x => (
            codes::voltage_from(code, CoreVoltage235::V1_10).volts(),
            None,
        ),
    };
    ChipSettings {
        model: chip,
        volts,
        whole: codes::cut32(sys.whole),
        fraction: codes::cut16(sys.fraction),
        rtc,
    }
}

// A step in words.
ghost use Rattle.std.specs.Prelude.{◌≡◌};
ghost use Rattle.base.specs.Writing.{Puts};
ghost use Rattle.wording.specs.Steps.{step_form, step_text};

use crate::meanings::form::write_form;
use base::Writer;
use step::{Kind, Step};

// The form of a kind's text; a number that is no kind is no step.
fn form(kind: Kind) -> &'static [u8]
    ensures { result.now ≡ step_form kind }
{
    match kind {
        Kind::Reset => b"1 reset write: mask 0x$",
        Kind::Release => b"2 release: mask 0x$",
        Kind::WaitReleased => b"3 wait released: mask 0x$",
        Kind::ResusOff => b"4 resus off",
        Kind::SysSource => b"5 set system source: source #",
        Kind::WaitSys => b"6 wait system source: source #",
        Kind::RefSource => b"7 set reference source: source #",
        Kind::WaitRef => b"8 wait reference source: source #",
        Kind::Strengths0To3 => b"9 strengths 0-3: s0 #, s1 #, s2 #, s3 #",
        Kind::Strengths4To7 => b"10 strengths 4-7: s4 #, s5 #, s6 #, s7 #",
        Kind::RingDivider => b"11 ring divider: value #",
        Kind::RingOn => b"12 ring on: range #",
        Kind::Voltage => b"13 voltage: code #",
        Kind::Delay => b"14 delay: cycles #",
        Kind::Brownout => b"15 brownout: level #",
        Kind::Startup => b"16 startup delay: delay #",
        Kind::CrystalOn => b"17 crystal on",
        Kind::WaitStable => b"18 wait stable",
        Kind::PllPower => b"19 PLL power: W #, pd #, vcopd #, postdivpd #, dsmpd #",
        Kind::PllReference => b"20 PLL reference divider: W #, divider #",
        Kind::PllFeedback => b"21 PLL feedback divider: W #, divider #",
        Kind::WaitLock => b"22 wait lock: W #",
        Kind::PllPosts => b"23 PLL post dividers: W #, post1 #, post2 #",
        Kind::PllPostOn => b"24 PLL post dividers on: W #",
        Kind::RefControl => b"25 reference control: source #",
        Kind::RefDivider => b"26 reference divider: divider #",
        Kind::Tick => b"27 tick: cycles #",
        Kind::SysControl => b"28 system control: aux #, source #",
        Kind::SysDivider => b"29 system divider: whole #, fraction #",
        Kind::PeriControl => b"30 peripheral control: aux #",
        Kind::UsbDivider => b"31 USB divider: divider #",
        Kind::UsbControl => b"32 USB control: phase #, aux #",
        Kind::AdcDivider => b"33 ADC divider: divider #",
        Kind::AdcControl => b"34 ADC control: phase #, aux #",
        Kind::RtcDivider => b"35 RTC divider: whole #, fraction #",
        Kind::RtcControl => b"36 RTC control: phase #, aux #",
        Kind::Store => b"37 store: @ # Hz",
        Kind::ChipMark => b"38 chip mark",
        Kind::TimerCycles => b"39 timer cycles: cycles #",
        Kind::TimerOn => b"40 timer on",
        Kind::WatchdogCycles => b"41 watchdog cycles: cycles #",
        Kind::WatchdogOn => b"42 watchdog on",
        Kind::Voltage235 => b"43 voltage: code #",
        Kind::Brownout235 => b"44 brownout: level #",
        Kind::SysDivider235 => b"45 system divider: whole #, fraction #",
        Kind::Unknown(_) => b"no step",
    }
}

// Writes a step's kind by number and name, and its fields by name. Masks are in hex, and a store's clock has its name.
#[tactic(auto, unfolding(crate::specs::Steps::step_text))]
pub fn write_step(out: &mut Writer<'_, u8>, step: Step)
    ensures { Puts out.old (step_text step) out.new }
{
    write_form(
        out,
        form(step.kind),
        &[step.f0, step.f1, step.f2, step.f3, step.f4],
    );
}

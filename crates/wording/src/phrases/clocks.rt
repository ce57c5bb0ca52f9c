// The lines of the clocks, and of the blocks that the last release leaves out.
ghost use Rattle.std.specs.Prelude.{◌≡◌, []};
ghost use Rattle.base.specs.{Choice.pick, Writing.Puts};
ghost use Rattle.wording.specs.Lines.{ref_line, sys_line, peri_line, aux_line, rtc_line, is_rp2040, left_out_line};

use crate::phrases::names::write_named;
use base::Writer;
use chip::Chip;
use config::{AuxClkConfig, PeriClkSrc, RefClkConfig, RtcClkConfig, SysClkSrc};

// Writes the line of the reference clock: frequency, source and divider.
#[tactic(auto, using(base::proofs::Writing::writing), unfolding(crate::specs::Lines::ref_line))]
pub fn write_ref(out: &mut Writer<'_, u8>, hz: u32, clock: RefClkConfig)
    ensures { Puts out.old (ref_line hz clock) out.new }
{
    write_named(
        out,
        b"ref # Hz from ",
        u64::from(hz),
        clock.src,
        b", divider #\n",
        &[u64::from(clock.div)],
    )
}

// Writes the line of the system clock: frequency, source and divider, whose fraction is over `scale`. The divider is three numbers, as
// `divided_hz` takes it.
#[tactic(auto, using(base::proofs::Writing::writing), unfolding(crate::specs::Lines::sys_line))]
pub fn write_sys(
    out: &mut Writer<'_, u8>,
    hz: u64,
    src: SysClkSrc,
    whole: u32,
    fraction: u16,
    scale: u32,
)
    ensures { Puts out.old (sys_line hz src whole fraction scale) out.new }
{
    write_named(
        out,
        b"sys # Hz from ",
        hz,
        src,
        b", divider # + #/#\n",
        &[u64::from(whole), u64::from(fraction), u64::from(scale)],
    )
}

// Writes the line of the peripheral clock: frequency and source.
#[tactic(auto, using(base::proofs::Writing::writing), unfolding(crate::specs::Lines::peri_line))]
pub fn write_peri(out: &mut Writer<'_, u8>, hz: u64, peri: Option<PeriClkSrc>)
    ensures { Puts out.old (peri_line hz peri) out.new }
{
    match peri {
        Some(src) => write_named(out, b"peri # Hz from ", hz, src, b"\n", &[]),
        None => out.put_all(b"peri absent\n"),
    }
}

// Writes the line of the USB or ADC clock by its name: frequency, source, divider and phase.
#[tactic(auto, using(base::proofs::Writing::writing), unfolding(crate::specs::Lines::aux_line))]
pub fn write_aux(out: &mut Writer<'_, u8>, name: &[u8], hz: u32, aux: Option<AuxClkConfig>)
    ensures { Puts out.old (aux_line name.now hz aux) out.new }
{
    out.put_all(name);
    match aux {
        Some(on) => write_named(
            out,
            b" # Hz from ",
            u64::from(hz),
            on.src,
            b", divider #, phase #\n",
            &[u64::from(on.div), u64::from(on.phase)],
        ),
        None => out.put_all(b" absent\n"),
    }
}

// Writes the line of the RTC clock: frequency, source, divider and phase.
#[tactic(auto, using(base::proofs::Writing::writing), unfolding(crate::specs::Lines::rtc_line))]
pub fn write_rtc(out: &mut Writer<'_, u8>, hz: u64, rtc: Option<RtcClkConfig>)
    ensures { Puts out.old (rtc_line hz rtc) out.new }
{
    match rtc {
        Some(on) => write_named(
            out,
            b"rtc # Hz from ",
            hz,
            on.src,
            b", divider # + #/256, phase #\n",
            &[
                u64::from(on.div_int),
                u64::from(on.div_frac),
                u64::from(on.phase),
            ],
        ),
        None => out.put_all(b"rtc absent\n"),
    }
}

// What decides which blocks the last release leaves out: the chip, and which clocks are absent.
#[derive(Clone, Copy)]
pub struct Absent {
    pub chip: Chip,
    pub peri: bool,
    pub usb: bool,
    pub adc: bool,
    pub rtc: bool,
}

// Writes a text only where a test holds.
fn write_where(out: &mut Writer<'_, u8>, test: bool, s: &[u8])
    ensures { Puts out.old (pick test s.now []) out.new }
{
    out.put_all(if test { s } else { b"" });
}

// Whether the chip is the RP2040.
pub fn is_rp2040(chip: Chip) -> bool
    ensures { result ≡ is_rp2040 chip }
{
    chip == Chip::Rp2040
}

// Writes the blocks that the last release leaves out: those of absent clocks, and HSTX of the RP235x.
#[tactic(auto, using(base::proofs::Writing::writing), unfolding(crate::specs::Lines::left_out_line))]
pub fn write_left_out(out: &mut Writer<'_, u8>, no: Absent)
    ensures { Puts out.old (left_out_line (is_rp2040 no.chip) no.peri no.usb no.adc no.rtc) out.new }
{
    let old = is_rp2040(no.chip);
    out.put_all(b"left out of the last release:");
    write_where(out, no.adc, b" adc");
    write_where(out, !old, b" hstx");
    write_where(out, old & no.rtc, b" rtc");
    write_where(out, no.peri, b" spi0 spi1");
    write_where(out, old & no.peri, b" uart0 uart1");
    write_where(out, old & no.usb, b" usb");
    out.put_all(b"\n");
}

// Reads the chip, the ring, the voltage and the crystal with its PLLs from the steps of a sheet.
ghost use Rattle.std.specs.Prelude.{◌≡◌, Some};
ghost use Rattle.step.specs.Clocks.{pll_number};
ghost use Rattle.sheet.specs.Read.{read_chip, read_ring, read_voltage, read_pll, read_crystal, step_at};
ghost use Rattle.readback.specs.Cut.{cut_ring, cut_pll, cut_crystal};
ghost use Rattle.readback.specs.Parse.{Reads, ring_from, pll_from, voltage_at};

use crate::codes;
use crate::held::{ahead, past};
use chip::Chip;
use config::{DriveStrength, RoscConfig, RoscRange};
use pll::PllConfig;
use settings::Crystal;
use step::{Kind, Pll, Step};

// The voltage code and the settling cycles.
#[derive(Clone, Copy)]
pub struct Voltage {
    pub code: u64,
    pub settling: Option<u64>,
}

// The chip: a first step of kind 38 means the RP235x.
pub(crate) fn read_chip(s: &[Step]) -> (Chip, &[Step])
    ensures { Reads read_chip (λ c. c) s.now result }
{
    if ahead(s, 0).kind == Kind::ChipMark {
        (Chip::Rp235x, past(s, 1))
    } else {
        (Chip::Rp2040, s)
    }
}

// Builds a ring from its five steps: strengths 0 to 3, strengths 4 to 7, divider, range and the store.
fn ring_of(pass: u16, s: &[Step]) -> RoscConfig
    ensures { Some result
        ≡ cut_ring (ring_from pass (step_at s.now 0) (step_at s.now 1) (step_at s.now 2) (step_at s.now 3) (step_at s.now 4)) }
{
    let (low, high) = (ahead(s, 0), ahead(s, 1));
    let drive_strength = DriveStrength {
        s0: codes::cut8(low.f0),
        s1: codes::cut8(low.f1),
        s2: codes::cut8(low.f2),
        s3: codes::cut8(low.f3),
        s4: codes::cut8(high.f0),
        s5: codes::cut8(high.f1),
        s6: codes::cut8(high.f2),
        s7: codes::cut8(high.f3),
    };
    let div = ahead(s, 2).f0.saturating_sub(u64::from(pass));
    RoscConfig {
        hz: codes::cut32(ahead(s, 4).f1),
        range: RoscRange::from(ahead(s, 3).f0),
        drive_strength,
        div: codes::cut16(div),
    }
}

pub(crate) fn read_ring(s: &[Step], pass: u16) -> (Option<RoscConfig>, &[Step])
    ensures { Reads (read_ring pass) cut_ring s.now result }
{
    if ahead(s, 0).kind != Kind::Strengths0To3 {
        return (None, past(s, 1));
    }
    (Some(ring_of(pass, s)), past(s, 5))
}

// The voltage; without a voltage step the code is the reading. `voltage` is the chip's kind.
pub(crate) fn read_voltage(s: &[Step], voltage: Kind, reading: u8) -> (Voltage, &[Step])
    ensures { Reads (read_voltage voltage reading) (λ v. v) s.now (voltage_at result.0, result.1) }
{
    let set = ahead(s, 0);
    if set.kind != voltage {
        let kept = Voltage {
            code: u64::from(reading),
            settling: None,
        };
        return (kept, s);
    }
    let delay = ahead(s, 1);
    if delay.kind != Kind::Delay {
        let at_once = Voltage {
            code: set.f0,
            settling: None,
        };
        return (at_once, past(s, 2));
    }
    let settles = Voltage {
        code: set.f0,
        settling: Some(delay.f0),
    };
    (settles, past(s, 3))
}

// Builds a PLL from its nine steps, of which the third is its reference, the fourth its feedback, the seventh its posts.
fn pll_of(s: &[Step]) -> PllConfig
    ensures { Some result ≡ cut_pll (pll_from (step_at s.now 2) (step_at s.now 3) (step_at s.now 6)) }
{
    let posts = ahead(s, 6);
    PllConfig {
        refdiv: codes::cut8(ahead(s, 2).f1),
        fbdiv: codes::cut16(ahead(s, 3).f1),
        post_div1: codes::cut8(posts.f1),
        post_div2: codes::cut8(posts.f2),
    }
}

// A PLL, absent where its first step is not next.
fn read_pll(s: &[Step], which: Pll) -> (Option<PllConfig>, &[Step])
    ensures { Reads (read_pll (pll_number which)) cut_pll s.now result }
{
    let power = ahead(s, 0);
    if power.kind == Kind::PllPower && power.f0 == u64::from(which) {
        return (Some(pll_of(s)), past(s, 9));
    }
    (None, s)
}

// The crystal with its PLLs. The crystal's Hz are read from the store that follows its part.
pub(crate) fn read_crystal(s: &[Step]) -> (Option<Crystal>, &[Step])
    ensures { Reads read_crystal cut_crystal s.now result }
{
    let startup = ahead(s, 0);
    if startup.kind != Kind::Startup {
        return (None, s);
    }
    let (sys, rest) = read_pll(past(s, 3), Pll::Sys);
    let (usb, rest) = read_pll(rest, Pll::Usb);
    let crystal = Crystal {
        hz: codes::cut32(ahead(rest, 0).f1),
        delay: startup.f0,
        sys,
        usb,
    };
    (Some(crystal), rest)
}

// Texts with the name of a range or of a source in them.
ghost use Rattle.std.specs.Prelude.{◌≡◌, List, ℕ};
ghost use Rattle.base.specs.Writing.{Puts};
ghost use Rattle.wording.specs.Names.{range_name, ref_name, sys_name, peri_name, aux_name, named_form};

use crate::meanings::write_form;
use base::Writer;
use config::{AuxClkSrc, PeriClkSrc, RefClkSrc, RoscRange, SysClkSrc};

// A setting that has a name. `Named` of text would have to be implemented in config, which has these types and knows no texts.
pub trait Named {
    ghost the_name: { Self → List ℕ };

    fn name(self) -> &'static [u8]
        ensures { result.now ≡ the_name self };
}

impl Named for RoscRange {
    ghost the_name = { range_name };

    fn name(self) -> &'static [u8] {
        match self {
            RoscRange::Low => b"low",
            RoscRange::Medium => b"medium",
            RoscRange::High => b"high",
            RoscRange::TooHigh => b"too high",
        }
    }
}

impl Named for RefClkSrc {
    ghost the_name = { ref_name };

    fn name(self) -> &'static [u8] {
        match self {
            RefClkSrc::Xosc => b"xosc",
            RefClkSrc::Rosc => b"rosc",
            RefClkSrc::PllUsb => b"pll_usb",
        }
    }
}

impl Named for SysClkSrc {
    ghost the_name = { sys_name };

    fn name(self) -> &'static [u8] {
        match self {
            SysClkSrc::Ref => b"ref",
            SysClkSrc::PllSys => b"pll_sys",
            SysClkSrc::PllUsb => b"pll_usb",
            SysClkSrc::Rosc => b"rosc",
            SysClkSrc::Xosc => b"xosc",
        }
    }
}

impl Named for PeriClkSrc {
    ghost the_name = { peri_name };

    fn name(self) -> &'static [u8] {
        match self {
            PeriClkSrc::Sys => b"sys",
            PeriClkSrc::PllSys => b"pll_sys",
            PeriClkSrc::PllUsb => b"pll_usb",
            PeriClkSrc::Rosc => b"rosc",
            PeriClkSrc::Xosc => b"xosc",
        }
    }
}

impl Named for AuxClkSrc {
    ghost the_name = { aux_name };

    fn name(self) -> &'static [u8] {
        match self {
            AuxClkSrc::PllUsb => b"pll_usb",
            AuxClkSrc::PllSys => b"pll_sys",
            AuxClkSrc::Rosc => b"rosc",
            AuxClkSrc::Xosc => b"xosc",
        }
    }
}

// Writes a form with a number in it, the name of a setting, and a form with more numbers: the parameters are the parts of the line
// from left to right, and a struct of them would be written out in each call as they are.
#[tactic(auto, using(base::proofs::Writing::writing))]
pub(crate) fn write_named<S: Named + Drop>(
    out: &mut Writer<'_, u8>,
    first: &[u8],
    n: u64,
    setting: S,
    last: &[u8],
    ns: &[u64],
)
    ensures { Puts out.old (named_form first.now n (S.the_name setting) last.now ns.now) out.new }
{
    write_form(out, first, &[n]);
    out.put_all(setting.name());
    write_form(out, last, ns);
}

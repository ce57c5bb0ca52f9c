// The codes of ranges and clock sources in steps, and their decoding. Decoding accepts any number (docs/FORMAT.md, Codes).
ghost use Rattle.std.specs.Prelude.{◌≡◌};
ghost use Rattle.config.specs.Codes.{range_code, ref_code, sys_code, sys_select, sys_aux, peri_aux, aux_code};
ghost use Rattle.config.specs.Codes.{range_from, ref_from, sys_from, sys_source_from, peri_from, aux_from};

use crate::{AuxClkSrc, PeriClkSrc, RefClkSrc, RoscRange, SysClkSrc};

impl From<RoscRange> for u8 {
    ghost from_gives = { λ range n. n ≡ range_code range };

    fn from(range: RoscRange) -> u8 {
        range as u8
    }
}

// Any number from 3 on gives `TooHigh`.
impl From<u64> for RoscRange {
    ghost from_gives = { λ code range. range ≡ range_from code };

    fn from(code: u64) -> RoscRange {
        match code {
            0 => RoscRange::Low,
            1 => RoscRange::Medium,
            2 => RoscRange::High,
            _ => RoscRange::TooHigh,
        }
    }
}

impl From<RefClkSrc> for u8 {
    ghost from_gives = { λ src n. n ≡ ref_code src };

    fn from(src: RefClkSrc) -> u8 {
        src as u8
    }
}

// Any number from 2 on gives the crystal.
impl From<u64> for RefClkSrc {
    ghost from_gives = { λ code src. src ≡ ref_from code };

    fn from(code: u64) -> RefClkSrc {
        match code {
            0 => RefClkSrc::Rosc,
            1 => RefClkSrc::PllUsb,
            _ => RefClkSrc::Xosc,
        }
    }
}

// A number for each source, from which its two codes follow.
impl From<SysClkSrc> for u8 {
    ghost from_gives = { λ src n. n ≡ sys_code src };

    fn from(src: SysClkSrc) -> u8 {
        src as u8
    }
}

// Any number from 4 on gives the crystal.
impl From<u64> for SysClkSrc {
    ghost from_gives = { λ code src. src ≡ sys_source_from code };

    fn from(code: u64) -> SysClkSrc {
        if code == 0 {
            SysClkSrc::Ref
        } else {
            SysClkSrc::from_aux(code - 1)
        }
    }
}

impl SysClkSrc {
    // The SRC code: 0 the reference clock, 1 aux.
    pub fn select(self) -> u8
        ensures { result ≡ sys_select self }
    {
        u8::from(self).min(1)
    }

    // The AUXSRC code; 0 too for the reference clock, where aux is not used.
    pub fn aux(self) -> u8
        ensures { result ≡ sys_aux self }
    {
        u8::from(self).saturating_sub(1)
    }

    // Decodes the AUXSRC code; any number from 3 on gives the crystal. It is no `From`: that is there, and takes
    // the number of all five sources.
    pub fn from_aux(code: u64) -> SysClkSrc
        ensures { result ≡ sys_from code }
    {
        match code {
            0 => SysClkSrc::PllSys,
            1 => SysClkSrc::PllUsb,
            2 => SysClkSrc::Rosc,
            _ => SysClkSrc::Xosc,
        }
    }
}

// The AUXSRC code.
impl From<PeriClkSrc> for u8 {
    ghost from_gives = { λ src n. n ≡ peri_aux src };

    fn from(src: PeriClkSrc) -> u8 {
        src as u8
    }
}

// An unknown code gives the ring.
impl From<u64> for PeriClkSrc {
    ghost from_gives = { λ code src. src ≡ peri_from code };

    fn from(code: u64) -> PeriClkSrc {
        match code {
            0 => PeriClkSrc::Sys,
            1 => PeriClkSrc::PllSys,
            2 => PeriClkSrc::PllUsb,
            4 => PeriClkSrc::Xosc,
            _ => PeriClkSrc::Rosc,
        }
    }
}

// The AUXSRC code.
impl From<AuxClkSrc> for u8 {
    ghost from_gives = { λ src n. n ≡ aux_code src };

    fn from(src: AuxClkSrc) -> u8 {
        src as u8
    }
}

// Any number from 3 on gives the crystal.
impl From<u64> for AuxClkSrc {
    ghost from_gives = { λ code src. src ≡ aux_from code };

    fn from(code: u64) -> AuxClkSrc {
        match code {
            0 => AuxClkSrc::PllUsb,
            1 => AuxClkSrc::PllSys,
            2 => AuxClkSrc::Rosc,
            _ => AuxClkSrc::Xosc,
        }
    }
}

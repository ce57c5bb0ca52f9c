// The two chips, and the numbers in which they differ (docs/RP235X.md).
#![tactic(auto)]

pub mod voltage;

ghost use Rattle.std.specs.Prelude.{◌≡◌};
ghost use Rattle.chip.specs.Chips.{facts_of};

use step::{Clock, Kind};

#[derive(Clone, Copy, PartialEq, Eq)]
pub enum Chip {
    Rp2040,
    Rp235x,
}

// The chip's numbers that the sheet, the refusals and the formulas use.
#[derive(Clone, Copy, PartialEq, Eq)]
pub struct Facts {
    pub top_reading: u8, // the greatest reading of the regulator
    pub voltage: Kind, // the kind of the voltage step
    pub brownout: Kind, // the kind of the brownout step
    pub divider: Kind, // the kind of the system divider step
    pub scale: u32, // a divider's fraction counts in 1 / scale
    pub top_whole: u32, // the greatest whole part of a divider
    pub pass: u16, // added to the ring divider in ROSC_DIV
    pub first: u32, // RESETS bits of the first reset
    pub plls: u32, // RESETS bits of the PLLs
    pub last: u32, // RESETS bits of the last release with all clocks present
    pub peri: u32, // RESETS bits of the blocks on the peripheral clock
    pub usb: u32, // RESETS bits of the blocks on the USB clock
    pub adc: u32, // RESETS bits of the blocks on the ADC clock
    pub rtc: u32, // RESETS bits of the blocks on the RTC clock
    pub preset_hz: u32, // the system frequency of the crystal preset
    pub preset_post: u8, // the first post divider of the crystal preset
    pub gpout: [Option<Clock>; 12], // the clock of each Gpout source code, which is beside it below
}

impl Chip {
    // The numbers of this chip.
    pub fn facts(self) -> Facts
        ensures { result ≡ facts_of self }
    {
        match self {
            Chip::Rp2040 => Facts {
                top_reading: 15,
                voltage: Kind::Voltage,
                brownout: Kind::Brownout,
                divider: Kind::SysDivider,
                scale: 256,
                top_whole: base::U24_MAX,
                pass: 0xAA0,
                first: 0x0FBCDBF,
                plls: 0x3000,
                last: 0x1FFFFFF,
                peri: 0xC30000,
                usb: 0x1000000,
                adc: 1,
                rtc: 0x8000,
                preset_hz: 125000000,
                preset_post: 6,
                gpout: [
                    Some(Clock::PllSys), // 0
                    None, // 1
                    None, // 2
                    Some(Clock::PllUsb), // 3
                    Some(Clock::Rosc), // 4
                    Some(Clock::Xosc), // 5
                    Some(Clock::Sys), // 6
                    Some(Clock::Usb), // 7
                    Some(Clock::Adc), // 8
                    None, // 9
                    Some(Clock::Ref), // 10
                    None, // 11
                ],
            },
            Chip::Rp235x => Facts {
                top_reading: 31,
                voltage: Kind::Voltage235,
                brownout: Kind::Brownout235,
                divider: Kind::SysDivider235,
                scale: 65536,
                top_whole: u32::from(u16::MAX),
                pass: 0xAA00,
                first: 0x1EF3B7F,
                plls: 0xC000,
                last: 0x1FFFFF7,
                peri: 0xC0000,
                usb: 0,
                adc: 1,
                rtc: 0,
                preset_hz: 150000000,
                preset_post: 5,
                gpout: [
                    Some(Clock::PllSys), // 0
                    None, // 1
                    None, // 2
                    Some(Clock::PllUsb), // 3
                    None, // 4
                    Some(Clock::Rosc), // 5
                    Some(Clock::Xosc), // 6
                    None, // 7
                    Some(Clock::Sys), // 8
                    Some(Clock::Usb), // 9
                    Some(Clock::Adc), // 10
                    Some(Clock::Ref), // 11
                ],
            },
        }
    }
}

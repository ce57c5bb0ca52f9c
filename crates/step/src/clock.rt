// The clocks and the PLLs that the fields of a step name.
ghost use Rattle.std.specs.Prelude.{◌≡◌};
ghost use Rattle.step.specs.Clocks.{clock_number, pll_number, clock_name};

// A clock; its number in a store (docs/FORMAT.md) is the variant's.
#[derive(Clone, Copy, Debug, PartialEq, Eq)]
pub enum Clock {
    Rosc,
    Xosc,
    PllSys,
    PllUsb,
    Ref,
    Sys,
    Peri,
    Usb,
    Adc,
    Rtc,
}

impl Clock {
    // The clocks in the order of their numbers.
    pub const ALL: [Clock; 10] = [
        Clock::Rosc,
        Clock::Xosc,
        Clock::PllSys,
        Clock::PllUsb,
        Clock::Ref,
        Clock::Sys,
        Clock::Peri,
        Clock::Usb,
        Clock::Adc,
        Clock::Rtc,
    ];

    // The name of a clock in the outputs of the programs.
    pub fn name(self) -> &'static str
        ensures { result.now ≡ clock_name self }
    {
        match self {
            Clock::Rosc => "rosc",
            Clock::Xosc => "xosc",
            Clock::PllSys => "pll_sys",
            Clock::PllUsb => "pll_usb",
            Clock::Ref => "ref",
            Clock::Sys => "sys",
            Clock::Peri => "peri",
            Clock::Usb => "usb",
            Clock::Adc => "adc",
            Clock::Rtc => "rtc",
        }
    }
}

impl From<Clock> for u64 {
    ghost from_gives = { λ clock n. n ≡ clock_number clock };

    fn from(clock: Clock) -> u64 {
        clock as u64
    }
}

// A PLL; its number in the steps of a PLL is the variant's.
#[derive(Clone, Copy, Debug, PartialEq, Eq)]
pub enum Pll {
    Sys,
    Usb,
}

impl From<Pll> for u64 {
    ghost from_gives = { λ pll n. n ≡ pll_number pll };

    fn from(pll: Pll) -> u64 {
        pll as u64
    }
}

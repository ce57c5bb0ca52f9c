// Why a call is refused.
ghost use Rattle.std.specs.Prelude.{◌≡◌};
ghost use Rattle.base.specs.Refusals.{number_of};

// A refusal; its number in docs/FORMAT.md, Refusals, is the variant's.
#[derive(Clone, Copy, Debug, PartialEq, Eq)]
pub enum Refusal {
    DriveStrength = 1,
    RingDivider = 2,
    SettlingTime = 3,
    StartupDelay = 4,
    SysPll = 5,
    UsbPll = 6,
    RefDivider = 7,
    RefClock = 8,
    SysDivider = 9,
    SysClock = 10,
    PeriClock = 11,
    UsbClock = 12,
    AdcClock = 13,
    RtcClock = 14,
    NoPllSetting = 15,
    NoPllOutput = 16,
    PioDivider = 17,
    VoltageReading = 18,
    ShortBuffer = 19,
    NotASheet = 20,
    NotARunner = 21,
    LockTimeout = 22,
    GpoutSource = 23,
    UnreadableInput = 24,
    NoUsbPll = 25,
    NoPlan = 26,
    OtherSheet = 27,
    NoBoard = 28,
    NoSlot = 29,
    EmptySlot = 30,
    CountOver = 31,
}

impl From<Refusal> for u8 {
    ghost from_gives = { λ why n. n ≡ number_of why };

    fn from(why: Refusal) -> u8 {
        why as u8
    }
}

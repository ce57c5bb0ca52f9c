// The registers that a sleep and a wake speak of.

// One of the eleven registers whose words are saved; its number (docs/SLEEP.md) is the variant's.
#[derive(Clone, Copy, Debug, PartialEq, Eq)]
pub enum Register {
    AdcCtrl,
    UsbCtrl,
    PeriCtrl,
    RoscCtrl,
    RoscDiv,
    RefCtrl,
    SysCtrl,
    PllSysPwr,
    PllUsbPwr,
    XoscCtrl,
    XipCtrl,
}

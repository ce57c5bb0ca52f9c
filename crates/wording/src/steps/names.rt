// The registers' names, in the order of specs/StepNames.
ghost use Rattle.std.specs.Prelude.{◌≡◌, option_copied};
ghost use Rattle.std.specs.List.{find};
ghost use Rattle.wording.specs.{StepNames.name_of, Inside.address_on, Inside.is_at, Inside.IsTable};

use chip::Chip;

// A register's address on the RP2040 and on the RP235x, none where the chip lacks it or no step touches it there, and its name.
type Row = (Option<u32>, Option<u32>, &'static str);

static ROWS: [Row; 40] = [
    (Some(0x4000C000), Some(0x40020000), "RESETS_RESET"),
    (Some(0x4000C008), Some(0x40020008), "RESETS_RESET_DONE"),
    (Some(0x40008030), Some(0x40010030), "CLOCKS_CLK_REF_CTRL"),
    (Some(0x40008034), Some(0x40010034), "CLOCKS_CLK_REF_DIV"),
    (
        Some(0x40008038),
        Some(0x40010038),
        "CLOCKS_CLK_REF_SELECTED",
    ),
    (Some(0x4000803C), Some(0x4001003C), "CLOCKS_CLK_SYS_CTRL"),
    (Some(0x40008040), Some(0x40010040), "CLOCKS_CLK_SYS_DIV"),
    (
        Some(0x40008044),
        Some(0x40010044),
        "CLOCKS_CLK_SYS_SELECTED",
    ),
    (
        Some(0x40008078),
        Some(0x40010084),
        "CLOCKS_CLK_SYS_RESUS_CTRL",
    ),
    (Some(0x40008048), Some(0x40010048), "CLOCKS_CLK_PERI_CTRL"),
    (Some(0x40008054), Some(0x40010060), "CLOCKS_CLK_USB_CTRL"),
    (Some(0x40008058), Some(0x40010064), "CLOCKS_CLK_USB_DIV"),
    (Some(0x40008060), Some(0x4001006C), "CLOCKS_CLK_ADC_CTRL"),
    (Some(0x40008064), Some(0x40010070), "CLOCKS_CLK_ADC_DIV"),
    (Some(0x40024000), Some(0x40048000), "XOSC_CTRL"),
    (Some(0x40024004), Some(0x40048004), "XOSC_STATUS"),
    (Some(0x4002400C), Some(0x4004800C), "XOSC_STARTUP"),
    (Some(0x40060000), Some(0x400E8000), "ROSC_CTRL"),
    (Some(0x40060004), Some(0x400E8004), "ROSC_FREQA"),
    (Some(0x40060008), Some(0x400E8008), "ROSC_FREQB"),
    (Some(0x40060010), Some(0x400E8014), "ROSC_DIV"),
    (Some(0x40028000), Some(0x40050000), "PLL_SYS_CS"),
    (Some(0x40028004), Some(0x40050004), "PLL_SYS_PWR"),
    (Some(0x40028008), Some(0x40050008), "PLL_SYS_FBDIV_INT"),
    (Some(0x4002800C), Some(0x4005000C), "PLL_SYS_PRIM"),
    (Some(0x4002C000), Some(0x40058000), "PLL_USB_CS"),
    (Some(0x4002C004), Some(0x40058004), "PLL_USB_PWR"),
    (Some(0x4002C008), Some(0x40058008), "PLL_USB_FBDIV_INT"),
    (Some(0x4002C00C), Some(0x4005800C), "PLL_USB_PRIM"),
    (Some(0x4000806C), None, "CLOCKS_CLK_RTC_CTRL"),
    (Some(0x40008070), None, "CLOCKS_CLK_RTC_DIV"),
    (Some(0x40064000), None, "VREG_AND_CHIP_RESET_VREG"),
    (Some(0x40064004), None, "VREG_AND_CHIP_RESET_BOD"),
    (Some(0x4005802C), None, "WATCHDOG_TICK"),
    (None, Some(0x4010000C), "POWMAN_VREG"),
    (None, Some(0x4010001C), "POWMAN_BOD"),
    (None, Some(0x40108018), "TICKS_TIMER0_CTRL"),
    (None, Some(0x4010801C), "TICKS_TIMER0_CYCLES"),
    (None, Some(0x40108030), "TICKS_WATCHDOG_CTRL"),
    (None, Some(0x40108034), "TICKS_WATCHDOG_CYCLES"),
];

// A register's address on a chip.
fn address_on(chip: Chip, row: &Row) -> Option<u32>
    ensures { result ≡ address_on chip row.now }
{
    match chip {
        Chip::Rp2040 => row.0,
        Chip::Rp235x => row.1,
    }
}

// The register at an address of the chip.
fn found<'a>(rows: &'a [Row], chip: Chip, address: u32) -> Option<&'a Row>
    ensures { option_copied result ≡ find (is_at chip address) rows.now }
{
    rows.iter()
        .find(|row| address_on(chip, row) == Some(address))
}

// The name in a table of the register at an address of the chip; nothing where there is none.
fn name_in(rows: &[Row], chip: Chip, address: u32) -> &'static [u8]
    requires { IsTable rows.now }
    ensures { result.now ≡ name_of chip address }
{
    match found(rows, chip, address) {
        Some(row) => row.2.as_bytes(),
        None => b"",
    }
}

// The datasheet's name of the register at an address of the chip; nothing where no step touches it.
#[tactic(auto, unfolding(crate::specs::StepNames::name_rows))]
pub(crate) fn name_of(chip: Chip, address: u32) -> &'static [u8]
    ensures { result.now ≡ name_of chip address }
{
    name_in(&ROWS, chip, address)
}

// Fields of a register word, and the fields that show whether a PLL or the crystal runs (RP2040 datasheet, register tables).
ghost use Rattle.std.specs.Prelude.{◌≡◌, ◌+◌, ◌^◌, ◌<◌};
ghost use Rattle.sleep.specs.Bits.{field, with_field, pll_off, pll_runs, crystal_runs};

// A field of a register word: the `size` bits from bit `low` up. `low` of step is private, and by
// it the field would be `low(u64::from(word >> low), size) as u32`, two casts in place of a mask.
#[derive(Clone, Copy)]
pub(crate) struct Field {
    low: u32,
    size: u32,
    ghost inside: { low + size < 32 },
}

// CLK_ADC_CTRL, CLK_USB_CTRL and CLK_PERI_CTRL: 1 enables the clock.
pub(crate) const CLOCK_ENABLE: Field = Field { low: 11, size: 1 };

// ROSC_CTRL: the range of the ring.
pub(crate) const FREQ_RANGE: Field = Field { low: 0, size: 12 };

// ROSC_CTRL and XOSC_CTRL: whether the oscillator is on.
pub(crate) const ENABLE: Field = Field { low: 12, size: 12 };

// ROSC_DIV: the divider.
pub(crate) const DIV: Field = Field { low: 0, size: 12 };

// CLK_REF_CTRL: the source.
pub(crate) const REF_SRC: Field = Field { low: 0, size: 2 };

// CLK_SYS_CTRL: the source.
pub(crate) const SYS_SRC: Field = Field { low: 0, size: 1 };

// XIP_CTRL: 1 powers the cache down.
pub(crate) const POWER_DOWN: Field = Field { low: 3, size: 1 };

// PLL PWR: 1 powers the PLL down.
const PD: Field = Field { low: 0, size: 1 };

// PLL PWR: 1 powers the VCO down.
const VCOPD: Field = Field { low: 5, size: 1 };

impl Field {
    // The field of a word.
    #[tactic(auto, using(crate::proofs::Words::one_shl, crate::proofs::Words::low_bits))]
    fn get(self, word: u32) -> u32
        ensures { result ≡ field self.low self.size word }
    {
        (word >> self.low) & ((1u32 << self.size) - 1)
    }

    // The word with the field set to a value.
    #[tactic(auto, using(crate::proofs::Words::high_exact, crate::proofs::Words::value_exact, crate::proofs::Words::word_fits))]
    pub(crate) fn set(self, word: u32, value: u32) -> u32
        requires { value < 2 ^ self.size }
        ensures { result ≡ with_field self.low self.size value word }
    {
        let above = self.low + self.size;
        let below = Field {
            low: 0,
            size: self.low,
        };
        ((word >> above) << above) + (value << self.low) + below.get(word)
    }
}

// PLL PWR: PD and VCOPD are 1.
pub(crate) fn pll_off(word: u32) -> u32
    ensures { result ≡ pll_off word }
{
    VCOPD.set(PD.set(word, 1), 1)
}

// PLL PWR: a PLL runs where PD and VCOPD are 0.
pub(crate) fn pll_runs(word: u32) -> bool
    ensures { result ≡ pll_runs word }
{
    (PD.get(word) == 0) & (VCOPD.get(word) == 0)
}

// XOSC CTRL: the crystal runs unless ENABLE is DISABLE.
pub(crate) fn crystal_runs(word: u32) -> bool
    ensures { result ≡ crystal_runs word }
{
    ENABLE.get(word) != 0xd1e
}

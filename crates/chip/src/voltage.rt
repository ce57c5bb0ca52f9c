// The core voltages of both chips: register codes, brownout levels and default settling times (docs/FORMAT.md, Voltages).
ghost use Rattle.std.specs.Prelude.{◌≡◌};
ghost use Rattle.base.specs.Answer.{answer_of};
ghost use Rattle.chip.specs.declared.{Chip.TheVariants.Rp2040, Chip.TheVariants.Rp235x, voltage.Volts.Volts};
ghost use Rattle.chip.specs.Voltage.{volts_of, core_voltage_of};

use base::Refusal;

// A voltage's register code, brownout level and default settling time in µs.
#[derive(Clone, Copy, PartialEq, Eq)]
pub struct Volts {
    pub code: u8,
    pub brownout: u8,
    pub settling_us: u32,
}

// The core voltages of a chip: each chip has its own type of them, so that a plan holds only its chip's.
pub trait Voltage: Copy {
    ghost row: { Self → Volts };

    // The register code, the brownout level and the default settling time of this voltage.
    fn volts(self) -> Volts
        ensures { result ≡ row self };

    // The register code, the Rust's `as u8`.
    final fn code(self) -> u8
        ensures { result ≡ (row self).code }
    {
        self.volts().code
    }

    // The level for the brownout detector at this voltage.
    final fn recommended_bod(self) -> u8
        ensures { result ≡ (row self).brownout }
    {
        self.volts().brownout
    }

    // Microseconds to wait after a change to this voltage where the plan gives no time.
    final fn default_settling_us(self) -> u32
        ensures { result ≡ (row self).settling_us }
    {
        self.volts().settling_us
    }
}

// The core voltages of the RP2040, numbered by their register codes.
#[derive(Clone, Copy, PartialEq, Eq)]
pub enum CoreVoltage {
    V0_80 = 0,
    V0_85 = 6,
    V0_90 = 7,
    V0_95 = 8,
    V1_00 = 9,
    V1_05 = 10,
    V1_10 = 11,
    V1_15 = 12,
    V1_20 = 13,
    V1_25 = 14,
    V1_30 = 15,
}

impl Voltage for CoreVoltage {
    ghost row = { volts_of Rp2040 };

    fn volts(self) -> Volts {
        let (brownout, settling_us) = match self {
            CoreVoltage::V0_80 => (4, 0),
            CoreVoltage::V0_85 => (5, 0),
            CoreVoltage::V0_90 => (6, 0),
            CoreVoltage::V0_95 => (7, 0),
            CoreVoltage::V1_00 => (8, 0),
            CoreVoltage::V1_05 => (8, 0),
            CoreVoltage::V1_10 => (9, 0),
            CoreVoltage::V1_15 => (10, 1000),
            CoreVoltage::V1_20 => (11, 2000),
            CoreVoltage::V1_25 => (12, 2000),
            CoreVoltage::V1_30 => (13, 2000),
        };
        Volts {
            code: self as u8,
            brownout,
            settling_us,
        }
    }
}

// The RP2040 voltage whose code was read; 18 where the code is unknown. The match is the table: a search among all voltages is
// no shorter and compares up to sixteen.
impl TryFrom<u8> for CoreVoltage {
    type Error = Refusal;

    ghost try_from_gives = { λ reading r. answer_of r ≡ core_voltage_of Rp2040 reading };

    fn try_from(reading: u8) -> Result<CoreVoltage, Refusal> {
        match reading {
            0 => Ok(CoreVoltage::V0_80),
            6 => Ok(CoreVoltage::V0_85),
            7 => Ok(CoreVoltage::V0_90),
            8 => Ok(CoreVoltage::V0_95),
            9 => Ok(CoreVoltage::V1_00),
            10 => Ok(CoreVoltage::V1_05),
            11 => Ok(CoreVoltage::V1_10),
            12 => Ok(CoreVoltage::V1_15),
            13 => Ok(CoreVoltage::V1_20),
            14 => Ok(CoreVoltage::V1_25),
            15 => Ok(CoreVoltage::V1_30),
            _ => Err(Refusal::VoltageReading),
        }
    }
}

// The core voltages of the RP235x, numbered by their register codes.
#[derive(Clone, Copy, PartialEq, Eq)]
pub enum CoreVoltage235 {
    V0_55 = 0,
    V0_60 = 1,
    V0_65 = 2,
    V0_70 = 3,
    V0_75 = 4,
    V0_80 = 5,
    V0_85 = 6,
    V0_90 = 7,
    V0_95 = 8,
    V1_00 = 9,
    V1_05 = 10,
    V1_10 = 11,
    V1_15 = 12,
    V1_20 = 13,
    V1_25 = 14,
    V1_30 = 15,
}

impl Voltage for CoreVoltage235 {
    ghost row = { volts_of Rp235x };

    fn volts(self) -> Volts {
        let (brownout, settling_us) = match self {
            CoreVoltage235::V0_55 => (1, 0),
            CoreVoltage235::V0_60 => (2, 0),
            CoreVoltage235::V0_65 => (3, 0),
            CoreVoltage235::V0_70 => (3, 0),
            CoreVoltage235::V0_75 => (4, 0),
            CoreVoltage235::V0_80 => (5, 0),
            CoreVoltage235::V0_85 => (6, 0),
            CoreVoltage235::V0_90 => (6, 0),
            CoreVoltage235::V0_95 => (7, 0),
            CoreVoltage235::V1_00 => (8, 0),
            CoreVoltage235::V1_05 => (8, 0),
            CoreVoltage235::V1_10 => (9, 0),
            CoreVoltage235::V1_15 => (9, 1000),
            CoreVoltage235::V1_20 => (10, 2000),
            CoreVoltage235::V1_25 => (10, 2000),
            CoreVoltage235::V1_30 => (11, 2000),
        };
        Volts {
            code: self as u8,
            brownout,
            settling_us,
        }
    }
}

// The RP235x voltage whose code was read; 18 where the code is unknown. The match is the table, as for the RP2040.
impl TryFrom<u8> for CoreVoltage235 {
    type Error = Refusal;

    ghost try_from_gives = { λ reading r. answer_of r ≡ core_voltage_of Rp235x reading };

    fn try_from(reading: u8) -> Result<CoreVoltage235, Refusal> {
        match reading {
            0 => Ok(CoreVoltage235::V0_55),
            1 => Ok(CoreVoltage235::V0_60),
            2 => Ok(CoreVoltage235::V0_65),
            3 => Ok(CoreVoltage235::V0_70),
            4 => Ok(CoreVoltage235::V0_75),
            5 => Ok(CoreVoltage235::V0_80),
            6 => Ok(CoreVoltage235::V0_85),
            7 => Ok(CoreVoltage235::V0_90),
            8 => Ok(CoreVoltage235::V0_95),
            9 => Ok(CoreVoltage235::V1_00),
            10 => Ok(CoreVoltage235::V1_05),
            11 => Ok(CoreVoltage235::V1_10),
            12 => Ok(CoreVoltage235::V1_15),
            13 => Ok(CoreVoltage235::V1_20),
            14 => Ok(CoreVoltage235::V1_25),
            15 => Ok(CoreVoltage235::V1_30),
            _ => Err(Refusal::VoltageReading),
        }
    }
}

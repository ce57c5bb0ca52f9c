// The settings in which two plans differ, as a mask and by name.
ghost use Rattle.std.specs.Prelude.{◌≡◌, ◌+◌, ◌*◌, ◌≤◌, ◌<◌};
ghost use Rattle.base.specs.Writing.{Puts};
ghost use Rattle.wording.specs.Rows.{row_text};
ghost use Rattle.wording.specs.Differences.{differences_of, has_bit, part_names, part_line, differences_text};

use crate::meanings::rows::row;
use crate::meanings::same::same_parts;
use base::Writer;
use settings::Settings;

// A bit for each setting in which the two differ, in the order of docs/FORMAT.md, Settings that count: chip, ring, crystal,
// system PLL, USB PLL, voltage code, settling step, reference, system, peripheral, USB, ADC, RTC.
pub fn differences(a: Settings, b: Settings) -> u32
    ensures { result ≡ differences_of a b }
{
    let parts = same_parts(a, b);
    let mut mask = 0;
    for same in parts.iter().rev() {
        mask = 2 * mask + u32::from(!*same);
    }
    mask
}

// Whether bit k of a mask is set; from 32 on there is no bit.
#[tactic(auto, using(crate::proofs::Bits::no_bit))]
pub fn has_bit(mask: u32, k: u8) -> bool
    ensures { result ≡ has_bit mask k }
{
    k < 32 && (mask >> k) % 2 == 1
}

static PARTS: [&str; 13] = [
    "chip",
    "ring oscillator",
    "crystal",
    "system PLL",
    "USB PLL",
    "voltage code",
    "settling step",
    "reference clock",
    "system clock",
    "peripheral clock",
    "USB clock",
    "ADC clock",
    "RTC clock",
];

// The name of part k, in the order of `differences`; nothing from 13 on.
#[tactic(auto, unfolding(crate::specs::Differences::part_names, crate::specs::Rows::row_text))]
fn part_name(k: u8) -> &'static [u8]
    ensures { result.now ≡ row_text part_names k }
{
    row(&PARTS, k)
}

// Writes the name of part k, in the order of `differences`; nothing from 13 on. A part goes by its number, as the bits of the mask do,
// and a number without a part has no name.
pub fn write_part_name(out: &mut Writer<'_, u8>, k: u8)
    ensures { Puts out.old (row_text part_names k) out.new }
{
    out.put_all(part_name(k));
}

// Writes the name of part k and a newline, where its bit is set.
#[tactic(auto, using(base::proofs::Writing::writing), unfolding(crate::specs::Differences::part_line))]
fn write_part(out: &mut Writer<'_, u8>, mask: u32, k: u8)
    ensures { Puts out.old (part_line mask k) out.new }
{
    if has_bit(mask, k) {
        write_part_name(out, k);
        out.put(b'\n');
    }
}

// Writes the names of the settings whose bits `differences` has set, one per line. It is for callers who want no more than the names;
// verdict writes the two plans' lines under each.
#[tactic(auto, using(crate::proofs::Differing::lines), unfolding(crate::specs::Differences::differences_text))]
pub fn write_differences(out: &mut Writer<'_, u8>, mask: u32)
    ensures { Puts out.old (differences_text mask) out.new }
{
    for k in 0..13 {
        write_part(out, mask, k);
    }
}

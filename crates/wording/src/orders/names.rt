// The orders that have a name.
ghost use Rattle.std.specs.Prelude.{◌≡◌};
ghost use Rattle.wording.specs.Orders.{name_of, letters_of, preset_numbered};

use text::Named;

// A preset of the library, or `plan`, which gives the numbers of a plan.
#[derive(Clone, Copy, Debug, PartialEq, Eq)]
pub enum Preset {
    System,
    SystemFrom,
    Crystal,
    Rosc,
    Default,
    Manual,
    Plan,
}

impl Preset {
    // A word is compared with their names, since a `match` on it would leave a goal for each byte at which two of them part.
    pub(crate) const ALL: [Preset; 7] = [
        Preset::System,
        Preset::SystemFrom,
        Preset::Crystal,
        Preset::Rosc,
        Preset::Default,
        Preset::Manual,
        Preset::Plan,
    ];

    // The letters of the words that the order takes.
    pub(crate) fn letters(self) -> &'static [u8]
        ensures { result.now ≡ letters_of self }
    {
        match self {
            Preset::System | Preset::Crystal => b"w",
            Preset::SystemFrom => b"ww",
            Preset::Rosc | Preset::Default => b"",
            Preset::Manual => b"wbhbbb",
            Preset::Plan => b"wwwwwwwwwwwwwwwwwwwwwwwwwwwwwwwwwwwwwwwwwwwooooo",
        }
    }
}

// The preset of a number: 0 to 5 in the order above; any other gives no plan of its own, as `plan` gives none.
impl From<u8> for Preset {
    ghost from_gives = { λ number preset. preset ≡ preset_numbered number };

    fn from(number: u8) -> Preset {
        match number {
            0 => Preset::System,
            1 => Preset::SystemFrom,
            2 => Preset::Crystal,
            3 => Preset::Rosc,
            4 => Preset::Default,
            5 => Preset::Manual,
            _ => Preset::Plan,
        }
    }
}

impl Named for Preset {
    ghost the_name = { name_of };

    fn name(self) -> &'static [u8] {
        match self {
            Preset::System => b"system",
            Preset::SystemFrom => b"system_from",
            Preset::Crystal => b"crystal",
            Preset::Rosc => b"rosc",
            Preset::Default => b"default",
            Preset::Manual => b"manual",
            Preset::Plan => b"plan",
        }
    }
}

// The fixed texts: help, and the usage of each command.
ghost use Rattle.std.specs.Prelude.{◌≡◌};
ghost use Rattle.base.specs.Writing.{Puts};
ghost use Rattle.wording.specs.Texts.{help_text, usage_text, usage_numbered};

use base::Writer;

// Writes the commands and the forms of an order, on one screen.
#[tactic(auto, unfolding(crate::specs::Texts::help_text))]
pub(crate) fn write_help(out: &mut Writer<'_, u8>)
    ensures { Puts out.old help_text out.new }
{
    out.put_all(
        b"Clock sheets of the RP2040 and the RP235x.\n\
        \n\
        dizbaral check READING SHEET ORDER    is this sheet the one that was ordered?\n\
        \x20   dizbaral check 11 @board.sheet system 125000000\n\
        dizbaral explain READING SHEET        a sheet in words\n\
        \x20   dizbaral explain 11 @board.sheet\n\
        dizbaral steps SHEET                  what each step does to which register\n\
        \x20   dizbaral steps @board.sheet\n\
        dizbaral make FILE READING ORDER      writes the sheet of an order to a file\n\
        \x20   dizbaral make board.sheet 11 rp235x system 150000000\n\
        dizbaral CASE                         one case of docs/CASES.md\n\
        \x20   dizbaral search 12000000 133000001\n\
        dizbaral help                         this text\n\
        \n\
        READING is the voltage code of the regulator as the sheet begins, 11 at 1.10 V.\n\
        SHEET is @FILE, or its bytes in hex.\n\
        ORDER is one of these, with rp235x before it for that chip, or a SHEET:\n\
        \x20   system HZ\n\
        \x20   system_from CRYSTAL HZ\n\
        \x20   crystal HZ\n\
        \x20   rosc\n\
        \x20   default\n\
        \x20   manual HZ REFDIV FBDIV POST1 POST2 CODE    of the RP2040 alone\n\
        \x20   plan NUMBERS                               48, of the RP235x 43\n",
    );
}

// Whose words a usage names: those of a case, of a command, or of `make`.
#[derive(Clone, Copy, Debug, PartialEq, Eq)]
pub enum Usage {
    Case,
    Explain,
    Steps,
    Check,
    Make,
}

impl Usage {
    fn text(self) -> &'static [u8]
        ensures { result.now ≡ usage_text self }
    {
        match self {
            Usage::Case => b"bad case\ndocs/CASES.md has the words that each case takes\n",
            Usage::Explain => b"bad case\nexplain takes READING SHEET: see dizbaral help\n",
            Usage::Steps => b"bad case\nsteps takes SHEET: see dizbaral help\n",
            Usage::Check => b"bad case\ncheck takes READING SHEET ORDER: see dizbaral help\n",
            Usage::Make => b"bad case\nmake takes FILE READING ORDER: see dizbaral help\n",
        }
    }
}

// The usage of a number: 0 to 4 in the order above, and any other is that of a case.
impl From<u8> for Usage {
    ghost from_gives = { λ number usage. usage ≡ usage_numbered number };

    fn from(number: u8) -> Usage {
        match number {
            1 => Usage::Explain,
            2 => Usage::Steps,
            3 => Usage::Check,
            4 => Usage::Make,
            _ => Usage::Case,
        }
    }
}

// Writes the answer to words that a command or a case does not take, with those that it takes.
pub fn write_usage(out: &mut Writer<'_, u8>, usage: Usage)
    ensures { Puts out.old (usage_text usage) out.new }
{
    out.put_all(usage.text());
}

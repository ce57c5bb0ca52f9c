// Packs steps into words and unpacks them, by shifts and masks with the widths of each kind's fields.
ghost use Rattle.std.specs.Prelude.{◌≡◌, ◌+◌, ◌-◌, ◌*◌, ◌/◌, ◌%◌, ◌^◌, ◌≤◌, ◌<◌, true};
ghost use Rattle.step.specs.{Steps.step_of, Steps.pack_of, Steps.unpack_of, Steps.kind_in, Steps.storable, Kinds.known, Inside.Laid};
ghost use Rattle.base.specs.Answer.{answer_of};

use crate::{Kind, Step};
use base::Refusal;

// The widths in bits of a kind's five fields; an absent field has width 0. They have no names, which would make the table below much
// longer.
#[derive(Drop)]
struct Widths(u32, u32, u32, u32, u32);

// The table of widths is a `match`, since with a constant kind it folds to the widths; an array would need the kind's number first.
#[tactic(auto, unfolding(crate::specs::Layout::layout))]
fn layout(kind: Kind) -> Widths
    ensures { Laid kind result }
{
    match kind {
        Kind::Reset => Widths(25, 0, 0, 0, 0), // reset write: mask
        Kind::Release => Widths(25, 0, 0, 0, 0), // release: mask
        Kind::WaitReleased => Widths(25, 0, 0, 0, 0), // wait released: mask
        Kind::ResusOff => Widths(0, 0, 0, 0, 0), // resus off
        Kind::SysSource => Widths(1, 0, 0, 0, 0), // set system source
        Kind::WaitSys => Widths(1, 0, 0, 0, 0), // wait for it
        Kind::RefSource => Widths(2, 0, 0, 0, 0), // set reference source
        Kind::WaitRef => Widths(2, 0, 0, 0, 0), // wait for it
        Kind::Strengths0To3 => Widths(3, 3, 3, 3, 0), // strengths 0 to 3
        Kind::Strengths4To7 => Widths(3, 3, 3, 3, 0), // strengths 4 to 7
        Kind::RingDivider => Widths(16, 0, 0, 0, 0), // ring divider
        Kind::RingOn => Widths(2, 0, 0, 0, 0), // ring on: range
        Kind::Voltage => Widths(4, 0, 0, 0, 0), // voltage code
        Kind::Delay => Widths(32, 0, 0, 0, 0), // delay: cycles
        Kind::Brownout => Widths(4, 0, 0, 0, 0), // brownout
        Kind::Startup => Widths(14, 0, 0, 0, 0), // startup delay
        Kind::CrystalOn => Widths(0, 0, 0, 0, 0), // crystal on
        Kind::WaitStable => Widths(0, 0, 0, 0, 0), // wait stable
        Kind::PllPower => Widths(1, 1, 1, 1, 1), // PLL, pd, vcopd, postdivpd, dsmpd
        Kind::PllReference => Widths(1, 6, 0, 0, 0), // PLL, reference divider
        Kind::PllFeedback => Widths(1, 12, 0, 0, 0), // PLL, feedback divider
        Kind::WaitLock => Widths(1, 0, 0, 0, 0), // PLL, wait for lock
        Kind::PllPosts => Widths(1, 3, 3, 0, 0), // PLL, posts
        Kind::PllPostOn => Widths(1, 0, 0, 0, 0), // PLL, post divider on
        Kind::RefControl => Widths(2, 0, 0, 0, 0), // reference control: source
        Kind::RefDivider => Widths(2, 0, 0, 0, 0), // reference divider
        Kind::Tick => Widths(9, 0, 0, 0, 0), // tick
        Kind::SysControl => Widths(2, 1, 0, 0, 0), // system control: aux, source
        Kind::SysDivider => Widths(24, 8, 0, 0, 0), // system divider
        Kind::PeriControl => Widths(3, 0, 0, 0, 0), // peripheral aux
        Kind::UsbDivider => Widths(2, 0, 0, 0, 0), // USB divider
        Kind::UsbControl => Widths(2, 2, 0, 0, 0), // USB phase, aux
        Kind::AdcDivider => Widths(2, 0, 0, 0, 0), // ADC divider
        Kind::AdcControl => Widths(2, 2, 0, 0, 0), // ADC phase, aux
        Kind::RtcDivider => Widths(24, 8, 0, 0, 0), // RTC divider
        Kind::RtcControl => Widths(2, 2, 0, 0, 0), // RTC phase, aux
        Kind::Store => Widths(4, 32, 0, 0, 0), // store: clock, Hz
        Kind::ChipMark => Widths(0, 0, 0, 0, 0), // chip mark: RP235x
        Kind::TimerCycles => Widths(9, 0, 0, 0, 0), // timer cycles
        Kind::TimerOn => Widths(0, 0, 0, 0, 0), // timer on
        Kind::WatchdogCycles => Widths(9, 0, 0, 0, 0), // watchdog cycles
        Kind::WatchdogOn => Widths(0, 0, 0, 0, 0), // watchdog on
        Kind::Voltage235 => Widths(5, 0, 0, 0, 0), // voltage code of the RP235x
        Kind::Brownout235 => Widths(5, 0, 0, 0, 0), // brownout of the RP235x
        Kind::SysDivider235 => Widths(16, 16, 0, 0, 0), // system divider of the RP235x
        Kind::Unknown(_) => Widths(0, 0, 0, 0, 0),
    }
}

// The w low bits of x.
fn low(x: u64, w: u32) -> u64
    requires { w < 64 }
    ensures { result ≡ x % 2 ^ w }
{
    x & ((1u64 << w) - 1)
}

// The w low bits of v, placed directly below bit `above`, over the bits of rest.
fn place(above: u32, w: u32, v: u64, rest: u64) -> u64
    requires { (w < 64) × (w ≤ above) × (above ≤ 64) × (above - w < 64) × (rest < 2 ^ (above - w)) }
    ensures { (result ≡ v % 2 ^ w * 2 ^ (above - w) + rest) × (result < 2 ^ above) }
{
    (low(v, w) << (above - w)) | rest
}

// The w bits of x directly below bit `above`.
fn bits(x: u64, above: u32, w: u32) -> u64
    requires { (w < 64) × (w ≤ above) × (above - w < 64) }
    ensures { (result ≡ x / 2 ^ (above - w) % 2 ^ w) × (result < 2 ^ w) }
{
    low(x >> (above - w), w)
}

// The word of the step with this kind and these fields; a field that is too large is truncated to its low bits. It takes numbers
// instead of a Step, so that a call with a constant kind compiles to the few shifts of that kind. The lowest bits of its fields, b0 to b3,
// stand in `unpack_as` too: a function that answers them would need a contract that is longer than they are.
pub fn pack(kind: Kind, f0: u64, f1: u64, f2: u64, f3: u64, f4: u64) -> u64
    ensures { result ≡ pack_of (step_of kind f0 f1 f2 f3 f4) }
{
    let w = layout(kind);
    let b0 = 58 - w.0;
    let b1 = b0 - w.1;
    let b2 = b1 - w.2;
    let b3 = b2 - w.3;
    let r4 = place(b3, w.4, f4, 0);
    let r3 = place(b2, w.3, f3, r4);
    let r2 = place(b1, w.2, f2, r3);
    let r1 = place(b0, w.1, f1, r2);
    let r0 = place(58, w.0, f0, r1);
    place(64, 6, u64::from(u8::from(kind)), r0)
}

// Whether a step may have these first two fields: a store has a clock up to 9, and the RTC (9) has at most 65535 Hz.
#[tactic(auto, unfolding(crate::specs::Steps::storable))]
fn allowed(kind: Kind, clock: u64, hz: u64) -> bool
    ensures { result ≡ storable kind clock hz }
{
    (kind != Kind::Store) | ((clock <= 9) & ((clock != 9) | (hz <= 65535)))
}

// The kind of a word, its six highest bits.
#[tactic(auto, unfolding(crate::specs::Steps::kind_in))]
fn kind_in(word: u64) -> Kind
    ensures { result ≡ kind_in word }
{
    Kind::from(bits(word, 64, 6) as u8)
}

// The step of a word of this kind; 20 where a spare bit is set or a store is not allowed.
fn unpack_as(kind: Kind, word: u64) -> Result<Step, Refusal>
    requires { (kind ≡ kind_in word) × (known kind ≡ true) }
    ensures { answer_of result ≡ unpack_of word }
{
    let w = layout(kind);
    let b0 = 58 - w.0;
    let b1 = b0 - w.1;
    let b2 = b1 - w.2;
    let b3 = b2 - w.3;
    let f0 = bits(word, 58, w.0);
    let f1 = bits(word, b0, w.1);
    let f2 = bits(word, b1, w.2);
    let f3 = bits(word, b2, w.3);
    let f4 = bits(word, b3, w.4);
    let spare = low(word, b3 - w.4);
    let sound = (spare == 0) & allowed(kind, f0, f1);
    if !sound {
        return Err(Refusal::NotASheet);
    }
    Ok(Step {
        kind,
        f0,
        f1,
        f2,
        f3,
        f4,
    })
}

// The step of a word; 20 for an unknown kind, a set spare bit or a store that is not allowed. Each kind has an arm, since a call
// with a constant kind compiles to the few shifts of that kind: with two arms, for an unknown kind and for the others, a call of a runner
// takes 81 instructions more (docs/SPEED.md, What was tried).
pub(crate) fn unpack(word: u64) -> Result<Step, Refusal>
    ensures { answer_of result ≡ unpack_of word }
{
    match kind_in(word) {
        Kind::Reset => unpack_as(Kind::Reset, word),
        Kind::Release => unpack_as(Kind::Release, word),
        Kind::WaitReleased => unpack_as(Kind::WaitReleased, word),
        Kind::ResusOff => unpack_as(Kind::ResusOff, word),
        Kind::SysSource => unpack_as(Kind::SysSource, word),
        Kind::WaitSys => unpack_as(Kind::WaitSys, word),
        Kind::RefSource => unpack_as(Kind::RefSource, word),
        Kind::WaitRef => unpack_as(Kind::WaitRef, word),
        Kind::Strengths0To3 => unpack_as(Kind::Strengths0To3, word),
        Kind::Strengths4To7 => unpack_as(Kind::Strengths4To7, word),
        Kind::RingDivider => unpack_as(Kind::RingDivider, word),
        Kind::RingOn => unpack_as(Kind::RingOn, word),
        Kind::Voltage => unpack_as(Kind::Voltage, word),
        Kind::Delay => unpack_as(Kind::Delay, word),
        Kind::Brownout => unpack_as(Kind::Brownout, word),
        Kind::Startup => unpack_as(Kind::Startup, word),
        Kind::CrystalOn => unpack_as(Kind::CrystalOn, word),
        Kind::WaitStable => unpack_as(Kind::WaitStable, word),
        Kind::PllPower => unpack_as(Kind::PllPower, word),
        Kind::PllReference => unpack_as(Kind::PllReference, word),
        Kind::PllFeedback => unpack_as(Kind::PllFeedback, word),
        Kind::WaitLock => unpack_as(Kind::WaitLock, word),
        Kind::PllPosts => unpack_as(Kind::PllPosts, word),
        Kind::PllPostOn => unpack_as(Kind::PllPostOn, word),
        Kind::RefControl => unpack_as(Kind::RefControl, word),
        Kind::RefDivider => unpack_as(Kind::RefDivider, word),
        Kind::Tick => unpack_as(Kind::Tick, word),
        Kind::SysControl => unpack_as(Kind::SysControl, word),
        Kind::SysDivider => unpack_as(Kind::SysDivider, word),
        Kind::PeriControl => unpack_as(Kind::PeriControl, word),
        Kind::UsbDivider => unpack_as(Kind::UsbDivider, word),
        Kind::UsbControl => unpack_as(Kind::UsbControl, word),
        Kind::AdcDivider => unpack_as(Kind::AdcDivider, word),
        Kind::AdcControl => unpack_as(Kind::AdcControl, word),
        Kind::RtcDivider => unpack_as(Kind::RtcDivider, word),
        Kind::RtcControl => unpack_as(Kind::RtcControl, word),
        Kind::Store => unpack_as(Kind::Store, word),
        Kind::ChipMark => unpack_as(Kind::ChipMark, word),
        Kind::TimerCycles => unpack_as(Kind::TimerCycles, word),
        Kind::TimerOn => unpack_as(Kind::TimerOn, word),
        Kind::WatchdogCycles => unpack_as(Kind::WatchdogCycles, word),
        Kind::WatchdogOn => unpack_as(Kind::WatchdogOn, word),
        Kind::Voltage235 => unpack_as(Kind::Voltage235, word),
        Kind::Brownout235 => unpack_as(Kind::Brownout235, word),
        Kind::SysDivider235 => unpack_as(Kind::SysDivider235, word),
        Kind::Unknown(_) => Err(Refusal::NotASheet),
    }
}

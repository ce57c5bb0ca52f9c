// How a sheet brings the clocks up. The code is the bound on the calls until done (docs/FORMAT.md, How long a run takes); the theorems are
// in specs/ and proofs/. A runner gives out every step and is done (specs/ComesUp). The machine that carries out the steps
// (specs/Machine) gives each clock a frequency by its registers (specs/Tree): for every accepted plan its chip carries out each step
// (specs/Carried), each clock runs at the frequency that the sheet stores (specs/Times), each wait can end, and a clock is switched
// only to a source that runs (specs/ClockWaits).
#![tactic(auto)]

ghost use Rattle.std.specs.Prelude.{◌≡◌};
ghost use Rattle.bring_up.specs.ComesUp.{longest_wait};

use runner::MOST_LOCK_POLLS;
use step::MAX_STEPS;

// The greatest number of waits in a sheet.
const MAX_WAITS: u32 = 10;

// Upper bound on the calls before done, with at most k unready polls at each wait: `comes-up` (proofs/ComesUp). From
// k = 1000000 on a lock can time out, so there is no bound, and the answer is 4294967295, which
// docs/FORMAT.md and the C call name.
#[tactic(auto, using(std::proofs::lemmas::Bool::Decides::nat_tests), unfolding(crate::specs::ComesUp::longest_wait))]
pub fn longest_wait(k: u32) -> u32
    ensures { result ≡ longest_wait k }
{
    if k <= MOST_LOCK_POLLS {
        MAX_STEPS as u32 + MAX_WAITS * k
    } else {
        4294967295
    }
}

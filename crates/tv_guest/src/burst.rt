//! Events of a hart in a row.

ghost use Rattle.std.specs.Prelude.{◌≡◌, ◌<◌, ◌≤◌, None};
ghost use Rattle.tv_hart.specs.declared.Did.TheVariants as did;
ghost use Rattle.tv_hart.specs.Hart.{stepped};
ghost use Rattle.tv_spec.specs.declared.Shown.{Shown};
ghost use Rattle.tv_spec.specs.Local.{local_meaning};
ghost use Rattle.tv_spec.specs.LocalState.{lines_of};
ghost use Rattle.tv_spec.specs.Setup.{Setup};
ghost use Rattle.tv_spec.specs.State.{State};
ghost use Rattle.tv_guest.specs.Burst.{IsBurst, Stands, mode_then};
ghost use Rattle.tv_guest.specs.Row.{IsRow};
ghost use Rattle.tv_trap.specs.Traps.{pending_interrupt};

use crate::local::Local;
use tv_base::HartNo;
use tv_hart::{Did, Hart};
use tv_spec::Shown;

/// So many events of the hart with a number, or fewer where one showed something or needs what is closed: how many were made, and
/// what the last one showed.
#[inline(always)]
pub fn run_events(hart: &mut Hart, local: &mut Local, number: HartNo, most: u32) -> (u32, Shown)
    requires ready { hart.old.waits ≡ None }
    requires quiet { local.old.shown ≡ Shown.Nothing }
    ensures burst { (setup : Setup) (s : State) → Stands setup s number hart.old local.old.local most
        → IsBurst setup s number result.0 hart.new local.new.local (mode_then setup s result.0 result.1) local.old.closed result.1 }
    ensures quiet { local.new.shown ≡ Shown.Nothing }
    ensures gate { local.new.closed ≡ local.old.closed }
    ensures few { result.0 ≤ most }
    ensures all { result.0 < most → result.1 ≡ Shown.Nothing
        → (stepped local_meaning hart.new local.new (lines_of local.new.local number)).0 ≡ did.Full }
    ensures same { result.0 ≡ 0 → (hart.new ≡ hart.old) × (local.new ≡ local.old) × (result.1 ≡ Shown.Nothing) }
{
    let mut made = 0;
    loop {
        let lines = local.lines(number);
        made += run_quiet(hart, local, lines, most - made);
        if made == most {
            return (most, Shown::Nothing);
        }
        match hart.step(local, lines) {
            Did::Retired | Did::Trapped(_) | Did::Held => match local.take_shown() {
                Shown::Nothing => made += 1,
                shown => return (made + 1, shown),
            },
            Did::Full => return (made, Shown::Nothing),
        }
    }
}

/// Events of the hart that stay in memory, up to so many, while these lines are up; how many were made. None where an interrupt is to be
/// taken.
#[inline(always)]
fn run_quiet(hart: &mut Hart, local: &mut Local, lines: u64, most: u32) -> u32
    ensures row { IsRow lines hart.old local.old result hart.new local.new }
    ensures few { result ≤ most }
{
    if hart.is_interrupted(lines) {
        return 0;
    }
    run_row(hart, local, lines, most)
}

/// The same where no interrupt is to be taken.
#[inline(always)]
#[tactic(auto, using(crate::proofs::Rows::uncounted_start, crate::proofs::Rows::uncounted_more))]
fn run_row(hart: &mut Hart, local: &mut Local, lines: u64, most: u32) -> u32
    requires { pending_interrupt hart.old.csrs lines ≡ None }
    ensures row { IsRow lines hart.old local.old result hart.new local.new }
    ensures few { result ≤ most }
{
    let mut made = 0;
    while made < most && hart.plain(local) {
        made += 1;
    }
    hart.count(made);
    made
}

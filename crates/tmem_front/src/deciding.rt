// How an attempt is settled under the core's lock.
ghost use Rattle.std.specs.Prelude.{◌≡◌, ◌≢◌, false, Err, length};
ghost use Rattle.tmem_core.specs.Decisions.{answer_of, RetriesAt};
ghost use Rattle.tmem_core.specs.SettleAnswer.{has_changed};
ghost use Rattle.tmem_spine.specs.History.{count};
ghost use Rattle.tmem_tentative.specs.Fits.{IsForVariables, IsForNames};
ghost use Rattle.tmem_seats.specs.Histories.{state_after_history};
ghost use Rattle.tmem_seats.specs.Settling.{SettlesPass};

use tmem_core::Decision;
use tmem_fault::Fault;
use tmem_invariants::Invariants;
use tmem_seats::{CoreSeat, StoreNaming};
use tmem_spine::{PassSide, Spine};
use tmem_tentative::Attempt;

// Settles an attempt for the seat of a pass. Values that are present give no conflict.
pub(crate) fn decide<N: StoreNaming, T: Invariants + Drop>(
    core: &mut CoreSeat<N, T>,
    spine: &Spine<N>,
    seat: &mut PassSide<N>,
    attempt: &Attempt,
) -> Result<Decision, Fault>
    requires variables { IsForVariables (length N.opening.values) attempt.now }
    requires names { IsForNames N.program.names attempt.now }
    ensures settled { SettlesPass N.name.start N.opening N.program attempt.now seat.old (answer_of result attempt.now.registers) seat.new }
    ensures present { has_changed (state_after_history N.opening core.old.committed) attempt.now.reads.entries ≡ false → result ≢ Err Fault.Conflict }
    ensures retries { RetriesAt (count N.name.start core.new.committed) result }
{
    core.decide(spine, seat, attempt)
}

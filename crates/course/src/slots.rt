//! Slots run by a keeper: at each check its pick is granted, the plants reply, and the next state is reported.
ghost use Rattle.std.specs.Prelude.{◌≡◌, length};
ghost use Rattle.game.specs.Answers.{solved, map_after};
ghost use Rattle.keeper.specs.Arming.{armed};
ghost use Rattle.course.specs.Slots.{SafeOn, slot, slots, state_after, record_after, RunsSlots};
ghost use Rattle.course.specs.Lost.{TellsLost};
ghost use Rattle.std.specs.Option.{option_map};
ghost use Rattle.course.specs.Recorded.{record_told, RecordsSlots, RecordsCourse, RecordsLost};
ghost use Rattle.course.specs.declared.slots.RecordFault.TheVariants.{Refused, Memory};

use crate::check::{Check, UNUSED};
use crate::plants::reply;
use game::board::Board;
use game::solution::Refusal;
use keeper::arming::{Armed, synthesise};
use keeper::slot::Ready;
use std::alloc::{AllocError, Global};
use traffic::Traffic;

/// The keeper after slots that were run, and the record of them.
#[derive(Drop)]
pub struct Recorded {
    pub armed: Armed,
    pub checks: Vec<Check>,
}

/// Why no record of slots is made.
#[derive(Clone, Copy, PartialEq, Eq, Debug)]
pub enum RecordFault {
    /// No keeper is armed.
    Refused(Refusal),
    /// There is no memory for the record.
    Memory,
}

impl RecordFault {
    /// The refusal's number; absent for want of memory, which has none.
    pub fn number(self) -> Option<u8>
        ensures { result ≡ option_map (λ t. t.number) (record_told self) }
    {
        let RecordFault::Refused(cause) = self else {
            return None;
        };
        Some(cause.number())
    }
}

// By hand, since clauses name the fault that a `?` makes, and a derived From says nothing of it.
impl From<Refusal> for RecordFault {
    ghost from_gives = { λ e r. r ≡ Refused e };

    fn from(refusal: Refusal) -> RecordFault {
        RecordFault::Refused(refusal)
    }
}

impl From<AllocError> for RecordFault {
    ghost from_gives = { λ _ r. r ≡ Memory };

    fn from(_: AllocError) -> RecordFault {
        RecordFault::Memory
    }
}

// One slot, of a keeper that is ready in a safe state: there is a pick there and it is granted, and there is a reply and it
// is taken.
fn run_slot<T: Traffic>(board: Board<'_, T>, keeper: Ready) -> (Ready, Check)
    requires safe { SafeOn (T.meaning board.traffic.now) board.map.now keeper.state }
    ensures { result ≡ (record { state = (slot (T.meaning board.entry.traffic.now) keeper.state).next }, slot (T.meaning board.entry.traffic.now) keeper.state) }
{
    let state = keeper.state();
    let Ok(pick) = keeper.pick(board) else {
        unreachable!()
    };
    let Some(mv) = pick else { unreachable!() };
    let Ok(waiting) = keeper.grant(board, mv) else {
        unreachable!()
    };
    let Some(next) = reply(board, state, mv) else {
        unreachable!()
    };
    let Ok(keeper) = waiting.report(board, next) else {
        unreachable!()
    };
    (keeper, Check { state, mv, next })
}

// As many slots as the record has places.
fn run_all<T: Traffic>(board: Board<'_, T>, armed: Ready, checks: &mut [Check]) -> Ready
    requires safe { SafeOn (T.meaning board.traffic.now) board.map.now armed.state }
    ensures keeper { result ≡ record { state = state_after (T.meaning board.entry.traffic.now) (length checks.old) armed.state } }
    ensures noted { checks.new ≡ slots (T.meaning board.entry.traffic.now) (length checks.old) armed.state }
{
    let mut keeper = armed;
    for place in checks.iter_mut() {
        let (next, check) = run_slot(board, keeper);
        keeper = next;
        *place = check;
    }
    keeper
}

// The answer, the record and the map afterwards. Apart from run_slots, so that the theorem is proved over one exit.
fn arm_and_run<T: Traffic>(
    traffic: &T,
    start: usize,
    map: &mut [u16],
    checks: &mut [Check],
) -> Result<Armed, Refusal>
    ensures answer { result ≡ armed (state_after (T.meaning traffic.now) (length checks.old) start) (solved (T.meaning traffic.now) start map.old) }
    ensures noted { checks.new ≡ record_after (T.meaning traffic.now) start map.old checks.old }
    ensures after { map.new ≡ map_after (T.meaning traffic.now) start map.old }
{
    let Armed { keeper, tally } = synthesise(traffic, start, map)?;
    let keeper = run_all(Board { traffic, map }, keeper, checks);
    Ok(Armed { keeper, tally })
}

/// Arms a keeper at the start, and runs as many slots with it as the record has places; each is noted there. The keeper is
/// ready again after the last. Where there is no schedule no keeper is armed, and the record stays as it was; the map is
/// filled, so that `lost_play` on it ends in a jam.
pub fn run_slots<T: Traffic>(
    traffic: &T,
    start: usize,
    map: &mut [u16],
    checks: &mut [Check],
) -> Result<Armed, Refusal>
    ensures answer { result ≡ armed (state_after (T.meaning traffic.now) (length checks.old) start) (solved (T.meaning traffic.now) start map.old) }
    ensures noted { checks.new ≡ record_after (T.meaning traffic.now) start map.old checks.old }
    ensures after { map.new ≡ map_after (T.meaning traffic.now) start map.old }
    ensures course { RunsSlots (T.meaning traffic.now) start checks.new result }
    ensures lost { TellsLost (T.meaning traffic.now) start map.new result }
{
    arm_and_run(traffic, start, map, checks)
}

// The answer and the map afterwards. Apart from record_slots, so that the theorems are proved over one exit.
fn arm_and_record<T: Traffic>(
    heap: Global,
    traffic: &T,
    start: usize,
    map: &mut [u16],
    slots: usize,
) -> Result<Recorded, RecordFault>
    ensures answer { RecordsSlots (T.meaning traffic.now) start slots (solved (T.meaning traffic.now) start map.old) result }
    ensures after { map.new ≡ map_after (T.meaning traffic.now) start map.old }
{
    let armed = synthesise(traffic, start, map)?;
    let mut checks = vec![in heap; UNUSED; slots]?;
    let keeper = run_all(Board { traffic, map }, armed.keeper, &mut checks);
    let armed = Armed {
        keeper,
        tally: armed.tally,
    };
    Ok(Recorded { armed, checks })
}

/// Arms a keeper at the start, runs so many slots with it, and hands out the record of them: what `run_slots` notes. Memory is
/// wanted only once a keeper is armed, for the record. Where there is no schedule the map is filled, so that `lost_play` on it
/// ends in a jam.
pub fn record_slots<T: Traffic>(
    heap: Global,
    traffic: &T,
    start: usize,
    map: &mut [u16],
    slots: usize,
) -> Result<Recorded, RecordFault>
    ensures answer { RecordsSlots (T.meaning traffic.now) start slots (solved (T.meaning traffic.now) start map.old) result }
    ensures after { map.new ≡ map_after (T.meaning traffic.now) start map.old }
    ensures course { RecordsCourse (T.meaning traffic.now) start result }
    ensures lost { RecordsLost (T.meaning traffic.now) start map.new result }
{
    arm_and_record(heap, traffic, start, map, slots)
}

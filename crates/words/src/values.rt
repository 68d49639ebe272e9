//! The cases of each enum.
use crate::numbers::Numbers;
use cases::difference::Difference;
use course::account::{Account, Sends};
use game::map_fault::MapFault;
use game::solution::{Refusal, Tally};
use keeper::service::{Answer, Call};
use keeper::slot_fault::SlotFault;
use site::site::group::GroupFault;
use site_read::fault::{Fault, Report};
use site_write::write::WriteFault;
use verdict::Verdict;

pub const MAP_FAULTS: [MapFault; 3] = [
    MapFault::OverLimits,
    MapFault::ShortMap,
    MapFault::NoSuchState,
];

pub const SLOT_FAULTS: [SlotFault; 5] = [
    SlotFault::Map(MapFault::OverLimits),
    SlotFault::Map(MapFault::ShortMap),
    SlotFault::Map(MapFault::NoSuchState),
    SlotFault::NotPermitted,
    SlotFault::NoNextState,
];

pub const GROUP_FAULTS: [GroupFault; 2] = [GroupFault::OverLimits, GroupFault::NoSuchState];

pub fn report(numbers: Numbers) -> Report {
    Report {
        number: numbers.byte,
        place: numbers.byte,
        at: numbers.count,
    }
}

pub fn faults(numbers: Numbers) -> [Fault; 8] {
    let place = numbers.byte;
    let at = numbers.count;
    [
        Fault::Truncated { place, at },
        Fault::Mark { at },
        Fault::Version,
        Fault::LoopCount,
        Fault::Kind { place, at },
        Fault::Number { place, at },
        Fault::Set { place, at },
        Fault::Trailing { at },
    ]
}

pub fn write_faults(numbers: Numbers) -> [WriteFault; 2] {
    [WriteFault::NoLoops, WriteFault::TooShort(numbers.count)]
}

fn tally(numbers: Numbers) -> Tally {
    Tally {
        winning: numbers.count,
        rounds: numbers.mark,
    }
}

pub fn refusals(numbers: Numbers) -> [Refusal; 4] {
    [
        Refusal::Map(MapFault::OverLimits),
        Refusal::Map(MapFault::ShortMap),
        Refusal::Map(MapFault::NoSuchState),
        Refusal::NoSchedule {
            count: numbers.mark,
            tally: tally(numbers),
        },
    ]
}

pub fn verdicts(numbers: Numbers) -> [Verdict; 3] {
    let states = numbers.count;
    let tally = tally(numbers);
    [
        Verdict::Schedule { states, tally },
        Verdict::NoSchedule {
            states,
            tally,
            count: numbers.mark,
        },
        Verdict::Refused(report(numbers)),
    ]
}

pub fn calls(numbers: Numbers) -> [Call; 6] {
    let mv = numbers.count;
    let state = numbers.count;
    [
        Call::Permits(mv),
        Call::Pick,
        Call::Grant(mv),
        Call::Report(state),
        Call::PermitsIn { state, mv },
        Call::Spoiler { state, mv },
    ]
}

pub fn answers(numbers: Numbers) -> [Answer; 14] {
    let [
        over_limits,
        short_map,
        no_such_state,
        not_permitted,
        no_next_state,
    ] = SLOT_FAULTS;
    [
        Answer::Permitted(true),
        Answer::Permitted(false),
        Answer::Picked(None),
        Answer::Picked(Some(numbers.count)),
        Answer::Granted,
        Answer::Taken,
        Answer::Spoiled(None),
        Answer::Spoiled(Some(numbers.count)),
        Answer::Refused(over_limits),
        Answer::Refused(short_map),
        Answer::Refused(no_such_state),
        Answer::Refused(not_permitted),
        Answer::Refused(no_next_state),
        Answer::OutOfTurn,
    ]
}

pub fn difference(numbers: Numbers) -> Difference {
    Difference {
        place: numbers.count,
        found: numbers.mark,
        expected: numbers.mark,
    }
}

/// Of a course without a jam by a traffic without a loop, and of one into a jam by a traffic with all eight.
pub fn accounts(numbers: Numbers) -> [Account; 2] {
    let count = numbers.count;
    [(None, false), (Some(count), true)].map(|(sent, met_jam)| Account {
        slots: count,
        sends: Sends { counts: [sent; 8] },
        longest_silence: count,
        met_jam,
    })
}

//! Small sites and files whose figures can be worked out by hand, and are proved of the definitions that the contracts of the
//! other crates cite.
//!
//! Begin with `specs/Sites.antt` and `specs/Facts.antt`: with pencil and paper a newcomer learns from them what marks, counts
//! and picks are, and a reviewer sees that the definitions mean what they should.
#![tactic(auto)]

ghost use Rattle.std.specs.Prelude.{◌≡◌};
ghost use Rattle.positions.specs.Facts.{CheckedPositions};
ghost use Rattle.positions.specs.Figures.{worked_out};

use site_read::fault::Report;

/// What the game of a site, or of a traffic by itself, comes to. It has N states.
#[derive(Clone, Copy)]
pub struct WorkedSite<const N: usize> {
    /// The mark of each state, in the order of their numbers.
    pub marks: [u16; N],
    /// Where there is no schedule from state 0, the least number of checks within which every rule is led into a jam.
    pub count: Option<u16>,
    /// The lowest permitted move in state 0, if there is one.
    pub pick: Option<usize>,
}

/// A file of N bytes, and why it is refused, if it is.
#[derive(Clone, Copy)]
pub struct WorkedFile<const N: usize> {
    pub bytes: [u8; N],
    pub refused: Option<Report>,
}

/// The figures of each site and file. A loop of so many checks has one region, and is due at the last of them.
#[derive(Clone, Copy)]
pub struct WorkedExamples {
    pub empty_traffic: WorkedSite<1>,
    /// Four vacant places.
    pub no_loops: WorkedSite<1>,
    /// A loop of one check.
    pub always_due: WorkedSite<1>,
    pub two_always_due: WorkedSite<1>,
    pub two_of_two_checks: WorkedSite<4>,
    pub three_of_two_checks: WorkedSite<8>,
    /// A contract with gaps and holds of one or two checks, and a loop of two.
    pub contract_and_two_checks: WorkedSite<6>,
    /// The spoiler's answer to move 1 in state 2 there.
    pub counterplay: Option<usize>,
    pub contract_and_three_checks: WorkedSite<9>,
    /// The file of two loops of two checks.
    pub whole: WorkedFile<22>,
    /// The same without its last byte.
    pub cut_short: WorkedFile<21>,
    /// The same with a set of a region that there is not.
    pub stray_set: WorkedFile<22>,
}

/// The worked examples, to be checked by hand.
// The prover computes the figures from the definitions, so the attribute names each definition that it has to open.
#[tactic(auto, using(crate::proofs::Checked::checked_positions), unfolding(traffic::specs::Searches::some_below, traffic::specs::Searches::every_below, traffic::specs::Searches::least, traffic::specs::Meaning::legal, traffic::specs::Answered::within_limits, traffic::specs::Meaning::jam, game::specs::Game::keeps_in, game::specs::Game::holds_out, game::specs::Game::Z, game::specs::Game::mark_by, game::specs::Game::mark, game::specs::Game::permitted_by, game::specs::Choice::pick_by, game::specs::Choice::threat, game::specs::Choice::comes_before, game::specs::Choice::worst, game::specs::Choice::spoiler_by, game::specs::Filling::values, game::specs::Maps::turned_away))]
pub fn worked_examples() -> WorkedExamples
    ensures facts { CheckedPositions }
    ensures figures { result ≡ worked_out }
{
    // Four vacant places come to what the empty traffic does.
    let without_loops = WorkedSite {
        marks: [0],
        count: None,
        pick: Some(0),
    };
    WorkedExamples {
        empty_traffic: without_loops,
        no_loops: without_loops,
        always_due: WorkedSite {
            marks: [0],
            count: None,
            pick: Some(1),
        },
        two_always_due: WorkedSite {
            marks: [1],
            count: Some(0),
            pick: None,
        },
        two_of_two_checks: WorkedSite {
            marks: [0, 0, 0, 1],
            count: None,
            pick: Some(1),
        },
        three_of_two_checks: WorkedSite {
            marks: [2, 2, 2, 1, 2, 1, 1, 1],
            count: Some(1),
            pick: None,
        },
        contract_and_two_checks: WorkedSite {
            marks: [3, 3, 2, 1, 4, 1],
            count: Some(2),
            pick: None,
        },
        counterplay: Some(5),
        contract_and_three_checks: WorkedSite {
            marks: [0, 0, 0, 0, 2, 1, 0, 0, 1],
            count: None,
            pick: Some(1),
        },
        whole: WorkedFile {
            bytes: [
                76, 75, 84, 0, 1, 2, 1, 1, 1, 2, 0, 1, 0, 1, 1, 1, 1, 2, 0, 1, 0, 1,
            ],
            refused: None,
        },
        cut_short: WorkedFile {
            bytes: [
                76, 75, 84, 0, 1, 2, 1, 1, 1, 2, 0, 1, 0, 1, 1, 1, 1, 2, 0, 1, 0,
            ],
            refused: Some(Report {
                number: 1,
                place: 2,
                at: 21,
            }),
        },
        stray_set: WorkedFile {
            bytes: [
                76, 75, 84, 0, 1, 2, 1, 1, 1, 2, 0, 2, 0, 1, 1, 1, 1, 2, 0, 1, 0, 1,
            ],
            refused: Some(Report {
                number: 7,
                place: 1,
                at: 10,
            }),
        },
    }
}

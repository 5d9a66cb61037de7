// The tracker's calls: a fresh tracker, and five calls on one that is lent; a refused call leaves it as it came. An add, a take-back and a clear lend the
// tracker's fields to the call in place; a list and a count lend them for reading. The contracts hold of every tracker, also of one that no calls
// have made. `Fields` is written out at each call, for the reason that stands over it.
#![tactic(auto)]

pub mod in_place;
mod letters;

ghost use Rattle.std.specs.Prelude.{◌≡◌};
ghost use Rattle.abelian.specs.Answers.{answered_outcome, answered_wrote, answered_needed};
ghost use Rattle.abelian.specs.Trackers.{fresh_tracker, adding, taking_back, clearing, tracker_listing, tracker_count};
ghost use Rattle.tracker.specs.Fields.{as_step};

use abelian::{BOARD, LONGEST, Refusal, Tracker};
use in_place::Fields;

// A fresh tracker, all zero: no letters, and no pair has ended.
pub fn fresh() -> Tracker
    ensures { result ≡ fresh_tracker }
{
    Tracker {
        len: 0,
        bytes: [0; LONGEST],
        board: [0; BOARD],
        live: 0,
        ended: 0,
    }
}

// Adds a letter at the end, and ends the open pairs that are no Abelian period of the letters then held.
pub fn add(tracker: &mut Tracker, letter: u8) -> Result<(), Refusal>
    ensures { as_step tracker.new (answered_outcome result) ≡ adding tracker.old letter }
{
    let mut fields = Fields {
        len: &mut tracker.len,
        bytes: &mut tracker.bytes,
        board: &mut tracker.board,
        live: &mut tracker.live,
        ended: &mut tracker.ended,
    };
    fields.add(letter)
}

// Takes the last letter back, and opens the pairs again that ended with it.
pub fn take_back(tracker: &mut Tracker) -> Result<(), Refusal>
    ensures { as_step tracker.new (answered_outcome result) ≡ taking_back tracker.old }
{
    let mut fields = Fields {
        len: &mut tracker.len,
        bytes: &mut tracker.bytes,
        board: &mut tracker.board,
        live: &mut tracker.live,
        ended: &mut tracker.ended,
    };
    fields.take_back()
}

// Leaves a fresh tracker, whatever the tracker was.
pub fn clear(tracker: &mut Tracker) -> Result<(), Refusal>
    ensures { as_step tracker.new (answered_outcome result) ≡ clearing tracker.old }
{
    let mut fields = Fields {
        len: &mut tracker.len,
        bytes: &mut tracker.bytes,
        board: &mut tracker.board,
        live: &mut tracker.live,
        ended: &mut tracker.ended,
    };
    fields.clear()
}

// Lists the open pairs in range for the letters held. They are counted before the first word is written, so that a refusal leaves the slice
// as it came.
pub fn list(tracker: &Tracker, out: &mut [u32]) -> Result<usize, Refusal>
    ensures { as_step tracker.now (answered_wrote result out.new) ≡ tracker_listing tracker.now out.old }
{
    in_place::list(tracker.len, &tracker.bytes, &tracker.board, out)
}

// How many pairs a list would write.
pub fn count(tracker: &Tracker) -> Result<usize, Refusal>
    ensures { as_step tracker.now (answered_needed result) ≡ tracker_count tracker.now }
{
    in_place::count(tracker.len, &tracker.bytes, &tracker.board)
}

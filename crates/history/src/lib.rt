// Histories: lists of calls from a fresh tracker. The claim over every list of calls stands in specs/History.antt, its theorem in
// proofs/History.antt; here is the call that runs a list of calls, so that the claim is also about code. `Fields` is written out there, for the reason that stands over it in `tracker`.
#![tactic(auto)]

pub mod in_place;

ghost use Rattle.std.specs.Prelude.{◌≡◌};
ghost use Rattle.history.specs.Replay.{replaying};
ghost use Rattle.history.specs.Replayed.{replay_of};

use abelian::{Refusal, Tracker};
use tracker::fresh;
use tracker::in_place::Fields;

// The tracker after a replay, and beside it the two fields of `ReplayAnswer`, which callers read by name: a field of that type would be no plainer.
#[derive(Drop)]
pub struct Replayed {
    pub tracker: Tracker,
    pub refused: usize,
    pub wrote: Result<usize, Refusal>,
}

// Reads a log of calls: from a fresh tracker the calls that its bytes stand for, and then one list into the slice. All of it is what the
// machine gives for these calls.
pub fn replay(calls: &[u8], out: &mut [u32]) -> Replayed
    ensures { replay_of result out.new ≡ replaying calls.now out.old }
{
    let mut tracker = fresh();
    let mut fields = Fields {
        len: &mut tracker.len,
        bytes: &mut tracker.bytes,
        board: &mut tracker.board,
        live: &mut tracker.live,
        ended: &mut tracker.ended,
    };
    let answer = in_place::replay(calls, out, &mut fields);
    Replayed {
        tracker,
        refused: answer.refused,
        wrote: answer.wrote,
    }
}

// A replay in place: the calls that the bytes of a log stand for, made on a tracker that the caller lends, and then one list.
ghost use Rattle.std.specs.Prelude.{◌≡◌};
ghost use Rattle.abelian.specs.Answers.{answered_outcome, answered_wrote};
ghost use Rattle.tracker.specs.Fields.{as_step};
ghost use Rattle.tracker.specs.Lent.{lent, SameFields};
ghost use Rattle.history.specs.Calls.{step};
ghost use Rattle.history.specs.Made.{made};
ghost use Rattle.history.specs.Replay.{call_of, as_replay, replaying};

use abelian::Refusal;
use tracker::in_place::{Fields, list};

// A call that a byte of a log stands for.
#[derive(Clone, Copy, PartialEq, Eq)]
enum Call {
    Add(u8),
    TakeBack,
    Clear,
}

impl From<u8> for Call {
    ghost from_gives = { λ byte call. made call ≡ call_of byte };

    // `-` takes back, `!` clears, and any other byte is added.
    #[tactic(auto, unfolding(crate::specs::Replay::call_of))]
    fn from(byte: u8) -> Call {
        match byte {
            b'-' => Call::TakeBack,
            b'!' => Call::Clear,
            _ => Call::Add(byte),
        }
    }
}

impl Call {
    // Makes the call on the tracker that is lent. That the references stay the same is promised here and by `replay` as by the calls of `Fields`, for the reason that stands over it.
    #[tactic(auto, unfolding(crate::specs::Calls::step))]
    fn make(self, fields: &mut Fields) -> Result<(), Refusal>
        ensures same { SameFields fields.old fields.new }
        ensures step { as_step (lent fields.new) (answered_outcome result) ≡ step (lent fields.old) (made self) }
    {
        match self {
            Call::Add(letter) => fields.add(letter),
            Call::TakeBack => fields.take_back(),
            Call::Clear => fields.clear(),
        }
    }
}

// What a replay answers: how many of its calls were refused, and what the list answered.
#[derive(Clone, Copy, PartialEq, Eq)]
pub struct ReplayAnswer {
    pub refused: usize,
    pub wrote: Result<usize, Refusal>,
}

// Reads a log of calls: the lent tracker is made fresh, whatever it was, then the calls that the bytes stand for are made on it, and then one list into
// the slice. All of it is what the machine gives for these calls; a list that is refused leaves the tracker as the calls have left it.
pub fn replay(calls: &[u8], out: &mut [u32], fields: &mut Fields) -> ReplayAnswer
    ensures same { SameFields fields.old fields.new }
    ensures replayed { as_replay (lent fields.new) result.refused (answered_wrote result.wrote out.new) ≡ replaying calls.now out.old }
{
    let _ = fields.clear();
    let mut refused = 0;
    for byte in calls {
        let outcome = Call::from(*byte).make(fields);
        refused += outcome.is_err() as usize;
    }
    let wrote = list(*fields.len, fields.bytes, fields.board, out);
    ReplayAnswer { refused, wrote }
}

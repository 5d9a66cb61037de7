// The tracker's calls for C. The caller keeps a tracker as its five fields, the length, the bytes, the board and the two totals, and lends them to
// each call that may change the tracker, which works on them in place. A list and a count are lent the first three. `Fields` is written out at each call, for the reason that stands over it
// in `tracker`.
ghost use Rattle.std.specs.Prelude.{◌≡◌, ℕ};
ghost use Rattle.abelian.specs.Trackers.{fresh_tracker, adding, taking_back, clearing, tracker_listing, tracker_count};
ghost use Rattle.tracker.specs.Fields.{of_fields, as_step};
ghost use Rattle.history.specs.Replay.{as_replay, replaying};
ghost use Rattle.luffbutton.specs.Numbers.{outcome_numbers, wrote_numbers, counted_numbers, replayed_numbers};

use crate::numbers::{LuffCounted, LuffOutcome, LuffReplayed, LuffWrote};
use abelian::{BOARD, LONGEST};
use history::in_place::replay;
use tracker::in_place::{Fields, count, list};

// Makes the fields those of a fresh tracker, whatever they were.
#[tactic(auto, unfolding(abelian::specs::Trackers::clearing))]
#[unsafe(no_mangle)]
pub extern "C" fn luff_tracker_fresh_fields(
    len: &mut usize,
    bytes: &mut [u8; LONGEST],
    board: &mut [u8; BOARD],
    live: &mut usize,
    ended: &mut usize,
)
    ensures { of_fields len.new bytes.new board.new live.new ended.new ≡ fresh_tracker }
{
    let mut fields = Fields {
        len,
        bytes,
        board,
        live,
        ended,
    };
    let _ = fields.clear();
}

// Adds a letter at the end.
#[unsafe(no_mangle)]
pub extern "C" fn luff_tracker_add_fields(
    len: &mut usize,
    bytes: &mut [u8; LONGEST],
    board: &mut [u8; BOARD],
    live: &mut usize,
    ended: &mut usize,
    letter: u8,
) -> LuffOutcome
    ensures { as_step (of_fields len.new bytes.new board.new live.new ended.new) (outcome_numbers result)
        ≡ adding (of_fields len.old bytes.old board.old live.old ended.old) letter }
{
    let mut fields = Fields {
        len,
        bytes,
        board,
        live,
        ended,
    };
    fields.add(letter).into()
}

// Takes the last letter back.
#[unsafe(no_mangle)]
pub extern "C" fn luff_tracker_take_back_fields(
    len: &mut usize,
    bytes: &mut [u8; LONGEST],
    board: &mut [u8; BOARD],
    live: &mut usize,
    ended: &mut usize,
) -> LuffOutcome
    ensures { as_step (of_fields len.new bytes.new board.new live.new ended.new) (outcome_numbers result)
        ≡ taking_back (of_fields len.old bytes.old board.old live.old ended.old) }
{
    let mut fields = Fields {
        len,
        bytes,
        board,
        live,
        ended,
    };
    fields.take_back().into()
}

// Leaves a fresh tracker. Every tracker is accepted.
#[unsafe(no_mangle)]
pub extern "C" fn luff_tracker_clear_fields(
    len: &mut usize,
    bytes: &mut [u8; LONGEST],
    board: &mut [u8; BOARD],
    live: &mut usize,
    ended: &mut usize,
) -> LuffOutcome
    ensures { as_step (of_fields len.new bytes.new board.new live.new ended.new) (outcome_numbers result)
        ≡ clearing (of_fields len.old bytes.old board.old live.old ended.old) }
{
    let mut fields = Fields {
        len,
        bytes,
        board,
        live,
        ended,
    };
    fields.clear().into()
}

// Lists the open pairs in range for the letters held. The fields are lent for reading alone.
#[unsafe(no_mangle)]
pub extern "C" fn luff_tracker_list_fields<'a>(
    len: usize,
    bytes: &'a [u8; LONGEST],
    board: &'a [u8; BOARD],
    out: &mut [u32],
) -> LuffWrote
    ensures { (live ended : ℕ) → as_step (of_fields len bytes.now board.now live ended) (wrote_numbers result out.new)
        ≡ tracker_listing (of_fields len bytes.now board.now live ended) out.old }
{
    list(len, bytes, board, out).into()
}

// Counts the pairs that a list would write. The fields are lent for reading alone.
#[unsafe(no_mangle)]
pub extern "C" fn luff_tracker_count_fields<'a>(
    len: usize,
    bytes: &'a [u8; LONGEST],
    board: &'a [u8; BOARD],
) -> LuffCounted
    ensures { (live ended : ℕ) → as_step (of_fields len bytes.now board.now live ended) (counted_numbers result)
        ≡ tracker_count (of_fields len bytes.now board.now live ended) }
{
    count(len, bytes, board).into()
}

// Makes the fields those of a fresh tracker, whatever they were, makes the calls of a log on them, and then one list.
#[unsafe(no_mangle)]
pub extern "C" fn luff_tracker_replay_fields(
    calls: &[u8],
    out: &mut [u32],
    len: &mut usize,
    bytes: &mut [u8; LONGEST],
    board: &mut [u8; BOARD],
    live: &mut usize,
    ended: &mut usize,
) -> LuffReplayed
    ensures { as_replay (of_fields len.new bytes.new board.new live.new ended.new) result.refused (replayed_numbers result out.new)
        ≡ replaying calls.now out.old }
{
    let mut fields = Fields {
        len,
        bytes,
        board,
        live,
        ended,
    };
    replay(calls, out, &mut fields).into()
}

// The tracker's calls in place. Each works on the fields of a tracker that the caller lends, and answers; what the fields then hold and the
// answer are those of document 01's step, with the totals of C-19. A refused call stores nothing. The contracts hold of every tracker, also of one
// that no calls have made. No call reads the totals, and a list and a count are not lent them.
ghost use Rattle.std.specs.Prelude.{◌≡◌, ℕ, ◌≤◌, length};
ghost use Rattle.abelian.specs.Words.{longest};
ghost use Rattle.abelian.specs.Answers.{answered_outcome, answered_wrote, answered_needed};
ghost use Rattle.abelian.specs.Trackers.{board_size, with_totals, open_pairs, adding, taking_back, clearing, tracker_listing, tracker_count};
ghost use Rattle.tracker.specs.Fields.{of_fields, as_step};
ghost use Rattle.tracker.specs.Lent.{lent, SameFields};

use crate::letters::{check_held, remove_last, store_letter};
use abelian::{BOARD, LONGEST, Refusal};
use board::{count_open, pairs_in_range, write_open};
use words::is_letter;

// A tracker that is lent: its length, its bytes, its board and its two totals, each by a reference of its own, since C hands over five pointers. Each place that lends one
// writes it out: a function that makes it was tried, and behind it a caller no longer knows which reference went where. So each call promises too that the references stay the
// same, which no invariant of one value can say.
#[derive(Drop)]
pub struct Fields<'a> {
    pub len: &'a mut usize,
    pub bytes: &'a mut [u8; LONGEST],
    pub board: &'a mut [u8; BOARD],
    pub live: &'a mut usize,
    pub ended: &'a mut usize,
}

impl<'a> Fields<'a> {
    // Adds a letter at the end, and ends the open pairs that are no Abelian period of the letters then held.
    pub fn add(&mut self, letter: u8) -> Result<(), Refusal>
        ensures same { SameFields self.old self.new }
        ensures step { as_step (lent self.new) (answered_outcome result) ≡ adding (lent self.old) letter }
    {
        let at = *self.len;
        check_held(at, self.bytes)?;
        if !is_letter(letter) {
            return Err(Refusal::NotALetter(1));
        }
        if at == LONGEST {
            return Err(Refusal::TrackerFull);
        }
        let live = store_letter(self.bytes, self.board, at, letter);
        self.set_totals(at + 1, live);
        Ok(())
    }

    // Takes the last letter back, and opens the pairs again that ended with it.
    pub fn take_back(&mut self) -> Result<(), Refusal>
        ensures same { SameFields self.old self.new }
        ensures step { as_step (lent self.new) (answered_outcome result) ≡ taking_back (lent self.old) }
    {
        let held = *self.len;
        check_held(held, self.bytes)?;
        if held == 0 {
            return Err(Refusal::TrackerEmpty);
        }
        let live = remove_last(self.bytes, self.board, held);
        self.set_totals(held - 1, live);
        Ok(())
    }

    // Leaves a fresh tracker, whatever the fields were, and accepts always. So it also makes a first tracker of fields that hold anything.
    pub fn clear(&mut self) -> Result<(), Refusal>
        ensures same { SameFields self.old self.new }
        ensures step { as_step (lent self.new) (answered_outcome result) ≡ clearing (lent self.old) }
    {
        *self.len = 0;
        *self.bytes = [0; LONGEST];
        *self.board = [0; BOARD];
        *self.live = 0;
        *self.ended = 0;
        Ok(())
    }

    // Stores how many letters are held, how many pairs are live then, and the others in range as those that have ended.
    fn set_totals(&mut self, held: usize, live: usize)
        requires short { held ≤ longest }
        requires long { length self.old.board.now ≡ board_size }
        requires open_value { live ≡ length (open_pairs held self.old.board.now) }
        ensures same { SameFields self.old self.new }
        ensures value { lent self.new ≡ with_totals held self.old.bytes.now self.old.board.now }
    {
        *self.len = held;
        *self.live = live;
        *self.ended = pairs_in_range(held) - live;
    }
}

// Lists the open pairs in range for the letters held. They are counted before the first word is written, so that a refusal leaves the slice
// as it came. The length is handed over, and the bytes and the board are lent for reading, each by itself, as C hands them over.
pub fn list(
    len: usize,
    bytes: &[u8; LONGEST],
    board: &[u8; BOARD],
    out: &mut [u32],
) -> Result<usize, Refusal>
    ensures { (live ended : ℕ) → as_step (of_fields len bytes.now board.now live ended) (answered_wrote result out.new)
        ≡ tracker_listing (of_fields len bytes.now board.now live ended) out.old }
{
    check_held(len, bytes)?;
    let words = count_open(board, len);
    if out.len() < words {
        return Err(Refusal::SliceTooShort(words));
    }
    write_open(board, len, out);
    Ok(words)
}

// How many pairs a list would write. The three are handed over as for a list.
pub fn count(len: usize, bytes: &[u8; LONGEST], board: &[u8; BOARD]) -> Result<usize, Refusal>
    ensures { (live ended : ℕ) → as_step (of_fields len bytes.now board.now live ended) (answered_needed result)
        ≡ tracker_count (of_fields len bytes.now board.now live ended) }
{
    check_held(len, bytes)?;
    Ok(count_open(board, len))
}

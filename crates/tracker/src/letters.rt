// The letters that a tracker holds: whether they are letters at all, one more of them, and one less. The last two work on the bytes and the board of a
// tracker that the caller lends, and return how many pairs are live then. The two come apart: one struct of both was tried, and of an array behind a field of a struct the prover
// does not know the length. How many letters are held goes by its number, as C hands it over.
ghost use Rattle.std.specs.Prelude.{◌≡◌, ◌+◌, ◌-◌, ◌≤◌, ◌<◌, T, Ok, Err, map, length, take, set};
ghost use Rattle.abelian.specs.Lists.{pick};
ghost use Rattle.abelian.specs.Words.{alphabet_size, longest, is_letter, of_letters};
ghost use Rattle.abelian.specs.Trackers.{board_size, damaged_bytes, open_pairs};
ghost use Rattle.board.specs.Ending.{all_ended};
ghost use Rattle.tracker.specs.Steps.{entry_reopened};

use abelian::{BOARD, LONGEST, Refusal};
use board::count_open;
use board::ending::end_pairs;
use words::{CountedWord, ROWS, WIDTH, Word, check_word, count_prefixes};

// Refuses a tracker of this length and these bytes if it is damaged: the length is above the longest, or a byte within it is no letter. The bytes
// beyond the length are not looked at.
pub(crate) fn check_held(len: usize, bytes: &[u8; LONGEST]) -> Result<(), Refusal>
    ensures { result ≡ pick (damaged_bytes len bytes.now) (Err Refusal.TrackerDamaged) (Ok tt) }
{
    if len > LONGEST {
        return Err(Refusal::TrackerDamaged);
    }
    match check_word(&bytes[..len]) {
        Err(_) => Err(Refusal::TrackerDamaged),
        Ok(_) => Ok(()),
    }
}

// Stores the letter at the place behind those that are held, and ends the pairs that are then in range and no Abelian period. The live ones are
// counted in the same loop. The table is an array of this call and lent, as there is no heap: made by a function that hands it back it would lie on the stack twice.
#[tactic(auto, unfolding(abelian::specs::Words::longest, abelian::specs::Trackers::board_size))]
pub(crate) fn store_letter(
    bytes: &mut [u8; LONGEST],
    board: &mut [u8; BOARD],
    at: usize,
    letter: u8,
) -> usize
    requires room { at < longest }
    requires letters { T (of_letters (take at bytes.old)) }
    requires inside { T (is_letter alphabet_size letter) }
    ensures bytes_after { bytes.new ≡ set bytes.old at letter }
    ensures board_after { board.new ≡ all_ended (take (at + 1) (set bytes.old at letter)) board.old }
    ensures board_len { length board.new ≡ board_size }
    ensures live_value { result ≡ length (open_pairs (at + 1) board.new) }
{
    bytes[at] = letter;
    let letters = &bytes[..at + 1];
    let word = Word::new(letters);
    let mut table = [[0u8; WIDTH]; ROWS];
    count_prefixes(&word, &mut table);
    let counted = CountedWord::new(&word, &table);
    let trials = end_pairs(&counted, board);
    trials.live
}

// A pair's entry after the letter that made the length has gone: 0 where the pair ended at that length, and else as it was. Entries are bytes, 0 for a pair that has not ended,
// and no `Option`s, since C hands over the board.
fn entry_reopened(entry: u8, len: u8) -> u8
    ensures { result ≡ entry_reopened len entry }
{
    if entry == len { 0 } else { entry }
}

// Opens the pairs again that ended at the length. Every entry is stored, so that the loop becomes a few vector instructions.
fn reopen(board: &mut [u8; BOARD], len: u8)
    ensures { board.new ≡ map (entry_reopened len) board.old }
{
    for entry in board.iter_mut() {
        *entry = entry_reopened(*entry, len);
    }
}

// Takes the last of the `held` letters off, opens the pairs again that ended with it, and counts those that are open then.
#[tactic(auto, unfolding(abelian::specs::Words::longest, abelian::specs::Trackers::board_size))]
pub(crate) fn remove_last(bytes: &mut [u8; LONGEST], board: &mut [u8; BOARD], held: usize) -> usize
    requires held_le_longest { held ≤ longest }
    requires le_held { 1 ≤ held }
    ensures bytes_after { bytes.new ≡ set bytes.old (held - 1) 0 }
    ensures board_after { board.new ≡ map (entry_reopened held) board.old }
    ensures board_len { length board.new ≡ board_size }
    ensures live_value { result ≡ length (open_pairs (held - 1) board.new) }
{
    let last = held - 1;
    bytes[last] = 0;
    reopen(board, held as u8);
    count_open(board, last)
}

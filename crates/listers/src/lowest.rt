// The lowest period to try with each head: L(h) of document 01, by the select function of document 004. Its tables are arrays of bytes side by side, one for each definition: memory
// is fixed.
#![tactic(auto, using(crate::proofs::LettersRead::read_from, crate::proofs::LettersRead::read_place, crate::proofs::LettersRead::read_inside, crate::proofs::LettersRead::read_small, crate::proofs::LettersRead::read_on_table, crate::proofs::LettersRead::read_some, crate::proofs::LettersRead::read_twice), unfolding(abelian::specs::Words::first_letter, abelian::specs::Words::alphabet_size, abelian::specs::Words::longest))]

ghost use Rattle.std.specs.Prelude.{◌≡◌, ◌≤◌};
ghost use Rattle.abelian.specs.Words.{longest};
ghost use Rattle.listers.specs.Lowest.{positions, no_positions, greatest_gaps, lowest_above, lowest_periods};

use abelian::{FIRST_LETTER, Head, LETTERS};
use words::{CountedWord, ROWS};

// The entry of a head with which no pair is tried: it is above every period. A byte and no `Option`: the definitions `untried` and `lowest_periods` state the table as numbers with this one.
const UNTRIED: u8 = 255;

// Enters the positions of each letter's occurrences into a table of zeros that the caller lends: entry k of a letter's row is the position of
// its occurrence number k + 1, or 0 where the letter has no more than k. Each letter of the word is read once, since the counts of the
// letters before it say which occurrence it is. It is a table of bytes, as the definition `positions` has it, and of no `Option`s, which would take twice the stack.
fn find_positions(word: &CountedWord, found: &mut [[u8; ROWS]; LETTERS])
    requires { found.old ≡ no_positions }
    ensures { found.new ≡ positions word.now }
{
    let letters = word.letters();
    for (i, letter) in letters.iter().enumerate() {
        let place = (*letter - FIRST_LETTER) as usize;
        let k = word.row(i)[place] as usize;
        found[place][k] = (i + 1) as u8;
    }
}

// The greatest gap G behind each head: entry h is that of the letters after position h. It is found from the right, since one letter more
// brings one distance more, that to the letter's next occurrence.
fn greatest_gaps(word: &CountedWord, select: &[[u8; ROWS]; LETTERS]) -> [u8; ROWS]
    requires { select.now ≡ positions word.now }
    ensures { result ≡ greatest_gaps word.now }
{
    let letters = word.letters();
    let mut gaps = [0u8; ROWS];
    let mut gap: usize = 0;
    for i in (0..letters.len()).rev() {
        let place = (letters[i] - FIRST_LETTER) as usize;
        let k = word.row(i + 1)[place] as usize;
        let next = select[place][k] as usize;
        gap = gap.max(next.saturating_sub(i + 1));
        gaps[i] = gap as u8;
    }
    gaps
}

// The lowest period to try with a head that is not ruled out, L(h). Given are the head's reach, which is the greatest position of an
// occurrence number 2c of a letter that the head has c times, or 0 for the empty head, and the greatest gap behind the head.
fn lowest_period(head: Head, reach: usize, gap: u8) -> u8
    requires head_le_longest { head.0 ≤ longest }
    requires reach_le_longest { reach ≤ longest }
    ensures { result ≡ lowest_above head.0 reach gap }
{
    let h = head.0;
    let half = ((gap as usize) + 1) / 2;
    let lowest = (h + 1).max(half).max(reach.saturating_sub(h));
    lowest as u8
}

// The lowest period to try with each head h, from 0 to the longest word's length: L(h), or 255 where the head is too long for a pair in
// range or is ruled out. A pair in range is tried exactly where its period is not below its head's entry. A head that is one letter longer
// has one more of that letter, c in all. Its reach is the larger of the shorter head's reach and the position of that letter's occurrence
// number 2c; where there is no such occurrence, this head and every longer one are ruled out.
pub(crate) fn lowest_periods(word: &CountedWord) -> [u8; ROWS]
    ensures { result ≡ lowest_periods word.now }
{
    let mut select = [[0u8; ROWS]; LETTERS];
    find_positions(word, &mut select);
    let gaps = greatest_gaps(word, &select);
    let letters = word.letters();
    let mut lowest = [UNTRIED; ROWS];
    let mut reach: usize = 0;
    for h in 0..(letters.len() + 1) / 2 {
        lowest[h] = lowest_period(Head(h), reach, gaps[h]);
        let place = (letters[h] - FIRST_LETTER) as usize;
        let c = word.row(h + 1)[place] as usize;
        let at = select[place][2 * c - 1] as usize;
        if at == 0 {
            return lowest;
        }
        reach = reach.max(at);
    }
    lowest
}

// Marks of the candidates of a word, by half length and then by start: 1 where the two halves have equal count vectors, 0 where they
// differ; they are bytes and no bools, since the definitions `start_marks` and `square_marks` state them as numbers. The vectors are differences of the rows of the table of prefix
// counts, so that no letter is counted anew. A half length goes by its number, with what it has to meet asked anew: a type for it would be made and taken apart again at each call.
ghost use Rattle.std.specs.Prelude.{◌≡◌, ◌+◌, ◌*◌, ◌≤◌, length, take};
ghost use Rattle.abelian.specs.Lists.{one};
ghost use Rattle.abelian.specs.Output.{fill};
ghost use Rattle.abelian.specs.Words.{longest, vector, part};
ghost use Rattle.words.specs.Prefixes.{padded, Counted, prefix_counts};
ghost use Rattle.abelian.specs.Squares.{is_square, square_starts, square_words};
ghost use Rattle.squares.specs.Marks.{start_marks, square_marks};

use words::parts::{difference, differs};
use words::{CountedWord, WIDTH};

// A word with the marks of all its candidates, in the first places of a slice.
#[derive(Drop)]
pub struct Marked<'a> {
    pub word: &'a CountedWord<'a>,
    pub marks: &'a [u8],
    pub ghost marked: { take (length (square_marks word.now)) marks.now ≡ square_marks word.now },
}

impl<'a> Marked<'a> {
    // The marks of the candidates of one half length: they stand behind those of the smaller ones, each of which has two candidates less
    // than the one before it. For the crates above too.
    pub fn of_half(&self, half: usize) -> &'a [u8]
        requires positive { 1 ≤ half }
        requires half_in_bounds { 2 * half ≤ length self.now.word.now }
        ensures value { result.now ≡ start_marks self.now.word.now half }
        ensures short { length self.now.word.now ≤ longest }
    {
        let letters = self.word.len();
        let from = (half - 1) * (letters + 1 - half);
        let to = from + (letters + 1 - 2 * half);
        &self.marks[from..to]
    }
}

// How often each letter stands in a part of the word, as a row of the table. It is written out where it is called, so that no row is stored and read again. For
// the crates above too.
#[inline(always)]
pub fn count_part(word: &CountedWord, from: usize, size: usize) -> [u8; WIDTH]
    requires { from + size ≤ length word.now }
    ensures value { result ≡ padded (vector (part word.now from size)) }
    ensures counted { Counted word.now (prefix_counts word.now) }
{
    // It is at most the longest, so that the rows are there.
    let _ = word.len();
    difference(word.row(from + size), word.row(from))
}

// The mark of one candidate, whose halves lie in the word.
fn mark(word: &CountedWord, half: usize, start: usize) -> u8
    requires le_start { 1 ≤ start }
    requires half_in_bounds { start + 2 * half ≤ length word.now + 1 }
    ensures { result ≡ one (is_square word.now half start) }
{
    let from = start - 1;
    let first = count_part(word, from, half);
    let second = count_part(word, from + half, half);
    !differs(first, second) as u8
}

// Marks the candidates of one half length in the first places of the slice, and returns how many of them are squares.
fn mark_starts(word: &CountedWord, half: usize, marks: &mut [u8]) -> usize
    requires half_in_bounds { 2 * half ≤ length word.now }
    requires half_in_bounds_2 { length (start_marks word.now half) ≤ length marks.old }
    ensures value { result ≡ length (square_starts word.now half) }
    ensures marks_after { marks.new ≡ fill (start_marks word.now half) marks.old }
{
    let starts = word.len() + 1 - 2 * half;
    let mut found = 0;
    for (i, place) in marks[..starts].iter_mut().enumerate() {
        let square = mark(word, half, i + 1);
        *place = square;
        found += square as usize;
    }
    found
}

// Marks all candidates in the first places of the slice, the half lengths one behind the other, and returns how many squares the word
// has. Also for the crates above.
pub fn mark_squares(word: &CountedWord, marks: &mut [u8]) -> usize
    requires { length (square_marks word.now) ≤ length marks.old }
    ensures value { result ≡ length (square_words word.now) }
    ensures marks_after { marks.new ≡ fill (square_marks word.now) marks.old }
{
    let word = word.copied();
    let mut found = 0;
    let mut at = 0;
    for half in 1..=word.len() / 2 {
        found += mark_starts(&word, half, &mut marks[at..]);
        at += word.len() + 1 - 2 * half;
    }
    found
}

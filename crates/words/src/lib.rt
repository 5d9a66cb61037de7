// Words: the check of a word, the counts of its letters, and its prefixes with their counts. What a call is handed is a slice of bytes; a `Word` is one that may
// be taken, and a `CountedWord` one whose table of prefix counts has been filled.
#![tactic(auto)]

pub mod parts;

ghost use Rattle.std.specs.Prelude.{◌≡◌, List, ℕ, [], false, ◌-◌, ◌≤◌, length, take, drop, get_or};
ghost use Rattle.abelian.specs.Lists.{nonzero};
ghost use Rattle.abelian.specs.Words.{alphabet_size, longest, is_letter, first_outside, of_letters, all_equal, vector};
ghost use Rattle.abelian.specs.Refusals.{word_refusal};
ghost use Rattle.abelian.specs.Answers.{accepted_unless};
ghost use Rattle.words.specs.Prefixes.{IsWord, Counted, prefix_counts};

use abelian::{FIRST_LETTER, LETTERS, LONGEST, Refusal};
use parts::{count_more, row};
use std::marker::Model;

// The rows of the table of prefix counts: one for each length of a prefix, 0 to the longest word.
pub const ROWS: usize = LONGEST + 1;

// The places of a row: a count for each letter, and zeros behind them that make it two registers of 16 bytes, so that a loop over a row leaves
// no rest.
pub const WIDTH: usize = 32;

// A word that may be taken: letters alone, and not more than the longest word has. In contracts it is the list of its letters. `letters` and `len` promise the invariant too, here and of a
// `CountedWord`: its fields are private, so that other crates do not see it otherwise.
#[derive(Drop)]
pub struct Word<'a> {
    bytes: &'a [u8],
}

impl<'a> Model for Word<'a> {
    ghost Value = { List ℕ };

    ghost view = { λ word. word.bytes.now };

    ghost invariant = { λ word. IsWord word.bytes.now };
}

impl<'a> Word<'a> {
    // The word of these letters.
    pub fn new(letters: &'a [u8]) -> Word<'a>
        requires { IsWord letters.now }
        ensures { result ≡ letters.now }
    {
        Word { bytes: letters }
    }

    // Its letters.
    pub fn letters(&self) -> &'a [u8]
        ensures value { result.now ≡ self.now }
        ensures word { IsWord self.now }
    {
        self.bytes
    }

    // How many letters it has.
    pub fn len(&self) -> usize
        ensures value { result ≡ length self.now }
        ensures word { IsWord self.now }
    {
        let letters = self.letters();
        letters.len()
    }

    // The part of it from one position to another.
    pub fn part(&self, from: usize, to: usize) -> Word<'a>
        requires order { from ≤ to }
        requires in_bounds { to ≤ length self.now }
        ensures { result ≡ take (to - from) (drop from self.now) }
    {
        let letters = self.letters();
        Word {
            bytes: &letters[from..to],
        }
    }
}

// A word with the table of its prefix counts, which is lent. In contracts it is the word. It has its letters itself and no `Word`, which would be one reference more to read
// through in the loops over rows. `letters` and `len` are those of `Word` once more: a trait of both types would be no plainer, since its laws and its two implementations are
// longer than the methods.
#[derive(Drop)]
pub struct CountedWord<'a> {
    word: &'a [u8],
    rows: &'a [[u8; WIDTH]; ROWS],
}

impl<'a> Model for CountedWord<'a> {
    ghost Value = { List ℕ };

    ghost view = { λ counted. counted.word.now };

    ghost invariant = { λ counted. Counted counted.word.now counted.rows.now };
}

impl<'a> CountedWord<'a> {
    // The word with its table, which `count_prefixes` has filled.
    pub fn new(word: &'a Word, rows: &'a [[u8; WIDTH]; ROWS]) -> CountedWord<'a>
        requires { rows.now ≡ prefix_counts word.now }
        ensures { result ≡ word.now }
    {
        CountedWord {
            word: word.letters(),
            rows,
        }
    }

    // The word's letters.
    pub fn letters(&self) -> &'a [u8]
        ensures value { result.now ≡ self.now }
        ensures counted { Counted self.now (prefix_counts self.now) }
    {
        self.word
    }

    // How many letters the word has.
    pub fn len(&self) -> usize
        ensures value { result ≡ length self.now }
        ensures counted { Counted self.now (prefix_counts self.now) }
    {
        self.letters().len()
    }

    // The same word by value: a loop that stores elsewhere goes by it, so that it need not read anew where the table lies. `Clone` and `Copy` were tried: `clone` hands back a `Result`
    // in Rattle, and a type with a model and a lifetime is not `Copy`.
    pub fn copied(&self) -> CountedWord<'a>
        ensures { result ≡ self.now }
    {
        CountedWord {
            word: self.letters(),
            rows: self.rows,
        }
    }

    // The row of the table for the first `at` letters.
    pub fn row(&self, at: usize) -> [u8; WIDTH]
        requires { at ≤ longest }
        ensures { result ≡ get_or (prefix_counts self.now) at [] }
    {
        row(self.rows, at)
    }
}

// Whether the byte is a letter. No `is_ascii_lowercase`, since `LETTERS` alone names how many letters there are.
pub fn is_letter(byte: u8) -> bool
    ensures { result ≡ is_letter alphabet_size byte }
{
    FIRST_LETTER <= byte && (byte as usize) < (FIRST_LETTER as usize) + LETTERS
}

// Whether the stretch is of letters alone. Every byte is looked at and the loop is not left, so that it becomes a few vector instructions: for long records, in
// the crates above.
pub fn all_letters(stretch: &[u8]) -> bool
    ensures { result ≡ of_letters stretch.now }
{
    let mut all = true;
    for byte in stretch {
        all = all & is_letter(*byte);
    }
    all
}

// Whether all letters of the word are equal, as they are in a word of one letter and in the empty one. For the crates above.
#[tactic(auto, unfolding(abelian::specs::Words::all_equal))]
pub fn all_equal(word: &[u8]) -> bool
    ensures { result ≡ all_equal word.now }
{
    for letter in word {
        if *letter != word[0] {
            return false;
        }
    }
    true
}

// The first position, counted from 1, that holds no letter, if there is one. The bytes may be a word or a record.
#[tactic(auto, unfolding(abelian::specs::Words::first_outside))]
pub fn first_outside(bytes: &[u8]) -> Option<usize>
    ensures { result ≡ nonzero (first_outside alphabet_size bytes.now) }
{
    for (i, byte) in bytes.iter().enumerate() {
        if !is_letter(*byte) {
            return Some(i + 1);
        }
    }
    None
}

// The word of these bytes, if a call may take it: not if it is above the longest, and not if it holds a byte that is no letter, of which the first
// position is answered. A function and no `TryFrom`: docs/CLAIMS.md names it, and `refused_count`, `accepted_word` and `accepted_count` are over its clause.
pub fn check_word<'a>(word: &'a [u8]) -> Result<Word<'a>, Refusal>
    ensures { result ≡ accepted_unless (word_refusal word.now false 0 0) word.now }
{
    if word.len() > LONGEST {
        return Err(Refusal::TooLong);
    }
    match first_outside(word) {
        Some(position) => Err(Refusal::NotALetter(position)),
        None => Ok(Word { bytes: word }),
    }
}

// How often each letter stands in the part, in letter order. A part of a word is short enough that each count fits a byte. For
// the crates above.
pub fn count_letters(part: &Word) -> [u8; LETTERS]
    ensures { result ≡ vector part.now }
{
    let letters = part.letters();
    let mut counts = [0u8; LETTERS];
    for letter in letters {
        let place = (*letter - FIRST_LETTER) as usize;
        counts[place] += 1;
    }
    counts
}

// Fills the table with the counts of the letters in each prefix of the word: row i has those of the first i letters, and the rows behind
// the word's end repeat those of the whole word. Each letter is read once, since a row is the one before it with one count more. The table
// is lent, so that it lies on the stack once. For the crates above.
pub fn count_prefixes(word: &Word, table: &mut [[u8; WIDTH]; ROWS])
    ensures { table.new ≡ prefix_counts word.now }
{
    let letters = word.letters();
    let mut row = [0u8; WIDTH];
    table[0] = row;
    for i in 0..LONGEST {
        if i < letters.len() {
            let more = count_more(row, letters[i] - FIRST_LETTER);
            row = more;
        }
        table[i + 1] = row;
    }
}

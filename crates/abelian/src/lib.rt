// The vocabulary of Abelian periods: the constants, the types of pairs and of sizes, of refusals, answers and trackers, and a refusal's number
// and value. What each of them means is said in specs/, one file a subject; the crates above do the work.
#![tactic(auto)]

ghost use Rattle.std.specs.Prelude.{◌≡◌, ◌*◌, ◌^◌, ◌≤◌, set};
ghost use Rattle.abelian.specs.Words.{longest};
ghost use Rattle.abelian.specs.Refusals.{number_of, value_of};
ghost use Rattle.abelian.specs.Output.{kind_number, OfNumber, output_word};

// How many letters there are: the one place of the code that names the number.
pub const LETTERS: usize = 26;

// The byte of the letter a, from which the letters go up. A letter's place is the letter less this: a function for it would be no plainer, since it would ask for a letter.
pub const FIRST_LETTER: u8 = 97;

// The longest word.
pub const LONGEST: usize = 240;

// The longest record.
pub const LONGEST_RECORD: usize = 65536;

// Over how many letters square-free words are listed at most, and the longest of these.
pub const LARGEST_ALPHABET: usize = 4;

pub const LONGEST_SQUARE_FREE: usize = 12;

// A board's entries, one for each pair in range for 240.
pub const BOARD: usize = 14520;

// The length of a head.
#[repr(C)]
#[derive(Clone, Copy)]
pub struct Head(pub usize);

// The length of a block. C hands it over, so that any number may come in it, and it has no invariant; nor has a head.
#[repr(C)]
#[derive(Clone, Copy)]
pub struct Period(pub usize);

// Over how many letters square-free words are: the first so many of the alphabet.
#[repr(C)]
#[derive(Clone, Copy)]
pub struct Alphabet(pub usize);

// The number of letters of a square-free word.
#[repr(C)]
#[derive(Clone, Copy)]
pub struct Length(pub usize);

// Why a call was refused, in the order of the numbers that documents 01 and 02 give. A case that has a value holds it.
#[derive(Clone, Copy, PartialEq, Eq)]
pub enum Refusal {
    // 1: a word above 240 letters.
    TooLong,
    // 2: a byte that is no letter; the first such position, in the word or in the record, 1 for an add.
    NotALetter(usize),
    // 3: a list longer than the slice; the words needed. Each list makes the test itself, since its wrong programs are about that test (`exact_slice_refused`,
    // `too_short_on_sight`).
    SliceTooShort(usize),
    // 4: an add at 240 letters.
    TrackerFull,
    // 5: a take-back at length 0.
    TrackerEmpty,
    // 6: a tracker's length above 240, or a byte within the length that is no letter.
    TrackerDamaged,
    // 7: the judge's pair out of range.
    PairOutOfRange,
    // 8: the pattern of windows is empty.
    PatternEmpty,
    // 9: a record above 65,536 bytes.
    RecordTooLong,
    // 10: a report of a word of two or more letters that are all equal.
    OneLetter,
    // 11: words without an Abelian square over no letters, or over more than 4.
    SquareFreeAlphabet,
    // 12: words without an Abelian square of more than 12 letters.
    SquareFreeLength,
}

impl Refusal {
    // A refusal's number. The cases are listed, since one that holds a value has no `as`.
    pub fn number(self) -> usize
        ensures { result ≡ number_of self }
    {
        match self {
            Refusal::TooLong => 1,
            Refusal::NotALetter(_) => 2,
            Refusal::SliceTooShort(_) => 3,
            Refusal::TrackerFull => 4,
            Refusal::TrackerEmpty => 5,
            Refusal::TrackerDamaged => 6,
            Refusal::PairOutOfRange => 7,
            Refusal::PatternEmpty => 8,
            Refusal::RecordTooLong => 9,
            Refusal::OneLetter => 10,
            Refusal::SquareFreeAlphabet => 11,
            Refusal::SquareFreeLength => 12,
        }
    }

    // A refusal's value: a position, the words needed, or 0 and no `Option` where it has none, as the definition `value_of` states it.
    pub fn value(self) -> usize
        ensures { result ≡ value_of self }
    {
        match self {
            Refusal::NotALetter(position) => position,
            Refusal::SliceTooShort(needed) => needed,
            _ => 0,
        }
    }
}

// What the judge says of a pair that it accepts. No `Option` of a failure: its `None` would have to be read as yes.
#[derive(Clone, Copy, PartialEq, Eq)]
pub enum Verdict {
    // The pair is an Abelian period.
    Yes,
    // It is none: the first block that breaks the rule, 0 for the head, and in it the first letter's byte.
    No { block: usize, letter: u8 },
}

// What a lister of periods has done: the words written, and the pairs tried.
#[derive(Clone, Copy, PartialEq, Eq)]
pub struct Listed {
    pub words: usize,
    pub trials: usize,
}

// What the scaled path of full periods has done: the words written, and the numbers s and T of document 01.
#[derive(Clone, Copy, PartialEq, Eq)]
pub struct Scaled {
    pub words: usize,
    pub s: usize,
    pub t: usize,
}

// The kinds of output words, each by its number.
#[derive(Clone, Copy, PartialEq, Eq)]
pub enum Kind {
    Period = 1,
    Square = 2,
    Full = 3,
    Run = 5,
    Hands = 6,
    Window = 7,
    Report = 8,
    Pattern = 9,
}

// What one of the upper part counts; the lower part is below it.
pub const UPPER: u32 = 16384;

// What one of an output word's kind counts.
pub const KIND: u32 = 268435456;

impl Kind {
    // The output word of the kind whose other parts are 0.
    pub fn word(self) -> u32
        ensures { result ≡ kind_number self * 2 ^ 28 }
    {
        (self as u32) * KIND
    }
}

// The kind that has the number, or an error where none has it. The numbers are listed, since std derives no such conversion.
impl TryFrom<u32> for Kind {
    type Error = ();

    ghost try_from_gives = { OfNumber };

    fn try_from(number: u32) -> Result<Kind, ()> {
        match number {
            1 => Ok(Kind::Period),
            2 => Ok(Kind::Square),
            3 => Ok(Kind::Full),
            5 => Ok(Kind::Run),
            6 => Ok(Kind::Hands),
            7 => Ok(Kind::Window),
            8 => Ok(Kind::Report),
            9 => Ok(Kind::Pattern),
            _ => Err(()),
        }
    }
}

// An output word by its kind and its two parts.
pub fn output_word(kind: Kind, upper: usize, lower: usize) -> u32
    requires upper_le_longest { upper ≤ longest }
    requires lower_le_longest { lower ≤ longest }
    ensures { result ≡ output_word (kind_number kind) upper lower }
{
    kind.word() + (upper as u32) * UPPER + lower as u32
}

// Stores an output word at a place of the slice, where the slice has it. It takes a place and no part of the slice, which would be no plainer: the place is counted on where the
// slice has no more.
pub fn store_word(out: &mut [u32], place: usize, word: u32)
    ensures { out.new ≡ set out.old place word }
{
    if place < out.len() {
        out[place] = word;
    }
}

// A word that grows and shrinks by letters: its length, its letters, a board with an entry for each pair in range for 240, in pair
// order, and two totals: live, the number of pairs in range for the length whose entry is 0, and ended, the number whose entry isn't. In a
// tracker that calls from a fresh one have made, the bytes beyond the length are 0 and each entry is its pair's ended length. Each accepted
// add, take-back and clear sets both totals; no answer depends on them, and a tracker that no calls have made may hold anything there. Lengths
// and entries are numbers, 0 for a pair that has not ended, and no `Vec` and no `Option`: memory is fixed, and C hands over the fields.
#[derive(Drop)]
pub struct Tracker {
    pub len: usize,
    pub bytes: [u8; LONGEST],
    pub board: [u8; BOARD],
    pub live: usize,
    pub ended: usize,
}

// Anagram windows (C-13): where in a long record a window as long as a pattern has the pattern's count vector, so that it is the pattern with its letters in
// some order. The window slides one event at a time. A slice with a place for each event is written at once; for a shorter one the windows are counted first, so
// that a list that is too long is refused before the first place is written.
#![tactic(auto)]

mod sliding;

ghost use Rattle.std.specs.Prelude.{◌≡◌, length};
ghost use Rattle.abelian.specs.Windows.{window_words};
ghost use Rattle.abelian.specs.Refusals.{window_refusal};
ghost use Rattle.abelian.specs.Answers.{accepted_unless, answered_wrote, answered_needed};
ghost use Rattle.abelian.specs.Calls.{window_listing, window_count};
ghost use Rattle.windows.specs.Sliding.{Readable};

use abelian::{LONGEST_RECORD, Refusal};
use sliding::slide;
use std::marker::Model;
use words::{Word, all_letters, check_word, first_outside};

// How many words of a list are kept while it is counted.
const FIRST_WORDS: usize = 2048;

// A pattern and a record in which its windows may be looked for: the pattern is a word of one letter or more, and the record is of letters alone and not above the
// longest. In contracts it is the letters of both.
#[derive(Drop)]
pub(crate) struct Search<'a> {
    pattern: Word<'a>,
    events: &'a [u8],
}

impl<'a> Model for Search<'a> {
    ghost use Rattle.windows.specs.Sliding.{Sought, Readable};

    ghost Value = { Sought };

    ghost view = { λ search. record { pattern = search.pattern; events = search.events.now } };

    ghost invariant = { λ search. Readable search.pattern search.events.now };
}

impl<'a> Search<'a> {
    fn new(pattern: Word<'a>, events: &'a [u8]) -> Search<'a>
        requires { Readable pattern events.now }
        ensures { result ≡ record { pattern = pattern.entry; events = events.now } }
    {
        Search { pattern, events }
    }
}

// The pattern and the record, if a call may take them: the pattern as a word, which may not be empty, then the record's length, then its letters.
// A position is looked for only where there is one.
fn check_both<'a>(pattern: &'a [u8], record: &'a [u8]) -> Result<Search<'a>, Refusal>
    ensures { result ≡ accepted_unless (window_refusal pattern.now «record».now 0 0) (record { pattern = pattern.now; events = «record».now }) }
{
    let pattern = check_word(pattern)?;
    if pattern.len() == 0 {
        return Err(Refusal::PatternEmpty);
    }
    if record.len() > LONGEST_RECORD {
        return Err(Refusal::RecordTooLong);
    }
    if !all_letters(record) {
        if let Some(position) = first_outside(record) {
            return Err(Refusal::NotALetter(position));
        }
    }
    Ok(Search::new(pattern, record))
}

// The number of windows: one that slides over the record with no places to write to.
fn number_of_windows(search: &Search) -> usize
    ensures { result ≡ length (window_words search.now.pattern search.now.events) }
{
    slide(search, &mut [])
}

// Writes the list to a slice that may be too short for it. The first words are found with their number, so that the window slides a second time only where there
// are more of them.
fn list_counted(search: &Search, out: &mut [u32]) -> Result<usize, Refusal>
    ensures { answered_wrote result out.new ≡ window_listing search.now.pattern search.now.events out.old }
{
    let mut first = [0u32; FIRST_WORDS];
    let needed = slide(search, &mut first);
    if out.len() < needed {
        return Err(Refusal::SliceTooShort(needed));
    }
    if needed <= FIRST_WORDS {
        out[..needed].copy_from_slice(&first[..needed]);
    } else {
        slide(search, out);
    }
    Ok(needed)
}

// Writes the starts, ascending, at which a window of the record as long as the pattern has the pattern's vector. A record has no more windows than events, so that
// they are counted only for a slice with fewer places.
pub fn list_windows(pattern: &[u8], record: &[u8], out: &mut [u32]) -> Result<usize, Refusal>
    ensures { answered_wrote result out.new ≡ window_listing pattern.now «record».now out.old }
{
    let search = check_both(pattern, record)?;
    if out.len() < record.len() {
        return list_counted(&search, out);
    }
    Ok(slide(&search, out))
}

// How many windows of the record as long as the pattern have the pattern's vector.
pub fn count_windows(pattern: &[u8], record: &[u8]) -> Result<usize, Refusal>
    ensures { answered_needed result ≡ window_count pattern.now «record».now }
{
    let search = check_both(pattern, record)?;
    Ok(number_of_windows(&search))
}

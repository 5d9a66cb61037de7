// The report of a word: one word of kind 8, then its full periods, its Abelian periods and its squares. Where the slice may be too short,
// the whole is counted before the first place is written, so that a refusal leaves the slice as it came.
#![tactic(auto)]

mod parts;

ghost use Rattle.std.specs.Prelude.{◌≡◌};
ghost use Rattle.abelian.specs.Refusals.{report_refusal};
ghost use Rattle.abelian.specs.Answers.{accepted_unless, answered_wrote, answered_needed};
ghost use Rattle.abelian.specs.Calls.{reporting, report_count};

use abelian::{BOARD, Refusal};
use parts::{words_needed, write_parts};
use squares::CANDIDATES;
use words::{Word, all_equal, check_word};

// The most full periods of a word: each divides the word's length and is smaller, and of such divisors no number up to 240 has more than 240.
const FULL_PERIODS: usize = 19;

// Places enough for the report of every word: one for the head, and as many as there can be full periods, Abelian periods and squares. No report is so
// long: only 240 letters that are all equal have so many Abelian periods, and these are refused.
pub const PLACES: usize = 1 + FULL_PERIODS + BOARD + CANDIDATES;

// The word of these bytes, if there is a report of it: not if `check_word` refuses it, and not if it has two or more letters that are all equal.
fn check_reported<'a>(word: &'a [u8]) -> Result<Word<'a>, Refusal>
    ensures { result ≡ accepted_unless (report_refusal word.now 0 0) word.now }
{
    let checked = check_word(word)?;
    let n = word.len();
    if n >= 2 && all_equal(word) {
        return Err(Refusal::OneLetter);
    }
    Ok(checked)
}

// Writes the report of the word. A slice of `PLACES` places is never too short, so that the report is counted only for a shorter one.
pub fn report(word: &[u8], out: &mut [u32]) -> Result<usize, Refusal>
    ensures { answered_wrote result out.new ≡ reporting word.now out.old }
{
    let reported = check_reported(word)?;
    if out.len() < PLACES {
        let needed = words_needed(&reported);
        if out.len() < needed {
            return Err(Refusal::SliceTooShort(needed));
        }
    }
    let written = write_parts(&reported, out);
    Ok(written)
}

// How many words the report of the word has: its parts are counted, and none is written.
pub fn count_report(word: &[u8]) -> Result<usize, Refusal>
    ensures { answered_needed result ≡ report_count word.now }
{
    let counted = check_reported(word)?;
    Ok(words_needed(&counted))
}

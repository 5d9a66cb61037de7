// The program's answer: from the bytes of the input to the bytes of the output.
ghost use Rattle.std.specs.Prelude.{◌≡◌, ◌≤◌, length};
ghost use Rattle.cycles.specs.Text.{Written};
ghost use Rattle.cycles.specs.Lines.{word_in, printed};
ghost use Rattle.cycles.specs.Reports.{longest_text};

use crate::lines::{write_refusal, write_report};
use report::{PLACES, report};

// The longest line of an output word: a name of 6 letters, two numbers of 5 digits, and the spaces and the line's end.
const LINE: usize = 19;

// Places enough for the text of every report: a line for each word, and one for the cover.
pub(crate) const TEXT: usize = (PLACES + 1) * LINE;

// The word of an input: all of its bytes, but for one final byte 10.
fn word_of(input: &[u8]) -> &[u8]
    ensures { result.now ≡ word_in input.now }
{
    input.strip_suffix(b"\n").unwrap_or(input)
}

// Writes what is printed for a word, and returns the number of bytes: the text of its report, or the line of its refusal.
fn write_answer(word: &[u8], text: &mut [u8]) -> usize
    requires { longest_text ≤ length text.old }
    ensures { Written (printed word.now) text.old text.new result }
{
    let mut words = [0u32; PLACES];
    match report(word, &mut words) {
        Ok(n) => write_report(&words[..n], text),
        Err(refusal) => write_refusal(refusal, text),
    }
}

// Writes what is printed for an input, and returns the number of bytes.
pub(crate) fn answer(input: &[u8], text: &mut [u8]) -> usize
    requires { longest_text ≤ length text.old }
    ensures { Written (printed (word_in input.now)) text.old text.new result }
{
    write_answer(word_of(input), text)
}

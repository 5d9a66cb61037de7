// The output words of a list as text, by their kinds.
use abelian::{KIND, Kind, UPPER};
use std::io;
use std::io::Write;

// In the second word of a run: what one of its end counts, and one of its left hand; the right hand is below that. They are document 02's numbers,
// and stand here again since this program tries what the library writes.
const END: u32 = 65536;

const LEFT: u32 = 256;

// What each place of a slice holds before a call, a number and no None, as calls take a slice of u32. The kind of an output word is above 0, so
// none is this number.
pub(crate) const UNWRITTEN: u32 = 9;

// How an output word is printed: as the number that it is, or by its kind.
#[derive(Clone, Copy)]
pub(crate) enum Form {
    Number,
    ByKind,
}

// Prints an output word by its kind: a period as h,p, a square as start:half, a full period as p*(n / p), a run as i/d and behind it its end
// and its hands, j<left>right, a window as @start. One of any other kind is printed as the number that it is. `cycles` takes its words apart likewise: one function for both would be no
// plainer, since each part is one expression.
fn say_by_kind<W: Write>(to: &mut W, word: u32) -> io::Result<()> {
    let upper = word / UPPER % UPPER;
    let lower = word % UPPER;
    match Kind::try_from(word / KIND) {
        Ok(Kind::Period) => write!(to, " {lower},{upper}"),
        Ok(Kind::Square) => write!(to, " {lower}:{upper}"),
        Ok(Kind::Full) => write!(to, " {upper}*{lower}"),
        Ok(Kind::Run) => write!(to, " {lower}/{upper}"),
        Ok(Kind::Hands) => say_hands(to, word),
        Ok(Kind::Window) => write!(to, " @{}", word % KIND),
        _ => write!(to, " {word}"),
    }
}

// Prints the second word of a run.
fn say_hands<W: Write>(to: &mut W, word: u32) -> io::Result<()> {
    let end = word % KIND / END;
    let left = word / LEFT % LEFT;
    let right = word % LEFT;
    write!(to, " {end}<{left}>{right}")
}

// Prints the first n places of a slice as output words. It takes n beside the slice, as no contract here bounds what a call answered by its places.
pub(crate) fn say_words<W: Write>(to: &mut W, form: Form, out: &[u32], n: usize) -> io::Result<()> {
    for word in out.iter().take(n) {
        match form {
            Form::Number => write!(to, " {word}")?,
            Form::ByKind => say_by_kind(to, *word)?,
        }
    }
    Ok(())
}

// Prints how many places of a slice are as they were before a call.
pub(crate) fn say_kept<W: Write>(to: &mut W, out: &[u32]) -> io::Result<()> {
    let kept = out.iter().filter(|place| **place == UNWRITTEN).count();
    write!(to, " kept {kept}")
}

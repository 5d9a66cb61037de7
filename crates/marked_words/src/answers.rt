// The answers of calls as text. The types are the library's, which prints nothing, so that no `Display` of theirs stands here.
use crate::text::{Form, say_words};
use abelian::{Listed, Refusal, Scaled, Verdict};
use std::io;
use std::io::Write;

// Prints an answer: what was accepted as the closure prints it, and of a refusal the number and the value.
fn say<W: Write, T, F: FnOnce(&mut W, T) -> io::Result<()>>(
    to: &mut W,
    answer: Result<T, Refusal>,
    say_accepted: F,
) -> io::Result<()>
    requires { F.IsAlwaysCallable say_accepted }
{
    match answer {
        Ok(accepted) => say_accepted(to, accepted),
        Err(refusal) => write!(to, " refused {} {}", refusal.number(), refusal.value()),
    }
}

// Prints what a lister of periods answered besides its words, and returns these. One function for this and `say_scale` would be no plainer: they
// share one `map`, and each prints fields of its own.
pub(crate) fn say_trials<W: Write>(
    to: &mut W,
    answer: Result<Listed, Refusal>,
) -> io::Result<Result<usize, Refusal>> {
    if let Ok(listed) = answer {
        write!(to, " trials {}", listed.trials)?;
    }
    Ok(answer.map(|listed| listed.words))
}

// Prints what the scaled path answered besides its words, s and T, and returns these.
pub(crate) fn say_scale<W: Write>(
    to: &mut W,
    answer: Result<Scaled, Refusal>,
) -> io::Result<Result<usize, Refusal>> {
    if let Ok(scaled) = answer {
        write!(to, " s {} T {}", scaled.s, scaled.t)?;
    }
    Ok(answer.map(|scaled| scaled.words))
}

// Prints what a list call answered: the output words in the form given, or the refusal.
pub(crate) fn say_list<W: Write>(
    to: &mut W,
    form: Form,
    answer: Result<usize, Refusal>,
    out: &[u32],
) -> io::Result<()> {
    say(to, answer, |to, words| say_words(to, form, out, words))
}

// Prints what a count answered.
pub(crate) fn say_count<W: Write>(to: &mut W, answer: Result<usize, Refusal>) -> io::Result<()> {
    say(to, answer, |to, words| write!(to, " counted {words}"))
}

// Prints what the search for a cover answered.
pub(crate) fn say_cover<W: Write>(
    to: &mut W,
    answer: Result<Option<usize>, Refusal>,
) -> io::Result<()> {
    say(to, answer, |to, cover| match cover {
        Some(length) => write!(to, " {length}"),
        None => write!(to, " none"),
    })
}

// Prints what the judge answered, of a pair that is no Abelian period with the place of the failure.
pub(crate) fn say_verdict<W: Write>(
    to: &mut W,
    answer: Result<Verdict, Refusal>,
) -> io::Result<()> {
    say(to, answer, |to, verdict| match verdict {
        Verdict::Yes => write!(to, " yes"),
        Verdict::No { block, letter } => write!(to, " block {block} {}", letter as char),
    })
}

// Prints what an add, a take-back or a clear answered: nothing where it was accepted.
pub(crate) fn say_outcome<W: Write>(to: &mut W, answer: Result<(), Refusal>) -> io::Result<()> {
    say(to, answer, |_, ()| Ok(()))
}

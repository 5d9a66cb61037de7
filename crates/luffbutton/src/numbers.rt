// What the calls return to C: a struct of numbers for each kind of answer, and how it is made of the answer. `refusal` is the refusal's
// number, or 0 where the call is accepted, and `value` the refusal's value; a number that the answer does not name is 0. The structs are those of the C header, so that two
// may have the same shape, and a test is a number. They have no struct in common, so that each writes its own refusal's two numbers and its own zeros.
ghost use Rattle.std.specs.Prelude.{◌≡◌, List, ℕ, []};
ghost use Rattle.abelian.specs.Answers.{answered_covered, answered_listed, answered_needed, answered_outcome, answered_scaled, answered_verdict, answered_wrote, refusing};
ghost use Rattle.luffbutton.specs.Numbers.{verdict_numbers, cover_numbers, outcome_numbers, listed_numbers, scaled_numbers, wrote_numbers, counted_numbers, replayed_numbers};

use abelian::{Listed, Refusal, Scaled, Verdict};
use history::in_place::ReplayAnswer;

// What the judge answers. `yes` is 1 where the pair is an Abelian period; where it is none, `block` and `letter` are the first failure's.
#[repr(C)]
#[derive(Drop)]
pub struct LuffVerdict {
    pub refusal: usize,
    pub value: usize,
    pub yes: usize,
    pub block: usize,
    pub letter: usize,
}

// What a lister of periods answers.
#[repr(C)]
#[derive(Drop)]
pub struct LuffListed {
    pub refusal: usize,
    pub value: usize,
    pub written: usize,
    pub trials: usize,
}

// What the scaled path of full periods answers.
#[repr(C)]
#[derive(Drop)]
pub struct LuffScaled {
    pub refusal: usize,
    pub value: usize,
    pub written: usize,
    pub s: usize,
    pub t: usize,
}

// What any other list call answers.
#[repr(C)]
#[derive(Drop)]
pub struct LuffWrote {
    pub refusal: usize,
    pub value: usize,
    pub written: usize,
}

// What a count answers: how many words the list has.
#[repr(C)]
#[derive(Drop)]
pub struct LuffCounted {
    pub refusal: usize,
    pub value: usize,
    pub words: usize,
}

// What the search for a cover answers. `yes` is 1 where there is one, and `length` is then the smallest cover length.
#[repr(C)]
#[derive(Drop)]
pub struct LuffCover {
    pub refusal: usize,
    pub value: usize,
    pub yes: usize,
    pub length: usize,
}

// What a call answers that writes no list and finds nothing.
#[repr(C)]
#[derive(Drop)]
pub struct LuffOutcome {
    pub refusal: usize,
    pub value: usize,
}

// What a replay answers. `refused` is how many of the log's calls were refused; the other numbers are those of the list at the end.
#[repr(C)]
#[derive(Drop)]
pub struct LuffReplayed {
    pub refusal: usize,
    pub value: usize,
    pub refused: usize,
    pub written: usize,
}

// The number and the value of a refusal: all that a refused call answers.
impl From<Refusal> for LuffOutcome {
    ghost from_gives = { λ refusal given. outcome_numbers given ≡ refusing refusal [] };

    fn from(refusal: Refusal) -> LuffOutcome {
        LuffOutcome {
            refusal: refusal.number(),
            value: refusal.value(),
        }
    }
}

// The numbers of the judge's answer.
impl From<Result<Verdict, Refusal>> for LuffVerdict {
    ghost from_gives = { λ answer given. verdict_numbers given ≡ answered_verdict answer };

    fn from(answer: Result<Verdict, Refusal>) -> LuffVerdict {
        match answer {
            Ok(Verdict::Yes) => LuffVerdict {
                refusal: 0,
                value: 0,
                yes: 1,
                block: 0,
                letter: 0,
            },
            Ok(Verdict::No { block, letter }) => LuffVerdict {
                refusal: 0,
                value: 0,
                yes: 0,
                block,
                letter: letter as usize,
            },
            Err(refusal) => LuffVerdict {
                refusal: refusal.number(),
                value: refusal.value(),
                yes: 0,
                block: 0,
                letter: 0,
            },
        }
    }
}

// The numbers of a cover's answer.
impl From<Result<Option<usize>, Refusal>> for LuffCover {
    ghost from_gives = { λ answer given. cover_numbers given ≡ answered_covered answer };

    fn from(answer: Result<Option<usize>, Refusal>) -> LuffCover {
        match answer {
            Ok(Some(length)) => LuffCover {
                refusal: 0,
                value: 0,
                yes: 1,
                length,
            },
            Ok(None) => LuffCover {
                refusal: 0,
                value: 0,
                yes: 0,
                length: 0,
            },
            Err(refusal) => LuffCover {
                refusal: refusal.number(),
                value: refusal.value(),
                yes: 0,
                length: 0,
            },
        }
    }
}

// The numbers of a lister's answer, whatever the slice is.
impl From<Result<Listed, Refusal>> for LuffListed {
    ghost from_gives = { λ answer given. (out : List ℕ) → listed_numbers given out ≡ answered_listed answer out };

    fn from(answer: Result<Listed, Refusal>) -> LuffListed {
        match answer {
            Ok(Listed { words, trials }) => LuffListed {
                refusal: 0,
                value: 0,
                written: words,
                trials,
            },
            Err(refusal) => LuffListed {
                refusal: refusal.number(),
                value: refusal.value(),
                written: 0,
                trials: 0,
            },
        }
    }
}

// The numbers of the scaled path's answer, whatever the slice is.
impl From<Result<Scaled, Refusal>> for LuffScaled {
    ghost from_gives = { λ answer given. (out : List ℕ) → scaled_numbers given out ≡ answered_scaled answer out };

    fn from(answer: Result<Scaled, Refusal>) -> LuffScaled {
        match answer {
            Ok(Scaled { words, s, t }) => LuffScaled {
                refusal: 0,
                value: 0,
                written: words,
                s,
                t,
            },
            Err(refusal) => LuffScaled {
                refusal: refusal.number(),
                value: refusal.value(),
                written: 0,
                s: 0,
                t: 0,
            },
        }
    }
}

// The numbers of any other list call's answer, whatever the slice is.
impl From<Result<usize, Refusal>> for LuffWrote {
    ghost from_gives = { λ answer given. (out : List ℕ) → wrote_numbers given out ≡ answered_wrote answer out };

    fn from(answer: Result<usize, Refusal>) -> LuffWrote {
        match answer {
            Ok(written) => LuffWrote {
                refusal: 0,
                value: 0,
                written,
            },
            Err(refusal) => LuffWrote {
                refusal: refusal.number(),
                value: refusal.value(),
                written: 0,
            },
        }
    }
}

// The numbers of a count's answer.
impl From<Result<usize, Refusal>> for LuffCounted {
    ghost from_gives = { λ answer given. counted_numbers given ≡ answered_needed answer };

    fn from(answer: Result<usize, Refusal>) -> LuffCounted {
        match answer {
            Ok(words) => LuffCounted {
                refusal: 0,
                value: 0,
                words,
            },
            Err(refusal) => LuffCounted {
                refusal: refusal.number(),
                value: refusal.value(),
                words: 0,
            },
        }
    }
}

// The numbers of an answer that says no more than whether the call is accepted.
impl From<Result<(), Refusal>> for LuffOutcome {
    ghost from_gives = { λ answer given. outcome_numbers given ≡ answered_outcome answer };

    fn from(answer: Result<(), Refusal>) -> LuffOutcome {
        match answer {
            Ok(()) => LuffOutcome {
                refusal: 0,
                value: 0,
            },
            Err(refusal) => refusal.into(),
        }
    }
}

// The numbers of a replay's answer, whatever the slice is.
impl From<ReplayAnswer> for LuffReplayed {
    ghost from_gives = { λ answer given. (given.refused ≡ answer.refused) × ((out : List ℕ) → replayed_numbers given out ≡ answered_wrote answer.wrote out) };

    fn from(answer: ReplayAnswer) -> LuffReplayed {
        let listed = LuffWrote::from(answer.wrote);
        LuffReplayed {
            refusal: listed.refusal,
            value: listed.value,
            refused: answer.refused,
            written: listed.written,
        }
    }
}

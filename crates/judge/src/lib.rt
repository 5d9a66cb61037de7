// The judge: whether a pair is an Abelian period of a word, and if not, the first block and in it the first letter that breaks the rule.
#![tactic(auto)]

ghost use Rattle.std.specs.Prelude.{◌≡◌, not, ◌||◌, ◌+◌, ◌≤◌, T, eqb, ltb, length, Ok};
ghost use Rattle.abelian.specs.Lists.{pick};
ghost use Rattle.abelian.specs.Words.{vector};
ghost use Rattle.abelian.specs.Periods.{pair, in_range, whole_blocks};
ghost use Rattle.abelian.specs.Judge.{block_at, failures};
ghost use Rattle.abelian.specs.Calls.{first_failure, judging};
ghost use Rattle.abelian.specs.Answers.{answered_verdict};

use abelian::{FIRST_LETTER, Head, LETTERS, Period, Refusal, Verdict};
use words::{Word, check_word, count_letters};

// Whether the pair is in range for n. A period above a head is at least 1, and nothing is added up, so that the largest numbers are no
// other case.
fn in_range(n: usize, head: Head, period: Period) -> bool
    ensures { result ≡ in_range n (pair head.0 period.0) }
{
    let h = head.0;
    let p = period.0;
    if n < p {
        return false;
    }
    h < p && h <= n - p
}

// Whether the block of that number is the head or the tail, where there are so many whole blocks.
fn is_end(block: usize, whole: usize) -> bool
    ensures { result ≡ (eqb block 0 || ltb whole block) }
{
    block == 0 || block > whole
}

// Whether a letter breaks the rule in a block, by how often it stands there and in block 1: in the head and in the tail only a larger
// number does, in a whole block any other number. `end` is that test of the definition and no side. Here and below head and period come apart, as C and document 01 hand
// them over.
fn breaks_rule(end: bool, count: u8, first: u8) -> bool
    ensures { result ≡ pick end (ltb first count) (not (eqb count first)) }
{
    if end { first < count } else { count != first }
}

// How often each letter stands in the block of that number: 0 is the head, the whole blocks follow from 1 on, and the tail is behind the
// last of them. The block is counted where it stands in the word.
fn count_block(word: &Word, head: Head, period: Period, block: usize) -> [u8; LETTERS]
    requires range { T (in_range (length word.now) (pair head.0 period.0)) }
    requires block_bound { block ≤ whole_blocks (length word.now) (pair head.0 period.0) + 1 }
    ensures { result ≡ vector (block_at word.now (pair head.0 period.0) block) }
{
    let h = head.0;
    let p = period.0;
    let n = word.len();
    if block == 0 {
        return count_letters(&word.part(0, h));
    }
    let from = h + (block - 1) * p;
    let to = n.min(from + p);
    count_letters(&word.part(from, to))
}

// Yes, or the first block that breaks the rule against block 1, and in it the first letter, in letter order, by its byte. The loops are left by a label with the
// failing place, as document 01 asks. A block goes by its number, which is what the judge answers.
fn first_failure(word: &Word, head: Head, period: Period) -> Verdict
    requires { T (in_range (length word.now) (pair head.0 period.0)) }
    ensures { answered_verdict (Ok result) ≡ first_failure (failures word.now (pair head.0 period.0)) }
{
    let whole = (word.len() - head.0) / period.0;
    let first = count_block(word, head, period, 1);
    'blocks: {
        for block in 0..whole + 2 {
            let counts = count_block(word, head, period, block);
            let end = is_end(block, whole);
            for letter in 0..LETTERS {
                if breaks_rule(end, counts[letter], first[letter]) {
                    let byte = FIRST_LETTER + letter as u8;
                    break 'blocks Verdict::No {
                        block,
                        letter: byte,
                    };
                }
            }
        }
        Verdict::Yes
    }
}

// The judge's verdict on a pair: refused where the word or the pair is, else yes where the pair is an Abelian period of the word, and no
// with the place of the first failure where it is none.
pub fn judge(word: &[u8], head: Head, period: Period) -> Result<Verdict, Refusal>
    ensures { answered_verdict result ≡ judging word.now (pair head.0 period.0) }
{
    let word = check_word(word)?;
    if !in_range(word.len(), head, period) {
        return Err(Refusal::PairOutOfRange);
    }
    Ok(first_failure(&word, head, period))
}

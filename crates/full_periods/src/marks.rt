// Tables of marks: one entry for each number from 0 to the longest word's length, 1 where the number is marked and 0 where not.
// They are bytes and no bools, since the definitions `full_marks` and `scaled_marks` state a table as numbers.
ghost use Rattle.std.specs.Prelude.{◌≡◌, map, ◌≤◌, length};
ghost use Rattle.abelian.specs.Words.{longest};
ghost use Rattle.abelian.specs.Lists.{largest};
ghost use Rattle.abelian.specs.FullPeriods.{distances};
ghost use Rattle.abelian.specs.Output.{full_word, fill};
ghost use Rattle.full_periods.specs.Marks.{Steps, Listed, marked, marks_multiples};

use abelian::{Kind, Period, Refusal, output_word};
use words::ROWS;

// The output word of a full period: its kind, the period above, and below how often it goes into n, which is the length of a word that is not at hand here.
fn full_word(period: Period, n: usize) -> u32
    requires le_period { 1 ≤ period.0 }
    requires period_le_longest { period.0 ≤ longest }
    requires n_le_longest { n ≤ longest }
    ensures { result ≡ full_word n period.0 }
{
    let p = period.0;
    output_word(Kind::Full, p, n / p)
}

// A table in which no number up to n is marked that is not a multiple of the step, and n is a multiple too. The empty word's step is 0. `count`, `write` and `greatest_distance` look at
// the multiples alone, each by a loop of its own: one method that hands them out as a `StepBy<Range<usize>>` was tried and is proved, but that type's `next` goes through each number passed
// over, and the scaled list and count took 1.09 and 1.08 times as long at 240 letters.
#[derive(Drop)]
pub(crate) struct Marked<'a> {
    pub marks: &'a [u8; ROWS],
    pub n: usize,
    pub step: usize,
    pub ghost short: { n ≤ longest },
    pub ghost steps: { Steps step n marks.now },
}

impl<'a> Marked<'a> {
    // How many of the numbers from 1 to n are marked. The empty word has no number to look at.
    pub(crate) fn count(&self) -> usize
        ensures { result ≡ length (marked self.now.n self.now.marks.now) }
    {
        let stride = self.step.max(1);
        let mut count = 0;
        for p in (stride..self.n + 1).step_by(stride) {
            if self.marks[p] == 1 {
                count += 1;
            }
        }
        count
    }

    // Writes the output word of each number from 1 to n that is marked, by rising number, into the first places.
    fn write(&self, out: &mut [u32])
        requires { length (marked self.now.n self.now.marks.now) ≤ length out.old }
        ensures { out.new ≡ fill (map (full_word self.now.n) (marked self.now.n self.now.marks.now)) out.old }
    {
        let stride = self.step.max(1);
        let mut at = 0;
        for p in (stride..self.n + 1).step_by(stride) {
            if self.marks[p] == 1 {
                out[at] = full_word(Period(p), self.n);
                at += 1;
            }
        }
    }

    // Counts the numbers from 1 to n that are marked, and writes their output words, or refuses a slice that is too short for them, which then
    // stays as it came. Answers how many words it wrote.
    pub(crate) fn list(&self, out: &mut [u32]) -> Result<usize, Refusal>
        ensures { Listed (map (full_word self.now.n) (marked self.now.n self.now.marks.now)) out.old result out.new }
    {
        let needed = self.count();
        if out.len() < needed {
            return Err(Refusal::SliceTooShort(needed));
        }
        self.write(out);
        Ok(needed)
    }

    // The greatest distance between neighbours among 0 and the marked numbers from 1 to n.
    pub(crate) fn greatest_distance(&self) -> usize
        requires { 1 ≤ self.now.step }
        ensures { result ≡ largest (distances 0 (marked self.now.n self.now.marks.now)) }
    {
        let mut greatest: usize = 0;
        let mut last = 0;
        for k in (self.step..self.n + 1).step_by(self.step) {
            if self.marks[k] == 1 {
                greatest = greatest.max(k - last);
                last = k;
            }
        }
        greatest
    }

    // Whether every multiple of the period up to n is marked.
    pub(crate) fn marks_multiples(&self, period: Period) -> bool
        requires { 1 ≤ period.0 }
        ensures { result ≡ marks_multiples self.now.marks.now self.now.n period.0 }
    {
        let p = period.0;
        for k in (p..self.n + 1).step_by(p) {
            if self.marks[k] != 1 {
                return false;
            }
        }
        true
    }
}

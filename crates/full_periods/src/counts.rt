// Count vectors: multiples, the greatest common divisor of the counts, and quotients.
ghost use Rattle.std.specs.Prelude.{◌≡◌, [], ◌∷◌, ◌≤◌};
ghost use Rattle.abelian.specs.Words.{longest};
ghost use Rattle.full_periods.specs.Divisors.{GreatestDivisor, divided, is_multiple};

use abelian::LETTERS;

// Whether each count is so many times that of the unit. Every letter is looked at, so that the loop has no exit inside a vector; a zip of the two arrays'
// iterators has two.
pub(crate) fn is_multiple(counts: [u8; LETTERS], times: u16, unit: [u8; LETTERS]) -> bool
    requires { times ≤ longest }
    ensures { result ≡ is_multiple counts times unit }
{
    let mut differing = false;
    for j in 0..LETTERS {
        let count = counts[j];
        let part = unit[j];
        differing = differing | (u16::from(count) != times * u16::from(part));
    }
    !differing
}

// The greatest common divisor of two numbers, by Euclid's algorithm, whose steps no range counts.
fn common_divisor(a: u8, b: u8) -> u8
    ensures { GreatestDivisor (a ∷ b ∷ []) result }
{
    let mut x = a;
    let mut y = b;
    while y != 0 {
        let rest = x % y;
        x = y;
        y = rest;
    }
    x
}

// The greatest common divisor of the counts; 0 where all of them are 0.
pub(crate) fn count_divisor(counts: [u8; LETTERS]) -> u8
    ensures { GreatestDivisor counts result }
{
    let mut g: u8 = 0;
    for count in &counts {
        g = common_divisor(g, *count);
    }
    g
}

// The counts, each divided by g.
pub(crate) fn divide(counts: [u8; LETTERS], g: u8) -> [u8; LETTERS]
    requires { 1 ≤ g }
    ensures { result ≡ divided counts g }
{
    let mut unit = counts;
    for count in &mut unit {
        *count /= g;
    }
    unit
}

// Count vectors of parts of a word, as rows of the table of prefix counts or without the zeros behind them: their difference, and the two tests that the papers make of
// them. The zeros change neither the difference nor a test. A loop looks at every place and does not end before the last one, so that it becomes a few vector instructions; it is over
// places, since a zip of two arrays has a second way out. For the crates above.
ghost use Rattle.std.specs.Prelude.{◌≡◌, not, [], ℕ, ◌+◌, ◌≤◌, ◌<◌, T, get_or, set};
ghost use Rattle.abelian.specs.Lists.{same};
ghost use Rattle.abelian.specs.Words.{longest, none_above};
ghost use Rattle.words.specs.Differences.{minus};

use crate::{ROWS, WIDTH};

// The row of the table for the first `at` letters. It stays beside `CountedWord::row`, which is over it, since it asks nothing of the table, and an edit is about it
// (`row_of_half_the_prefix`).
pub fn row(table: &[[u8; WIDTH]; ROWS], at: usize) -> [u8; WIDTH]
    requires { at ≤ longest }
    ensures { result ≡ get_or table.now at [] }
{
    table[at]
}

// The counts with one more at a place. Every place is looked at, so that the counts need not lie in memory.
pub fn count_more<const N: usize>(counts: [u8; N], place: u8) -> [u8; N]
    requires width_bound { N ≤ 256 }
    requires place_lt_width { place < N }
    requires by_index { (j : ℕ) → j < N → get_or counts j 0 < longest }
    ensures { result ≡ set counts.entry place (get_or counts.entry place 0 + 1) }
{
    let mut more = counts;
    for j in 0..N {
        more[j] = counts[j] + (place == j as u8) as u8;
    }
    more
}

// The first row's counts, each less the second's, of which none is above. For the rows of two prefixes this is the row of the part between them.
#[tactic(auto, unfolding(crate::specs::Prefixes::width))]
pub fn difference(longer: [u8; WIDTH], shorter: [u8; WIDTH]) -> [u8; WIDTH]
    requires { T (none_above shorter longer) }
    ensures { result ≡ minus longer shorter }
{
    let mut counts = longer;
    for j in 0..WIDTH {
        counts[j] = longer[j] - shorter[j];
    }
    counts
}

// Whether some count of the first row is above that of the second. `any` was tried: it stops at the first such count, and took 3 times as long.
pub fn exceeds(u: [u8; WIDTH], v: [u8; WIDTH]) -> bool
    ensures { result ≡ not (none_above u v) }
{
    let mut found = false;
    for j in 0..WIDTH {
        found = found | (v[j] < u[j]);
    }
    found
}

// Whether the two vectors differ in some count.
pub fn differs<const N: usize>(u: [u8; N], v: [u8; N]) -> bool
    ensures { result ≡ not (same u.entry v.entry) }
{
    u != v
}

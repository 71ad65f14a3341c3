// The gradients down the columns: N of a row, from the seven loaded rows about the one above it.
#![tactic(auto)]

ghost use Rattle.std.specs.Prelude.{◌≡◌, ℕ, ◌+◌, ◌≤◌, pos, get_or};
ghost use Rattle.toolkit.specs.Entries.{Entries};
ghost use Rattle.south_rows.specs.SevenRows.{down_pair, north_sum};
ghost use Rattle.south_rows.specs.SevenRows.{SmallRows, NorthReads, SouthLent, SouthStores};

use east_rows::{gradient, pair, take_half};
use frame::Shape;
use mosaic_rows::SevenRows;
use positions::half_count;
use std::array;

// The pair of s down the column of entry k.
#[tactic(auto, using(crate::specs::SevenRowLaws::listed_pair))]
fn down(rows: SevenRows<'_>, k: usize) -> u16
    requires { SmallRows (k + 1) rows.at rows.samples.now }
    ensures { (result ≡ down_pair rows.entry.samples.now rows.entry.at k) × (result ≤ 32760) }
{
    pair(array::from_fn(|p| rows.samples[rows.at[p] + k]))
}

// The pairs of the columns −1 to w.
fn down_row(rows: SevenRows<'_>, w: usize, pairs: &mut [u16; 4112])
    requires w_bound { w ≤ 4096 }
    requires small_rows { SmallRows (w + 9) rows.at rows.samples.now }
    ensures { Entries 0 4112 7 (w + 9) (down_pair rows.entry.samples.now rows.entry.at) pairs.new }
{
    for k in 7..w + 9 {
        pairs[k] = down(rows, k);
    }
}

// N at the columns 0 to w − 1, from the pairs and the rows that start at at[2] and at[4].
#[tactic(auto, unfolding(crate::specs::SevenRows::north_sum))]
fn north_row(rows: SevenRows<'_>, w: usize, pairs: &[u16; 4112], gradients: &mut [i32; 4112])
    requires north_reads { NorthReads w (get_or rows.at 2 0) (get_or rows.at 4 0) rows.samples.now pairs.now }
    ensures { Entries (pos 0) 4112 8 (w + 8)
        (λ (k : ℕ). pos (north_sum rows.entry.samples.now pairs.now (get_or rows.entry.at 2 0) (get_or rows.entry.at 4 0) k))
        gradients.new }
{
    let [_, _, here, _, there, ..] = rows.at;
    let samples = rows.samples;
    for k in 8..w + 8 {
        gradients[k] = gradient(
            samples[here + k],
            samples[there + k],
            pairs[k],
            pairs[k - 1],
            pairs[k + 1],
        );
    }
}

// Stores N of the row at at[4] in halves, of which the first starts at column c, from entry to on. It is S of the row at at[2].
// The column is lent, and no `Halves` made here, since the seven entries do not tell of which row they are.
pub fn south_line(
    shape: Shape,
    c: usize,
    rows: SevenRows<'_>,
    out: &mut [i32],
    to: usize,
    pairs: &mut [u16; 4112],
    gradients: &mut [i32; 4112],
)
    requires { SouthLent shape c to rows.at rows.samples.now out.old }
    ensures south_stores { SouthStores shape c to rows.entry.at rows.entry.samples.now out.old out.new }
{
    let w = shape.width;
    let count = half_count(w, c);
    down_row(rows, w, pairs);
    north_row(rows, w, pairs, gradients);
    take_half(gradients, c + 8, count, out, to);
    take_half(gradients, 9 - c, w - count, out, to + count);
}

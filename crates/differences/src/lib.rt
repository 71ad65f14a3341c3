// The differences of green and a colour at red and blue sites: the final one, and that of the other colour.
#![tactic(auto)]

ghost use Rattle.std.specs.Prelude.{◌≡◌, List, ℕ, ◌+◌, ◌-◌, ◌<◌, ◌≤◌, pos, length, get_or};
ghost use Rattle.toolkit.specs.Entries.{Entries};
ghost use Rattle.toolkit.specs.Writes.{Wrote};
ghost use Rattle.frame.specs.Sites.{frame};
ghost use Rattle.method.specs.Settings.{fusion_share};
ghost use Rattle.method.specs.Planes.{fused};
ghost use Rattle.positions.specs.Taken.{SomeSamples};
ghost use Rattle.records.specs.Stages.{EnhanceReads, EnhanceStores, DiagonalReads, DiagonalStores};
ghost use Rattle.differences.specs.Rows.{straight_read, corners_read, straight_mean_read, corner_mean_read, ValuesFit};
ghost use Rattle.half_rows.specs.Sources.{Sized};

use half_rows::{Scratch, SiteGradients};
use positions::{DIAGONAL_OFF, ENHANCE_OFF, Halves, Row};

// The half rows of both stages stand in scratch, N of the row in north. enhance_line has D of the row in own and M in other; diagonal_line has
// the final differences of the row above in own, those of the row below in other, and the means of their corners in trials.across.

// M of entry k.
fn straight_mean(
    gradients: SiteGradients<'_>,
    l: &[i32; 2064],
    green: &[i32],
    below: usize,
    above: usize,
    k: usize,
) -> i32
    requires k_lt_count { (k < gradients.count) × (below + gradients.count ≤ length green.now) × (above + gradients.count ≤ length green.now) }
    requires values_fit { ValuesFit 8184 gradients.count (straight_read l.now green.now below above) }
    ensures { result ≡ straight_mean_read gradients.entry.work.now gradients.entry.east gradients.entry.south gradients.entry.north.now
        l.now green.now below above k }
{
    let v = means::values(l[k + 5], l[k + 3], green[below + k], green[above + k]);
    means::lifted_mean(v, gradients.weights(k), 8192) as i32
}

// The means of count sites of a half row, of which mean forms that of site k.
fn means_row<F: Fn(usize) -> i32>(mean: F, count: usize, m: &mut [i32; 2064])
    requires few { count ≤ 2048 }
    requires may_form { (k : ℕ) → k < count → F.pre mean k }
    ensures { (k : ℕ) → k < count → F.post mean k (get_or m.new (k + 4) (pos 0)) }
{
    for k in 0..count {
        m[k + 4] = mean(k);
    }
}

// The final differences of a row, from D and M.
fn fuse_row(l: &[i32; 2064], m: &[i32; 2064], count: usize, work: &mut [i32], at: usize)
    requires count_bound { (count ≤ 2048) × (at + count ≤ length work.old) }
    requires sized { (Sized 8192 4 (count + 4) l.now) × (Sized 8192 4 (count + 4) m.now) }
    ensures { Wrote (pos 0) at count
        (λ (k : ℕ). fused fusion_share (get_or l.now (k + 4) (pos 0)) (get_or m.now (k + 4) (pos 0)))
        work.old work.new }
{
    for k in 0..count {
        work[at + k] = site_values::fuse(l[k + 4], m[k + 4]);
    }
}

// The mean of the corners of entry k.
fn corner_mean(
    gradients: SiteGradients<'_>,
    up: &[i32; 2064],
    down: &[i32; 2064],
    c: usize,
    k: usize,
) -> i32
    requires k_lt_count { (k < gradients.count) × (c ≤ 1) }
    requires values_fit { ValuesFit 4092 gradients.count (corners_read up.now down.now c) }
    ensures { result ≡ corner_mean_read gradients.entry.work.now gradients.entry.east gradients.entry.south gradients.entry.north.now
        up.now down.now c k }
{
    let v = means::values(
        up[k + c + 4],
        up[k + c + 3],
        down[k + c + 4],
        down[k + c + 3],
    );
    let g = site_values::diagonal(gradients.weights(k));
    means::lifted_mean(v, g, 4096) as i32
}

// The final differences of a row, to its record. They are read for sites at most 2 rows away.
pub fn enhance_line(
    row: Row,
    tops: &[i32; 8224],
    green: &[i32],
    work: &mut [i32],
    scratch: &mut Scratch,
)
    requires some_samples { SomeSamples (λ (zs : List ℕ). EnhanceReads (frame row.shape zs) row.index row.base tops.now work.old green.now) }
    ensures enhance_stores { EnhanceStores row.shape row.index row.base tops.now green.now work.old work.new }
{
    let w = row.shape.width;
    let h = row.shape.height;
    let i = row.index;
    let Halves { start, count, .. } = Halves::of(row.shape, i);
    let below = positions::row_below::<ENHANCE_OFF>(h, i, 2) * w;
    let above = positions::row_above::<ENHANCE_OFF>(h, i, 2) * w;
    let n = &mut scratch.north;
    let l = &mut scratch.own;
    let m = &mut scratch.other;
    half_rows::north(tops, work, row, 0, count, n);
    half_rows::copy(green, i * w, count, l);
    half_rows::mirror(l, w, start, 1);
    let gradients = SiteGradients {
        work,
        east: records::record_at(row),
        south: records::south_at(row),
        north: n,
        count,
    };
    means_row(
        |k| straight_mean(gradients, l, green, below, above, k),
        count,
        m,
    );
    fuse_row(l, m, count, work, records::final_at(row));
}

// The differences of the other colour of a row, to its record. They are read for sites at most 1 row away.
pub fn diagonal_line(row: Row, tops: &[i32; 8224], work: &mut [i32], scratch: &mut Scratch)
    requires some_samples { SomeSamples (λ (zs : List ℕ). DiagonalReads (frame row.shape zs) row.index row.base tops.now work.old) }
    ensures diagonal_stores { DiagonalStores row.shape row.index row.base tops.now work.old work.new }
{
    let w = row.shape.width;
    let h = row.shape.height;
    let i = row.index;
    let Halves { start, count, rest } = Halves::of(row.shape, i);
    let above = records::final_at(row.at(positions::row_above::<DIAGONAL_OFF>(h, i, 1)));
    let below = records::final_at(row.at(positions::row_below::<DIAGONAL_OFF>(h, i, 1)));
    let n = &mut scratch.north;
    let up = &mut scratch.own;
    let down = &mut scratch.other;
    let m = &mut scratch.trials.across;
    half_rows::north(tops, work, row, 0, count, n);
    half_rows::copy(work, above, rest, up);
    half_rows::copy(work, below, rest, down);
    half_rows::mirror(up, w, 1 - start, 1);
    half_rows::mirror(down, w, 1 - start, 1);
    let gradients = SiteGradients {
        work,
        east: records::record_at(row),
        south: records::south_at(row),
        north: n,
        count,
    };
    means_row(|k| corner_mean(gradients, up, down, start, k), count, m);
    half_rows::store(m, count, work, records::other_at(row));
}

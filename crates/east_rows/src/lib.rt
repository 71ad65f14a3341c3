// E of a row in halves, from the loaded rows i − 1, i and i + 1 and their a.
#![tactic(auto)]

ghost use Rattle.std.specs.Prelude.{◌≡◌, List, ℕ, ◌+◌, ◌*◌, ◌-◌, ◌<◌, ◌≤◌, pos, nat_abs, length, get_or};
ghost use Rattle.toolkit.specs.Entries.{Entries};
ghost use Rattle.toolkit.specs.Writes.{Wrote};
ghost use Rattle.frame.specs.Sites.{frame};
ghost use Rattle.method.specs.Gradients.{apart, taps};
ghost use Rattle.positions.specs.Taken.{SomeSamples};
ghost use Rattle.records.specs.Layout.{record_size};
ghost use Rattle.east_rows.specs.RowSums.{Small, EastRoom, pair_of, along_at, east_at};
ghost use Rattle.east_rows.specs.EastRows.{EastReads, EastStores};

use mosaic_rows::SevenRows;
use positions::{Halves, Row};

// |s| of six samples in line.
#[tactic(auto, using(crate::specs::SumLaws::taps_abs_diff, crate::specs::SumLaws::taps_most))]
pub fn bend(a: u16, b: u16, c: u16, d: u16, e: u16, f: u16) -> u16
    requires { (a ≤ 4095) × (b ≤ 4095) × (c ≤ 4095) × (d ≤ 4095) × (e ≤ 4095) × (f ≤ 4095) }
    ensures { (result ≡ nat_abs (taps (pos a) (pos b) (pos c) (pos d) (pos e) (pos f))) × (result ≤ 16380) }
{
    (a + c + d + f).abs_diff(2 * (b + e))
}

// |s| of the first six and of the last six of seven samples in line.
#[tactic(auto, unfolding(crate::specs::RowSums::pair_of))]
pub fn pair(z: [u16; 7]) -> u16
    requires { Small 4095 0 7 z }
    ensures { (result ≡ pair_of z) × (result ≤ 32760) }
{
    let [a, b, c, d, e, f, g] = z;
    bend(a, b, c, d, e, f) + bend(b, c, d, e, f, g)
}

// A gradient, from the two samples and the three a.
pub fn gradient(x: u16, y: u16, here: u16, before: u16, after: u16) -> i32
    requires { (x ≤ 4095) × (y ≤ 4095) × (here ≤ 32760) × (before ≤ 32760) × (after ≤ 32760) }
    ensures { result ≡ pos (8 * apart (pos x) (pos y) + 2 * here + before + after) }
{
    8 * i32::from(x.abs_diff(y)) + 2 * i32::from(here) + i32::from(before) + i32::from(after)
}

// a at entry k.
#[tactic(auto, using(std::proofs::lemmas::List::places, crate::specs::SumLaws::cut_small, crate::specs::SumLaws::cut_pair))]
fn along(z: &[u16; 98688], k: usize) -> u16
    requires le_k { (2 ≤ k) × (k + 4 < 98688) }
    requires small { Small 4095 (k - 2) (k + 5) z.now }
    ensures { (result ≡ along_at z.now k) × (result ≤ 32760) }
{
    pair(z[k - 2..k + 5].try_into().unwrap())
}

// a of the row at entry at, at the columns −2 to w − 1.
pub fn along_row(rows: &[u16; 98688], at: usize, w: usize, alongs: &mut [u16; 98688])
    requires w_bound { (w ≤ 4096) × (at + 4112 ≤ 98688) }
    requires small { Small 4095 at (at + w + 16) rows.now }
    ensures { Wrote 0 (at + 6) (w + 2) (λ (k : ℕ). along_at rows.now (at + 6 + k)) alongs.old alongs.new }
{
    for k in 0..w + 2 {
        alongs[at + 6 + k] = along(rows, at + 6 + k);
    }
}

// E at the columns −2 to w − 1, from the rows i − 1, i and i + 1 and their a.
#[tactic(auto, unfolding(crate::specs::RowSums::east_at))]
fn east_row(rows: SevenRows<'_>, alongs: &[u16; 98688], w: usize, gradients: &mut [i32; 4112])
    requires east_room { EastRoom rows.samples.now alongs.now (get_or rows.at 1 0) (get_or rows.at 2 0)
        (get_or rows.at 3 0) w }
    ensures { Entries (pos 0) 4112 6 (w + 8)
        (λ (k : ℕ). pos (east_at rows.entry.samples.now alongs.now (get_or rows.entry.at 1 0)
        (get_or rows.entry.at 2 0) (get_or rows.entry.at 3 0) k)) gradients.new }
{
    let [_, up, here, down, ..] = rows.at;
    let samples = rows.samples;
    for k in 6..w + 8 {
        gradients[k] = gradient(
            samples[here + k],
            samples[here + k + 2],
            alongs[here + k],
            alongs[up + k],
            alongs[down + k],
        );
    }
}

// Stores count entries of a row, every second one from entry x on.
pub fn take_half(row: &[i32; 4112], x: usize, count: usize, out: &mut [i32], at: usize)
    requires { (x + 2 * count ≤ 4112) × (at + count ≤ length out.old) }
    ensures { Wrote (pos 0) at count (λ (k : ℕ). get_or row.now (x + 2 * k) (pos 0)) out.old out.new }
{
    for k in 0..count {
        out[at + k] = row[x + 2 * k];
    }
}

// E of row i in halves, each from two columns west on. The rows i − 2 to i + 4 stand at the seven entries, their a at the same.
pub fn east_line(
    row: Row,
    rows: SevenRows<'_>,
    alongs: &[u16; 98688],
    work: &mut [i32],
    gradients: &mut [i32; 4112],
)
    requires some_samples { SomeSamples (λ (zs : List ℕ). EastReads (frame row.shape zs) row.index rows.at rows.samples.now
        alongs.now) }
    requires work_len { length work.old ≡ row.shape.height * record_size row.shape.width }
    ensures east_stores { EastStores row.shape row.index rows.entry.at rows.entry.samples.now alongs.now
        work.old work.new }
{
    let Halves { start, count, rest } = Halves::of(row.shape, row.index);
    let to = records::record_at(row);
    east_row(rows, alongs, row.shape.width, gradients);
    take_half(gradients, start + 6, count + 1, work, to);
    take_half(gradients, 7 - start, rest + 1, work, to + count + 1);
}

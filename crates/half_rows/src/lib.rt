// Half rows: copied from a buffer between reflected entries, stored to one, and the four gradients of a site read from them. A half row is an
// array of one size with the count of its sites beside it, since the module has no heap. The count is a plain number, at most 2,048 by a
// clause: a type for it would be made from a row's `Halves` at every call, and taken apart in every loop.
#![tactic(auto)]

ghost use Rattle.std.specs.Prelude.{◌≡◌, ℕ, ◌+◌, ◌*◌, ◌-◌, ◌/◌, ◌%◌, ◌<◌, ◌≤◌, pos, length, get_or};
ghost use Rattle.toolkit.specs.Entries.{Entries};
ghost use Rattle.toolkit.specs.Writes.{Wrote};
ghost use Rattle.frame.specs.Sites.{reflect};
ghost use Rattle.positions.specs.HalfRows.{half_count};
ghost use Rattle.half_rows.specs.Sources.{source_entry, north_entry, four_entries, weighed_entries, GradientsFit, NorthRoom};

use positions::Row;

// A half row for each way to find green at a red or blue site: across, down, and by the mean of the two. The last stage keeps a half row for
// each colour in it (out_stage).
#[derive(Drop)]
pub struct ThreeWays {
    pub across: [i32; 2064],
    pub vertical: [i32; 2064],
    pub diagonal: [i32; 2064],
}

// The rows that the stages of the sweep work in. Each stage fills anew what it reads.
#[derive(Drop)]
pub struct Scratch {
    // sums down the columns, and gradients, at all columns of a row
    pub pairs: [u16; 4112],
    pub gradients: [i32; 4112],
    // N of a half row, and two half rows more: as a rule of the row's own red or blue, and of the other
    pub north: [i32; 2064],
    pub own: [i32; 2064],
    pub other: [i32; 2064],
    // for the second pass what is tried at a site, and the sums that choose among it
    pub trials: ThreeWays,
    pub sums: ThreeWays,
    // the entries of the map
    pub codes: [u8; 2048],
}

// Where the gradients of count sites of a half row stand: E of the row from two columns west on, S, and N. Each stage makes its own by a
// literal: a function for it would ask the ghost fact word for word.
#[derive(Clone, Copy)]
pub struct SiteGradients<'a> {
    pub work: &'a [i32],
    pub east: usize,
    pub south: usize,
    pub north: &'a [i32; 2064],
    pub count: usize,
    pub ghost fit: { GradientsFit count east south work.now north.now },
}

impl SiteGradients<'_> {
    // The four gradients of a site.
    pub fn at(self, k: usize) -> [i64; 4]
        requires { k < self.count }
        ensures { result ≡ four_entries self.entry.work.now self.entry.east self.entry.south self.entry.north.now k }
    {
        four(self.work, self.east, self.south, self.north, k)
    }

    // The four gradients of a site as its means weigh them. The first pass decides by those of `at`.
    #[tactic(auto, using(crate::specs::SiteGradients::weighed_are))]
    pub fn weights(self, k: usize) -> [i64; 4]
        requires { k < self.count }
        ensures { result ≡ weighed_entries self.entry.work.now self.entry.east self.entry.south self.entry.north.now k }
    {
        self.at(k)
    }
}

// A half row, between room for four entries on each side.
#[tactic(auto, using(std::proofs::lemmas::List::places))]
pub fn copy(src: &[i32], at: usize, count: usize, dst: &mut [i32; 2064])
    requires { (at + count ≤ length src.now) × (count ≤ 2048) }
    ensures { Entries (pos 0) 2064 4 (count + 4)
        (λ (x : ℕ). get_or src.now (at + (x - 4)) (pos 0)) dst.new }
{
    dst[4..count + 4].copy_from_slice(&src[at..at + count]);
}

// Stores a half row from position at on. A buffer is handed on whole, with the position: so one clause (`Wrote`) tells all its entries, where
// of a part each caller would have to say what the whole is then.
pub fn store(src: &[i32; 2064], count: usize, dst: &mut [i32], at: usize)
    requires { (count ≤ 2048) × (at + count ≤ length dst.old) }
    ensures { Wrote (pos 0) at count (λ (k : ℕ). get_or src.now (k + 4) (pos 0)) dst.old dst.new }
{
    dst[at..at + count].copy_from_slice(&src[4..count + 4]);
}

// Where the column x, reflected, stands among the columns c, c + 2, ..
fn column_place(w: usize, c: usize, x: usize) -> usize
    requires { (2 ≤ w) × (w ≤ 4096) × (c ≤ 1) × (x % 2 ≡ c % 2) }
    ensures { (result ≡ (reflect w (pos x) - c) / 2) × (result < half_count w c) }
{
    (positions::reflected(w, x) - c) / 2
}

// The reflected entries of the half row of columns c, c + 2, .., t on each side. It is given a column and no row, so it asks for no `Halves`.
pub fn mirror(row: &mut [i32; 2064], w: usize, c: usize, t: usize)
    requires { (2 ≤ w) × (w ≤ 4096) × (c ≤ 1) × (t ≤ 4) }
    ensures { Entries (pos 0) 2064 (4 - t) (half_count w c + 4 + t)
        (λ (x : ℕ). get_or row.old (source_entry w c x) (pos 0)) row.new }
{
    let count = positions::half_count(w, c);
    for k in 1..t + 1 {
        let west = column_place(w, c, 2 * k - c);
        let east = column_place(w, c, c + 2 * (count - 1 + k));
        row[4 - k] = row[west + 4];
        row[count + 3 + k] = row[east + 4];
    }
}

// N of count sites of row i, from entry at of the row on: S of row i − 2, and that of the top rows in tops.
pub fn north(
    tops: &[i32; 8224],
    work: &[i32],
    row: Row,
    at: usize,
    count: usize,
    n: &mut [i32; 2064],
)
    requires { NorthRoom row.shape.width row.index row.base at count tops.now work.now }
    ensures { Entries (pos 0) 2064 4 (count + 4)
        (λ (x : ℕ). north_entry tops.now work.now row.shape.width row.index (at + (x - 4))) n.new }
{
    let i = row.index;
    if i < 2 {
        copy(tops, i * 4112 + at, count, n);
    } else {
        copy(work, records::south_at(row.at(i - 2)) + at, count, n);
    }
}

// The four gradients of a site, E, W, S, N: E of the half row stands from two columns west on.
pub fn four(work: &[i32], east: usize, south: usize, n: &[i32; 2064], k: usize) -> [i64; 4]
    requires { (k < 2048) × (east + k + 1 < length work.now) × (south + k < length work.now) }
    ensures { result ≡ four_entries work.now east south n.now k }
{
    let west_at = east + k;
    let east_at = west_at + 1;
    [
        i64::from(work[east_at]),
        i64::from(work[west_at]),
        i64::from(work[south + k]),
        i64::from(n[k + 4]),
    ]
}

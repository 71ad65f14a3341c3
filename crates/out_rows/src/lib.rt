// The loops of the last stage: samples, means and outputs in half rows, and two half rows woven to a row of a plane.
#![tactic(auto)]

ghost use Rattle.std.specs.Prelude.{◌≡◌, [], ◌∷◌, ℕ, ◌+◌, ◌*◌, ◌-◌, ◌≤◌, pos, nat_abs, ◌+ℤ◌, ◌-ℤ◌, ◌*ℤ◌, length, get_or};
ghost use Rattle.toolkit.specs.Entries.{Entries};
ghost use Rattle.toolkit.specs.Writes.{Wrote};
ghost use Rattle.method.specs.Four.{directions, sizes};
ghost use Rattle.method.specs.Planes.{weighted_mean, final_round};
ghost use Rattle.method.specs.Sizes.{AtMost, Naturals};
ghost use Rattle.positions.specs.Rings.{place_in_ring, Round};
ghost use Rattle.records.specs.Layout.{record_size, final_part, other_part};
ghost use Rattle.half_rows.specs.Sources.{Sized};
ghost use Rattle.out_rows.specs.Woven.{woven};
ghost use Rattle.out_rows.specs.RowPlaces.{RowOf, Placed};

use frame::BlackLevel;
use half_rows::SiteGradients;
use positions::{Halves, OUT_OFF, Row};

// Where the differences of a row start in work: the final ones, and those of the other colour.
#[derive(Clone, Copy)]
pub struct Differences {
    pub finals: usize,
    pub others: usize,
}

// The halves of a row, and where the numbers start in work that its outputs are formed from.
#[derive(Clone, Copy)]
pub struct Places {
    // the first red or blue column, how many of them the row has, and how many green ones: what `Halves` has, by the names of the definitions
    pub start: usize,
    pub count: usize,
    pub rest: usize,
    // E, from two columns west on, and S of the green sites
    pub east: usize,
    pub south: usize,
    // the differences of the row itself, and of the rows one off
    pub here: Differences,
    pub below: Differences,
    pub above: Differences,
}

// A row with its places.
#[derive(Clone, Copy)]
pub struct PlacedRow {
    pub row: Row,
    pub places: Places,
    ghost placed: { Placed row.shape row.index places },
}

// Where the differences of a row start.
fn differences_of(row: Row) -> Differences
    ensures finals { result.finals ≡ place_in_ring row.index * record_size row.shape.width + final_part row.shape.width }
    ensures others { result.others ≡ place_in_ring row.index * record_size row.shape.width + other_part row.shape.width }
{
    Differences {
        finals: records::final_at(row),
        others: records::other_at(row),
    }
}

// The places of a row, which is the site's own.
#[tactic(auto, using(crate::specs::PlaceLaws::south_record, crate::specs::PlaceLaws::north_record))]
pub fn row_places(row: Row) -> PlacedRow
    requires { (RowOf row.shape row.index) × (Round row.base (row.index - 4) (row.index + 4)) }
    ensures { result.row ≡ row }
{
    let h = row.shape.height;
    let i = row.index;
    let Halves { start, count, rest } = Halves::of(row.shape, i);
    let below = row.at(positions::row_below::<OUT_OFF>(h, i, 1));
    let above = row.at(positions::row_above::<OUT_OFF>(h, i, 1));
    let places = Places {
        start,
        count,
        rest,
        east: records::record_at(row) + (count + 1),
        south: records::south_at(row) + count,
        here: differences_of(row),
        below: differences_of(below),
        above: differences_of(above),
    };
    PlacedRow { row, places }
}

// The samples at the columns c, c + 2, .. of the row that is loaded at entry at.
#[tactic(auto, using(toolkit::specs::Entries::entries_next))]
pub fn samples(rows: &[u16; 98688], at: usize, c: usize, count: usize, dst: &mut [i32; 2064])
    requires { (c ≤ 1) × (count ≤ 2048) × (at + 4112 ≤ 98688) }
    ensures { Entries (pos 0) 2064 4 (count + 4) (λ (x : ℕ). pos (get_or rows.now (at + (c + 2 * (x - 4) + 8)) 0))
        dst.new }
{
    for k in 0..count {
        dst[k + 4] = i32::from(rows[at + (c + 2 * k + 8)]);
    }
}

// The weighted mean of four differences under four gradients.
fn direct_mean(east: i32, west: i32, south: i32, north: i32, g: [i64; 4]) -> i32
    requires at_most { AtMost 4096 (sizes (directions (east ∷ west ∷ south ∷ north ∷ []))) }
    requires naturals { Naturals 40920 g }
    ensures { result ≡ weighted_mean (directions (east ∷ west ∷ south ∷ north ∷ [])) (sizes (directions g)) }
{
    means::lifted_mean(means::values(east, west, south, north), g, 4096) as i32
}

impl Places {
    ghost use Rattle.out_rows.specs.DirectMeans.{own_mean, other_mean, DirectReads};

    // At the green sites of a row the means of the four direct neighbours: of the colour of the row's red or blue sites, and of the other.
    pub fn direct_means(
        self,
        work: &[i32],
        n: &[i32; 2064],
        own: &[i32; 2064],
        other: &[i32; 2064],
        x: &mut [i32; 2064],
        y: &mut [i32; 2064],
    )
        requires direct_reads { DirectReads self work.now n.now own.now other.now }
        ensures entries { Entries (pos 0) 2064 4 (self.rest + 4) (λ (k : ℕ). own_mean self work.now n.now
            own.now (k - 4)) x.new }
        ensures entries_2 { Entries (pos 0) 2064 4 (self.rest + 4) (λ (k : ℕ). other_mean self work.now n.now
            other.now (k - 4)) y.new }
    {
        let start = self.start;
        let below = self.below;
        let above = self.above;
        let gradients = SiteGradients {
            work,
            east: self.east,
            south: self.south,
            north: n,
            count: self.rest,
        };
        for k in 0..self.rest {
            let g = gradients.weights(k);
            let west = k + 4 - start;
            let east = west + 1;
            x[k + 4] = direct_mean(
                own[east],
                own[west],
                work[below.others + k],
                work[above.others + k],
                g,
            );
            y[k + 4] = direct_mean(
                other[east],
                other[west],
                work[below.finals + k],
                work[above.finals + k],
                g,
            );
        }
    }
}

// A colour at green sites: 4·G less its difference, which m holds, as an output.
pub fn green_sites(z: &[i32; 2064], black: BlackLevel, m: &mut [i32; 2064], count: usize)
    requires { (count ≤ 2048) × (Sized 4096 4 (count + 4) z.now) × (Sized 4096 4 (count + 4) m.old) }
    ensures { Entries (pos 0) 2064 4 (count + 4) (λ (x : ℕ). final_round (pos 4 *ℤ get_or z.now x (pos 0) -ℤ get_or
        m.old x (pos 0)) -ℤ pos black.level) m.new }
{
    for k in 4..count + 4 {
        m[k] = site_values::output(4 * z[k] - m[k], black);
    }
}

// Green and the other colour at red and blue sites, from both differences and the samples.
pub fn chroma_sites(
    own: &[i32; 2064],
    other: &[i32; 2064],
    z: &[i32; 2064],
    black: BlackLevel,
    g: &mut [i32; 2064],
    y: &mut [i32; 2064],
    count: usize,
)
    requires count_bound { count ≤ 2048 }
    requires sized { (Sized 4096 4 (count + 4) own.now) × (Sized 4096 4 (count + 4) other.now) × (Sized 4096 4 (count + 4) z.now) }
    ensures entries { Entries (pos 0) 2064 4 (count + 4) (λ (x : ℕ). final_round (get_or own.now x (pos 0) +ℤ pos 4 *ℤ get_or
        z.now x (pos 0)) -ℤ pos black.level) g.new }
    ensures entries_2 { Entries (pos 0) 2064 4 (count + 4) (λ (x : ℕ). final_round (get_or own.now x (pos 0) +ℤ pos 4 *ℤ get_or
        z.now x (pos 0) -ℤ get_or other.now x (pos 0)) -ℤ pos black.level) y.new }
{
    for k in 4..count + 4 {
        let q = own[k] + 4 * z[k];
        let o = other[k];
        g[k] = site_values::output(q, black);
        y[k] = site_values::output(q - o, black);
    }
}

// The measured colour at its sites: the samples, less the black level.
pub fn measured(z: &mut [i32; 2064], black: BlackLevel, count: usize)
    requires { (count ≤ 2048) × (Sized 4096 4 (count + 4) z.old) }
    ensures { Entries (pos 0) 2064 4 (count + 4) (λ (x : ℕ). get_or z.old x (pos 0) -ℤ pos black.level) z.new }
{
    for x in z[4..count + 4].iter_mut() {
        *x -= black.level as i32;
    }
}

// A row of w columns from entry at on: the even ones, and the odd ones.
fn weave_row(even: &[i32; 2064], odd: &[i32; 2064], out: &mut [i32], at: usize, w: usize)
    requires { (2 ≤ w) × (w ≤ 4096) × (at + w ≤ length out.old) }
    ensures { Wrote (pos 0) at w (woven 0 even.now odd.now) out.old out.new }
{
    // by number: of what is written through chunks_exact_mut a proof knows no entry
    for k in 0..w / 2 {
        out[at + 2 * k] = even[k + 4];
        out[at + (2 * k + 1)] = odd[k + 4];
    }
    if w % 2 == 1 {
        out[at + (w - 1)] = even[w / 2 + 4];
    }
}

// A row of w columns: those of c's parity, and the others.
#[tactic(auto, using(crate::specs::Woven::woven_one))]
pub fn weave(x: &[i32; 2064], g: &[i32; 2064], out: &mut [i32], at: usize, c: usize, w: usize)
    requires { (c ≤ 1) × (2 ≤ w) × (w ≤ 4096) × (at + w ≤ length out.old) }
    ensures { Wrote (pos 0) at w (woven c x.now g.now) out.old out.new }
{
    if c == 0 {
        weave_row(x, g, out, at, w);
    } else {
        weave_row(g, x, out, at, w);
    }
}

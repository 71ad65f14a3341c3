// Rows of the mosaic, each between eight reflected columns on each side, in an array of 24 rows of 4,112 entries that is used as a ring.
#![tactic(auto)]

ghost use Rattle.std.specs.Prelude.{◌≡◌, ℕ, ◌+◌, ◌*◌, ◌<◌, ◌≤◌, length, get_or};
ghost use Rattle.toolkit.specs.Writes.{Wrote};
ghost use Rattle.frame.specs.Sites.{frame};
ghost use Rattle.positions.specs.Columns.{column_at};
ghost use Rattle.positions.specs.Taken.{Taken};
ghost use Rattle.positions.specs.Rings.{place_in_ring, Round};
ghost use Rattle.mosaic_rows.specs.LoadedRows.{RowStored, NearRows, near_entry, near_entries};

use frame::Shape;
use positions::FIRST_OFF;
use std::array;

// The loaded rows, and a at their entries. Each is one array and no array of rows: the definitions of specs/ tell the ring as one list. They are
// two arrays, since every loop but that of E reads only one.
#[derive(Drop)]
pub struct LoadedRows {
    pub samples: [u16; 98688],
    pub alongs: [u16; 98688],
}

// The samples of the loaded rows, and the entries where seven of them start, of which a line is formed. No ghost field: what functions ask of
// the samples differs, how many of the rows and of their entries, and one fact for all would ask more of some callers.
#[derive(Clone, Copy)]
pub struct SevenRows<'a> {
    pub samples: &'a [u16; 98688],
    pub at: [usize; 7],
}

// The w samples from entry at on, as the columns of the row at entry to.
fn middle(mosaic: &[u16], at: usize, rows: &mut [u16; 98688], to: usize, w: usize)
    requires w_in_bounds { (at + w ≤ length mosaic.now) × (w ≤ 4096) × (to + 4112 ≤ 98688) }
    ensures { Wrote 0 (to + 8) w (λ (j : ℕ). get_or mosaic.now (at + j) 0) rows.old rows.new }
{
    rows[to + 8..to + 8 + w].copy_from_slice(&mosaic[at..at + w]);
}

// Eight reflected columns on each side of the row at entry to.
fn edges(rows: &mut [u16; 98688], to: usize, w: usize)
    requires le_w { (2 ≤ w) × (w ≤ 4096) × (to + 4112 ≤ 98688) }
    ensures { Wrote 0 to (w + 16) (λ (x : ℕ). get_or rows.old (to + 8 + column_at w x) 0) rows.old rows.new }
{
    for k in 1..9 {
        rows[to + 8 - k] = rows[to + 8 + positions::reflected(w, k)];
        rows[to + w + 7 + k] = rows[to + 8 + positions::reflected(w, w - 1 + k)];
    }
}

// Row i of the mosaic, at entry to.
pub fn load(mosaic: &[u16], shape: Shape, i: usize, rows: &mut [u16; 98688], to: usize)
    requires taken { Taken (frame shape mosaic.now) }
    requires i_lt_height { (i < shape.height) × (to + 4112 ≤ 98688) }
    ensures { RowStored (frame shape mosaic.now) i to rows.old rows.new }
{
    let w = shape.width;
    middle(mosaic, i * w, rows, to, w);
    edges(rows, to, w);
}

// Where row i stands; base is a row at place 0.
#[tactic(auto, using(positions::specs::RingLaws::ring_small))]
pub fn row_at(i: usize, base: usize) -> usize
    requires { (i ≤ 4096) × (Round base i i) }
    ensures { (result ≡ place_in_ring i * 4112) × (result + 4112 ≤ 98688) }
{
    positions::ring_place(i, base) * 4112
}

// Where row x − 4 + p stands, reflected. The gradients of row x − 2 are read for sites at most 10 rows away, so row x lies at most 12 away.
#[tactic(auto, unfolding(crate::specs::LoadedRows::near_entry))]
fn near_row(h: usize, x: usize, p: usize, base: usize) -> usize
    requires le_h { (2 ≤ h) × (h ≤ 4096) × (x ≤ 4098) × (p < 7) }
    requires near_rows { NearRows h x base }
    ensures { result ≡ near_entry h x p }
{
    row_at(positions::row_near::<FIRST_OFF>(h, x, p, 4), base)
}

// Where the rows x − 4 to x + 2 stand, reflected.
pub fn seven_rows(h: usize, x: usize, base: usize) -> [usize; 7]
    requires le_h { (2 ≤ h) × (h ≤ 4096) × (x ≤ 4098) }
    requires near_rows { NearRows h x base }
    ensures { result ≡ near_entries h x }
{
    array::from_fn(|p| near_row(h, x, p, base))
}

// Where the parts of a row's record start in work. The records share 24 places; base is a row at place 0.
#![tactic(auto)]

ghost use Rattle.std.specs.Prelude.{◌≡◌, ◌+◌, ◌*◌, ◌≤◌};
ghost use Rattle.positions.specs.Rings.{place_in_ring};
ghost use Rattle.records.specs.Layout.{record_size, south_part, final_part, other_part};

use positions::Row;

// The record of a row.
#[tactic(auto, using(positions::specs::RingLaws::ring_small))]
pub fn record_at(row: Row) -> usize
    ensures { (result ≡ place_in_ring row.index * record_size row.shape.width) × (result ≤ 393216) }
{
    positions::ring_place(row.index, row.base) * (4 * row.shape.width)
}

// Its parts, each by a name of its own: they start by different formulas, so one function for all would only choose among them.
// Its S.
pub fn south_at(row: Row) -> usize
    ensures { result ≡ place_in_ring row.index * record_size row.shape.width + south_part row.shape.width }
{
    record_at(row) + (row.shape.width + 2)
}

// Its final differences.
pub fn final_at(row: Row) -> usize
    ensures { result ≡ place_in_ring row.index * record_size row.shape.width + final_part row.shape.width }
{
    record_at(row) + (2 * row.shape.width + 2)
}

// Its differences of the other colour.
pub fn other_at(row: Row) -> usize
    ensures { result ≡ place_in_ring row.index * record_size row.shape.width + other_part row.shape.width }
{
    let w = row.shape.width;
    record_at(row) + (2 * w + 2 + (w + 1) / 2)
}

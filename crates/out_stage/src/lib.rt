// The last stage of the sweep: the three numbers of every site of a row, from its samples and both differences of the rows i and one off.
#![tactic(auto)]

ghost use Rattle.std.specs.Prelude.{◌≡◌, List, ℕ, ◌+◌, ◌*◌, ◌≤◌, pos, length};
ghost use Rattle.frame.specs.Sites.{Colour, frame};
ghost use Rattle.positions.specs.Taken.{SomeSamples};
ghost use Rattle.records.specs.Stages.{OutReads};
ghost use Rattle.out_stage.specs.OutRows.{DifferencesFormed, OutputsRead, OutputsFormed, RowStores, PlaneRow, OutLent, OutStores};

use frame::BlackLevel;
use half_rows::Scratch;
use out_rows::PlacedRow;
use positions::Row;

// The half rows of the stage stand in scratch: trials is for the green sites of a row, sums for its red and blue ones. In both, across is of
// the colour that the row has beside green, vertical of the other of red and blue, and diagonal of green. OutRows calls those of trials x, y
// and zg, and those of sums zx, xo and xg.

// Both differences of a row: own and other at its red and blue sites, x and y at its green sites.
#[tactic(auto, using(crate::specs::DirectReads::place_laws, half_rows::specs::SiteGradients::north_room))]
fn row_differences(p: PlacedRow, tops: &[i32; 8224], work: &[i32], scratch: &mut Scratch)
    requires { SomeSamples (λ (zs : List ℕ). OutReads (frame p.row.shape zs) p.row.index p.row.base tops.now work.now) }
    ensures { DifferencesFormed p.row.shape p.row.index p.row.base tops.now work.now
        scratch.new.own scratch.new.other scratch.new.trials.across scratch.new.trials.vertical }
{
    let places = p.places;
    let w = p.row.shape.width;
    let n = &mut scratch.north;
    let own = &mut scratch.own;
    let other = &mut scratch.other;
    let x = &mut scratch.trials.across;
    let y = &mut scratch.trials.vertical;
    half_rows::copy(work, places.here.finals, places.count, own);
    half_rows::copy(work, places.here.others, places.count, other);
    half_rows::mirror(own, w, places.start, 1);
    half_rows::mirror(other, w, places.start, 1);
    half_rows::north(tops, work, p.row, places.count, places.rest, n);
    places.direct_means(work, n, own, other, x, y);
}

// The outputs of a row, whose samples stand from entry at on.
#[tactic(auto, using(crate::specs::DirectReads::place_laws))]
fn row_outputs(
    p: PlacedRow,
    black: BlackLevel,
    samples: &[u16; 98688],
    at: usize,
    scratch: &mut Scratch,
)
    requires some_samples { SomeSamples (λ (zs : List ℕ). OutputsRead (frame p.row.shape zs) p.row.index at samples.now
        scratch.old.own scratch.old.other scratch.old.trials.across scratch.old.trials.vertical) }
    requires at_bound { at + 4112 ≤ 98688 }
    ensures { OutputsFormed p.row.shape black.level p.row.index at samples.now
        scratch.old.own scratch.old.other scratch.old.trials.across scratch.old.trials.vertical
        scratch.new.sums.across scratch.new.trials.diagonal scratch.new.sums.diagonal
        scratch.new.sums.vertical scratch.new.trials.across scratch.new.trials.vertical }
{
    let places = p.places;
    let greens = &mut scratch.trials;
    let chroma = &mut scratch.sums;
    out_rows::samples(samples, at, places.start, places.count, &mut chroma.across);
    out_rows::samples(
        samples,
        at,
        1 - places.start,
        places.rest,
        &mut greens.diagonal,
    );
    out_rows::chroma_sites(
        &scratch.own,
        &scratch.other,
        &chroma.across,
        black,
        &mut chroma.diagonal,
        &mut chroma.vertical,
        places.count,
    );
    out_rows::green_sites(&greens.diagonal, black, &mut greens.across, places.rest);
    out_rows::green_sites(&greens.diagonal, black, &mut greens.vertical, places.rest);
    // last: the others are formed from the samples as they are
    out_rows::measured(&mut chroma.across, black, places.count);
    out_rows::measured(&mut greens.diagonal, black, places.rest);
}

// The outputs of a row, stored to the planes.
#[tactic(auto, using(positions::specs::Places::row_end, positions::specs::HalfRowLaws::chroma_small))]
fn store_outputs(
    p: PlacedRow,
    scratch: &Scratch,
    red: &mut [i32],
    green: &mut [i32],
    blue: &mut [i32],
)
    requires { RowStores p.row.shape p.row.index p.places.start red.old green.old blue.old }
    ensures plane_row { PlaneRow p.row.shape p.row.index Colour.red
        scratch.now.sums.across scratch.now.trials.diagonal scratch.now.sums.diagonal
        scratch.now.sums.vertical scratch.now.trials.across scratch.now.trials.vertical red.old red.new }
    ensures plane_row_2 { PlaneRow p.row.shape p.row.index Colour.green
        scratch.now.sums.across scratch.now.trials.diagonal scratch.now.sums.diagonal
        scratch.now.sums.vertical scratch.now.trials.across scratch.now.trials.vertical green.old green.new }
    ensures plane_row_3 { PlaneRow p.row.shape p.row.index Colour.blue
        scratch.now.sums.across scratch.now.trials.diagonal scratch.now.sums.diagonal
        scratch.now.sums.vertical scratch.now.trials.across scratch.now.trials.vertical blue.old blue.new }
{
    let shape = p.row.shape;
    let i = p.row.index;
    let start = p.places.start;
    let w = shape.width;
    let at = i * w;
    let greens = &scratch.trials;
    let chroma = &scratch.sums;
    out_rows::weave(&chroma.diagonal, &greens.diagonal, green, at, start, w);
    if (i + shape.phase / 2) % 2 == 0 {
        out_rows::weave(&chroma.across, &greens.across, red, at, start, w);
        out_rows::weave(&chroma.vertical, &greens.vertical, blue, at, start, w);
    } else {
        out_rows::weave(&chroma.across, &greens.across, blue, at, start, w);
        out_rows::weave(&chroma.vertical, &greens.vertical, red, at, start, w);
    }
}

// A row of the three planes.
pub fn out_line(
    row: Row,
    black: BlackLevel,
    samples: &[u16; 98688],
    tops: &[i32; 8224],
    work: &[i32],
    red: &mut [i32],
    green: &mut [i32],
    blue: &mut [i32],
    scratch: &mut Scratch,
)
    requires some_samples { SomeSamples (λ (zs : List ℕ). OutLent (frame row.shape zs) row.index row.base samples.now tops.now work.now) }
    requires red_len { (length red.old ≡ row.shape.height * row.shape.width) × (length green.old ≡ row.shape.height * row.shape.width)
        × (length blue.old ≡ row.shape.height * row.shape.width) }
    ensures out_stores { OutStores row.shape black.level row.index row.base Colour.red samples.now tops.now work.now
        red.old red.new }
    ensures out_stores_2 { OutStores row.shape black.level row.index row.base Colour.green samples.now tops.now work.now
        green.old green.new }
    ensures out_stores_3 { OutStores row.shape black.level row.index row.base Colour.blue samples.now tops.now work.now
        blue.old blue.new }
{
    let p = out_rows::row_places(row);
    let at = mosaic_rows::row_at(row.index, row.base);
    row_differences(p, tops, work, scratch);
    row_outputs(p, black, samples, at, scratch);
    store_outputs(p, scratch, red, green, blue);
}

// The first two stages of the sweep: load, a row of the mosaic and its a; first, E, S, r_D, r_V and the codes of a row from the loaded rows.
#![tactic(auto)]

ghost use Rattle.std.specs.Prelude.{◌≡◌, List, ℕ, ◌*◌, ◌<◌, length};
ghost use Rattle.frame.specs.Sites.{frame};
ghost use Rattle.method.specs.Green.{vertical, diagonal};
ghost use Rattle.positions.specs.Taken.{Taken, SomeSamples};
ghost use Rattle.positions.specs.HalfRows.{chroma_start};
ghost use Rattle.records.specs.Layout.{record_size};
ghost use Rattle.mosaic_rows.specs.RingRows.{MosaicLent};
ghost use Rattle.east_rows.specs.EastRows.{EastReads};
ghost use Rattle.first_stage.specs.FirstStage.{LineLoaded, FirstLent, FirstStores, TopsFormed, GradientsFormed, TrialsRead, TrialsStored, CodesFormed};

use east_rows::east_line;
use first_pass::{line_row, trial_row};
use half_rows::{Scratch, SiteGradients, north};
use mosaic_rows::{LoadedRows, SevenRows, seven_rows};
use positions::{Halves, Row};
use south_rows::south_line;

// Row i of the mosaic and its a, to their places in the ring.
pub fn load_line(row: Row, mosaic: &[u16], loaded: &mut LoadedRows)
    requires taken { Taken (frame row.shape mosaic.now) }
    requires i_lt_height { row.index < row.shape.height }
    ensures { LineLoaded (frame row.shape mosaic.now) row.index loaded.old.samples loaded.new.samples
        loaded.old.alongs loaded.new.alongs }
{
    let at = mosaic_rows::row_at(row.index, row.base);
    mosaic_rows::load(mosaic, row.shape, row.index, &mut loaded.samples, at);
    east_rows::along_row(&loaded.samples, at, row.shape.width, &mut loaded.alongs);
}

// N of row i, where no record holds it: of the rows 0 and 1. Of the row's halves it needs the first column alone, and so does the next.
fn top_line(row: Row, samples: &[u16; 98688], tops: &mut [i32; 8224], scratch: &mut Scratch)
    requires some_samples { SomeSamples (λ (zs : List ℕ). MosaicLent (frame row.shape zs) row.index row.base samples.now) }
    ensures tops_formed { TopsFormed row.shape row.index row.base samples.now tops.old tops.new }
{
    let i = row.index;
    if i < 2 {
        let rows = SevenRows {
            samples,
            at: seven_rows(row.shape.height, i, row.base),
        };
        south_line(
            row.shape,
            positions::first_chroma(row.shape.phase, i),
            rows,
            tops,
            i * 4112,
            &mut scratch.pairs,
            &mut scratch.gradients,
        );
    }
}

// E and S of row i to its record, from the rows i − 2 to i + 4.
fn gradient_line(
    row: Row,
    rows: SevenRows<'_>,
    alongs: &[u16; 98688],
    work: &mut [i32],
    scratch: &mut Scratch,
)
    requires some_samples { SomeSamples (λ (zs : List ℕ). EastReads (frame row.shape zs) row.index rows.at rows.samples.now
        alongs.now) }
    requires work_len { length work.old ≡ row.shape.height * record_size row.shape.width }
    ensures gradients_formed { GradientsFormed row.shape row.index rows.entry.at rows.entry.samples.now
        alongs.now work.old work.new }
{
    east_line(row, rows, alongs, work, &mut scratch.gradients);
    south_line(
        row.shape,
        positions::first_chroma(row.shape.phase, row.index),
        rows,
        work,
        records::south_at(row),
        &mut scratch.pairs,
        &mut scratch.gradients,
    );
}

// r_D and r_V of row i to the planes and its codes to the map, from the rows i − 2 to i + 4 and the gradients.
fn trial_line(
    row: Row,
    rows: SevenRows<'_>,
    tops: &[i32; 8224],
    work: &[i32],
    diagonals: &mut [i32],
    verticals: &mut [i32],
    map: &mut [u8],
    scratch: &mut Scratch,
)
    requires some_samples { SomeSamples (λ (zs : List ℕ). TrialsRead (frame row.shape zs) row.index row.base
        (chroma_start row.shape.phase row.index) rows.at rows.samples.now tops.now work.now) }
    requires diagonals_len { (length diagonals.old ≡ row.shape.height * row.shape.width)
        × (length verticals.old ≡ row.shape.height * row.shape.width) × (length map.old ≡ row.shape.height * row.shape.width) }
    ensures trials_stored { TrialsStored row.shape row.index row.base (chroma_start row.shape.phase row.index) diagonal rows.entry.at
        rows.entry.samples.now tops.now work.now diagonals.old diagonals.new }
    ensures trials_stored_2 { TrialsStored row.shape row.index row.base (chroma_start row.shape.phase row.index) vertical rows.entry.at
        rows.entry.samples.now tops.now work.now verticals.old verticals.new }
    ensures codes_formed { CodesFormed row.shape row.index row.base (chroma_start row.shape.phase row.index) rows.entry.at
        rows.entry.samples.now tops.now work.now map.old map.new }
{
    let halves = Halves::of(row.shape, row.index);
    let to = row.index * row.shape.width;
    line_row(rows, halves, &mut scratch.own, &mut scratch.other);
    north(tops, work, row, 0, halves.count, &mut scratch.north);
    let gradients = SiteGradients {
        work,
        east: records::record_at(row),
        south: records::south_at(row),
        north: &scratch.north,
        count: halves.count,
    };
    trial_row(
        gradients,
        &scratch.own,
        &scratch.other,
        to,
        diagonals,
        verticals,
        map,
    );
}

// E, S, r_D, r_V and the codes of row i, and N of a top row.
pub fn first_line(
    row: Row,
    loaded: &LoadedRows,
    tops: &mut [i32; 8224],
    work: &mut [i32],
    diagonals: &mut [i32],
    verticals: &mut [i32],
    map: &mut [u8],
    scratch: &mut Scratch,
)
    requires some_samples { SomeSamples (λ (zs : List ℕ). FirstLent (frame row.shape zs) row.index row.base loaded.now.samples
        loaded.now.alongs tops.old work.old) }
    requires diagonals_len { (length diagonals.old ≡ row.shape.height * row.shape.width)
        × (length verticals.old ≡ row.shape.height * row.shape.width) × (length map.old ≡ row.shape.height * row.shape.width) }
    ensures first_stores { FirstStores row.shape row.index row.base loaded.now.samples loaded.now.alongs
        tops.old tops.new work.old work.new diagonals.old diagonals.new verticals.old verticals.new map.old map.new }
{
    let rows = SevenRows {
        samples: &loaded.samples,
        at: seven_rows(row.shape.height, row.index + 2, row.base),
    };
    top_line(row, &loaded.samples, tops, scratch);
    gradient_line(row, rows, &loaded.alongs, work, scratch);
    trial_line(row, rows, tops, work, diagonals, verticals, map, scratch);
}

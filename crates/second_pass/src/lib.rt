// The second pass: D of the red and blue sites of a row, and the row's entries of the map.
#![tactic(auto)]

ghost use Rattle.std.specs.Prelude.{◌≡◌, List, cond, ℕ, ◌+◌, ◌*◌, ◌≤◌, ltb, eqb, pos, length};
ghost use Rattle.toolkit.specs.Entries.{Entries};
ghost use Rattle.toolkit.specs.Writes.{Wrote};
ghost use Rattle.frame.specs.Sites.{frame};
ghost use Rattle.positions.specs.Taken.{SomeSamples};
ghost use Rattle.positions.specs.HalfRows.{chroma_start, half_count};
ghost use Rattle.records.specs.Stages.{SecondReads, SecondLent, SecondStores};
ghost use Rattle.half_rows.specs.Sources.{Sized};
ghost use Rattle.sums.specs.Sums.{SumsRoom};
ghost use Rattle.second_pass.specs.Picked.{picked, picked_entry, code_entry, map_entry, across_entry, RowsFormed};

use frame::Shape;
use half_rows::{Scratch, ThreeWays};
use positions::Halves;
use sums::TrialPlanes;

// r_H, of which r_D is the mean with r_V.
fn across_row(rd: &[i32; 2064], rv: &[i32; 2064], rh: &mut [i32; 2064], count: usize)
    requires count_bound { count ≤ 2048 }
    requires sized { (Sized 32760 4 (count + 4) rd.now) × (Sized 32760 4 (count + 4) rv.now) }
    ensures { Entries (pos 0) 2064 4 (count + 4) (across_entry rd.now rv.now) rh.new }
{
    for k in 0..count {
        rh[k + 4] = 2 * rd[k + 4] - rv[k + 4];
    }
}

// The half rows of the row: r_H and r_D between reflected entries, and r_V.
fn trial_rows(planes: TrialPlanes<'_>, c: usize, trials: &mut ThreeWays)
    requires some_samples { SomeSamples (λ (zs : List ℕ). SecondReads (frame planes.shape zs) planes.index planes.diagonals.now planes.verticals.now) }
    requires c_value { (c ≡ chroma_start planes.shape.phase planes.index) × (c ≤ 1) × (planes.count ≤ 2048) }
    ensures { RowsFormed planes.entry.shape planes.entry.index planes.entry.diagonals.now planes.entry.verticals.now trials.new.across
        trials.new.vertical trials.new.diagonal }
{
    let w = planes.shape.width;
    let count = planes.count;
    let at = planes.index * w;
    half_rows::copy(planes.diagonals, at, count, &mut trials.diagonal);
    half_rows::copy(planes.verticals, at, count, &mut trials.vertical);
    across_row(
        &trials.diagonal,
        &trials.vertical,
        &mut trials.across,
        count,
    );
    half_rows::mirror(&mut trials.across, w, c, 4);
    half_rows::mirror(&mut trials.diagonal, w, c, 4);
}

// How the least of the three sums resolves a weak site, with the code in the map.
#[derive(Clone, Copy)]
enum Choice {
    Across = 4,
    Down = 5,
    ToMean = 6,
}

// The sums have the steps t from 1 to this one.
const REACH: usize = 3;

// Across or down only if its sum is below both others.
#[tactic(auto, unfolding(crate::specs::Picked::picked))]
fn resolution(fh: i32, fv: i32, fd: i32) -> Choice
    ensures { result ≡ picked fh fv fd Choice.Across Choice.Down Choice.ToMean }
{
    if fh < fv && fh < fd {
        Choice::Across
    } else if fv < fh && fv < fd {
        Choice::Down
    } else {
        Choice::ToMean
    }
}

impl Choice {
    ghost use Rattle.second_pass.specs.Choices.{one_of};

    // The entry of the map.
    fn code(self) -> u8
        ensures { result ≡ one_of self 4 5 6 }
    {
        self as u8
    }

    // x, y or z. Two choices of two, so that a row is resolved side by side: a match of three takes more than twice as long.
    fn taken(self, x: i32, y: i32, z: i32) -> i32
        ensures { result ≡ one_of self x y z }
    {
        let straight = match self {
            Choice::Across => x,
            _ => y,
        };
        match self {
            Choice::ToMean => z,
            _ => straight,
        }
    }
}

// The code of a site: that of the first pass, and where it left the site weak the second's. Formed before the choice, as in `taken`.
// Codes are numbers, since they are entries of the map: it alone holds them between the two passes, and C reads it.
fn resolve(first: u8, second: u8) -> u8
    ensures { result ≡ cond (ltb first 4) first second }
{
    if first < 4 { first } else { second }
}

// The difference that was picked for a site, and the code of how its green was found, a number as the entry of the map is.
#[derive(Drop)]
pub struct Picked {
    pub difference: i32,
    pub code: u8,
}

// Both by one decision, from the first pass's code, the three sums and the three differences.
fn pick(first: u8, fh: i32, fv: i32, fd: i32, x: i32, y: i32, z: i32) -> Picked
    ensures { (result.difference ≡ picked fh fv fd x y z) × (result.code ≡ cond (ltb first 4) first (picked fh fv fd 4 5 6)) }
{
    let choice = resolution(fh, fv, fd);
    Picked {
        difference: choice.taken(x, y, z),
        code: resolve(first, choice.code()),
    }
}

// D of a row, stored from at on, and its codes, from those that the first pass left in the map from at on.
fn second_row(
    trials: &ThreeWays,
    sums: &ThreeWays,
    map: &[u8],
    out: &mut [i32],
    codes: &mut [u8; 2048],
    at: usize,
    count: usize,
)
    requires count_bound { (count ≤ 2048) × (at + count ≤ length out.old)
        × (SumsRoom 524160 count sums.now.across sums.now.vertical sums.now.diagonal) }
    requires map_len { length map.now ≡ length out.old }
    ensures wrote { Wrote (pos 0) at count (λ (k : ℕ). picked_entry trials.now.across trials.now.vertical trials.now.diagonal
        sums.now.across sums.now.vertical sums.now.diagonal (k + 4)) out.old out.new }
    ensures entries { Entries 0 2048 0 count (code_entry sums.now.across sums.now.vertical sums.now.diagonal at map.now)
        codes.new }
{
    for k in 0..count {
        let picked = pick(
            map[at + k],
            2 * sums.across[k + 4],
            2 * sums.vertical[k + 4],
            sums.diagonal[k + 4],
            trials.across[k + 4],
            trials.vertical[k + 4],
            trials.diagonal[k + 4],
        );
        out[at + k] = picked.difference;
        codes[k] = picked.code;
    }
}

// A code where a column has the parity of the red and blue sites, and 0, measured, at a green one.
fn column_code(code: u8, parity: usize, c: usize) -> u8
    ensures { result ≡ cond (eqb parity c) code 0 }
{
    if parity == c { code } else { 0 }
}

// A row of the map, from entry at on: the codes at the columns c, c + 2, .. and 0 at the others. Not by `weave` of out_rows, which joins two
// half rows with room on both sides: here there is one, with none.
fn map_row(codes: &[u8; 2048], map: &mut [u8], at: usize, c: usize, w: usize)
    requires { (w ≤ 4096) × (at + w ≤ length map.old) }
    ensures { Wrote 0 at w (map_entry c codes.now) map.old map.new }
{
    for k in 0..w / 2 {
        let code = codes[k];
        map[at + 2 * k] = column_code(code, 0, c);
        map[at + (2 * k + 1)] = column_code(code, 1, c);
    }
    if w % 2 == 1 {
        map[at + (w - 1)] = column_code(codes[w / 2], 0, c);
    }
}

// The second pass of row i: D, from r_D and r_V of the rows to 8 off, to its row of out; the codes to its row of the map.
pub fn second_line(
    shape: Shape,
    i: usize,
    diagonals: &[i32],
    verticals: &[i32],
    out: &mut [i32],
    map: &mut [u8],
    scratch: &mut Scratch,
)
    requires some_samples { SomeSamples (λ (zs : List ℕ). SecondLent (frame shape zs) i diagonals.now verticals.now map.old) }
    requires out_len { length out.old ≡ shape.height * shape.width }
    ensures second_stores { SecondStores shape i diagonals.now verticals.now out.old out.new
        map.old map.new }
{
    let w = shape.width;
    let Halves { start, count, .. } = Halves::of(shape, i);
    let trials = &mut scratch.trials;
    let sums = &mut scratch.sums;
    let codes = &mut scratch.codes;
    let planes = TrialPlanes {
        diagonals,
        verticals,
        shape,
        index: i,
        count,
    };
    trial_rows(planes, start, trials);
    sums::sum_row(planes, REACH, trials, sums);
    second_row(trials, sums, map, out, codes, i * w, count);
    map_row(codes, map, i * w, start, w);
}

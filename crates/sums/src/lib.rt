// The sums of the second pass, over half rows.
#![tactic(auto)]

ghost use Rattle.std.specs.Prelude.{◌≡◌, List, ℕ, ◌+◌, ◌*◌, ◌-◌, ◌≤◌, pos, nat_abs, ◌+ℤ◌, length};
ghost use Rattle.toolkit.specs.Entries.{Entries};
ghost use Rattle.frame.specs.Sites.{frame};
ghost use Rattle.method.specs.Gradients.{apart};
ghost use Rattle.positions.specs.HalfRows.{chroma_start, half_count};
ghost use Rattle.positions.specs.Taken.{SomeSamples};
ghost use Rattle.half_rows.specs.Sources.{Sized};
ghost use Rattle.sums.specs.Sums.{entries_of, with_columns, with_rows, SumsRead, Widens, Summed, SumsRoom};

use frame::Shape;
use half_rows::ThreeWays;
use positions::SECOND_OFF;

// The planes of r_D and r_V of a frame, a row of it, and how many red and blue sites the row has.
#[derive(Clone, Copy)]
pub struct TrialPlanes<'a> {
    pub diagonals: &'a [i32],
    pub verticals: &'a [i32],
    pub shape: Shape,
    pub index: usize,
    pub count: usize,
    ghost sites: { count ≡ half_count shape.width (chroma_start shape.phase index) },
}

// A sum with the distances of x to y and to z.
fn add_gaps(sum: i32, x: i32, y: i32, z: i32) -> i32
    requires { (nat_abs sum ≤ 1048576) × (nat_abs x ≤ 32760) × (nat_abs y ≤ 32760) × (nat_abs z ≤ 32760) }
    ensures { result ≡ sum +ℤ pos (apart x y) +ℤ pos (apart x z) }
{
    sum + x.abs_diff(y) as i32 + x.abs_diff(z) as i32
}

// Sums of nothing.
fn clear(sums: &mut [i32; 2064], count: usize)
    requires { count ≤ 2048 }
    ensures { Entries (pos 0) 2064 4 (count + 4) (λ (x : ℕ). pos 0) sums.new }
{
    sums[4..count + 4].fill(0);
}

// Adds the distances along the row: to the entries t before and t behind.
fn add_columns(row: &[i32; 2064], t: usize, sums: &mut [i32; 2064], count: usize)
    requires t_bound { (t ≤ 4) × (count ≤ 2048) }
    requires sized { (Sized 32760 0 (count + 8) row.now) × (Sized 1048576 4 (count + 4) sums.old) }
    ensures { Entries (pos 0) 2064 4 (count + 4) (with_columns row.now t (entries_of sums.old)) sums.new }
{
    for k in 0..count {
        sums[k + 4] = add_gaps(sums[k + 4], row[k + 4], row[k + 4 - t], row[k + 4 + t]);
    }
}

// Adds the distances down the column: to the rows of the plane that start at up and at down.
fn add_rows(
    row: &[i32; 2064],
    plane: &[i32],
    up: usize,
    down: usize,
    sums: &mut [i32; 2064],
    count: usize,
)
    requires count_in_bounds { (up + count ≤ length plane.now) × (down + count ≤ length plane.now) × (count ≤ 2048) }
    requires sized { (Sized 32760 4 (count + 4) row.now) × (Sized 32760 up (up + count) plane.now)
        × (Sized 32760 down (down + count) plane.now) × (Sized 1048576 4 (count + 4) sums.old) }
    ensures { Entries (pos 0) 2064 4 (count + 4)
        (with_rows row.now plane.now up down (entries_of sums.old)) sums.new }
{
    for k in 0..count {
        sums[k + 4] = add_gaps(sums[k + 4], row[k + 4], plane[up + k], plane[down + k]);
    }
}

// One step of the three sums: t columns and t rows of the same colour further. What is picked in row i is read at most 4 rows away.
fn add_step(planes: TrialPlanes<'_>, t: usize, trials: &ThreeWays, sums: &mut ThreeWays)
    requires some_samples { SomeSamples (λ (zs : List ℕ). SumsRead (frame planes.shape zs) planes.index planes.diagonals.now planes.verticals.now trials.now.across trials.now.vertical trials.now.diagonal) }
    requires t_bound { (1 ≤ t) × (t ≤ 4) }
    requires sums_room { SumsRoom ((t - 1) * 131040) planes.count sums.old.across sums.old.vertical sums.old.diagonal }
    ensures widens { Widens planes.entry.shape planes.entry.index (t - 1) t planes.entry.diagonals.now planes.entry.verticals.now trials.now.across trials.now.vertical trials.now.diagonal
        sums.old.across sums.old.vertical sums.old.diagonal sums.new.across sums.new.vertical sums.new.diagonal }
    ensures sums_room_2 { SumsRoom (t * 131040) planes.entry.count sums.new.across sums.new.vertical sums.new.diagonal }
{
    let TrialPlanes {
        diagonals,
        verticals,
        shape,
        index,
        count,
    } = planes;
    let up = positions::row_above::<SECOND_OFF>(shape.height, index, 2 * t) * shape.width;
    let down = positions::row_below::<SECOND_OFF>(shape.height, index, 2 * t) * shape.width;
    let across = &mut sums.across;
    let vertical = &mut sums.vertical;
    let diagonal = &mut sums.diagonal;
    add_columns(&trials.across, t, across, count);
    add_rows(&trials.vertical, verticals, up, down, vertical, count);
    add_columns(&trials.diagonal, t, diagonal, count);
    add_rows(&trials.diagonal, diagonals, up, down, diagonal, count);
}

// All steps, from 1 to reach.
fn add_steps(planes: TrialPlanes<'_>, reach: usize, trials: &ThreeWays, sums: &mut ThreeWays)
    requires some_samples { SomeSamples (λ (zs : List ℕ). SumsRead (frame planes.shape zs) planes.index planes.diagonals.now planes.verticals.now trials.now.across trials.now.vertical trials.now.diagonal) }
    requires reach_bound { reach ≤ 4 }
    requires sums_room { SumsRoom 0 planes.count sums.old.across sums.old.vertical sums.old.diagonal }
    ensures widens { Widens planes.entry.shape planes.entry.index 0 reach planes.entry.diagonals.now planes.entry.verticals.now trials.now.across trials.now.vertical trials.now.diagonal
        sums.old.across sums.old.vertical sums.old.diagonal sums.new.across sums.new.vertical sums.new.diagonal }
    ensures sums_room_2 { SumsRoom 524160 planes.entry.count sums.new.across sums.new.vertical sums.new.diagonal }
{
    for t in 1..reach + 1 {
        add_step(planes, t, trials, sums);
    }
}

// The three sums of the red and blue sites of row i: FH and FV are twice the first two. The planes and what is tried stay two parameters: a
// struct of both, with the fact of the clause, would be made for this one call.
pub fn sum_row(planes: TrialPlanes<'_>, reach: usize, trials: &ThreeWays, sums: &mut ThreeWays)
    requires some_samples { SomeSamples (λ (zs : List ℕ). SumsRead (frame planes.shape zs) planes.index planes.diagonals.now planes.verticals.now trials.now.across trials.now.vertical trials.now.diagonal) }
    requires reach_bound { reach ≤ 4 }
    ensures summed { Summed planes.entry.shape planes.entry.index reach planes.entry.diagonals.now planes.entry.verticals.now trials.now.across trials.now.vertical trials.now.diagonal
        sums.new.across sums.new.vertical sums.new.diagonal }
    ensures sums_room { SumsRoom 524160 planes.entry.count sums.new.across sums.new.vertical sums.new.diagonal }
{
    clear(&mut sums.across, planes.count);
    clear(&mut sums.vertical, planes.count);
    clear(&mut sums.diagonal, planes.count);
    add_steps(planes, reach, trials, sums);
}

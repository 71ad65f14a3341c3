// The turns of the stages: at step t a stage works on the row at its own distance behind, where that is a row of the frame.
#![tactic(auto)]

ghost use Rattle.std.specs.Prelude.{◌≡◌, List, ℕ, ◌+◌, ◌*◌, ◌-◌, ◌<◌, ◌≤◌, ◌⊎◌, MatchOption, length};
ghost use Rattle.frame.specs.Sites.{Colour, frame};
ghost use Rattle.positions.specs.Taken.{Taken, SomeSamples};
ghost use Rattle.positions.specs.Rings.{Round};
ghost use Rattle.stage_turns.specs.Distances.{LoadTurned, FirstAsks, FirstTurned, SecondAsks, SecondTurned, EnhanceAsks, EnhanceTurned, DiagonalAsks, DiagonalTurned, OutAsks, OutTurned};

use frame::{BlackLevel, Shape};
use half_rows::Scratch;
use mosaic_rows::LoadedRows;
use positions::Row;

// What is constant for a call, the shape of the frame and the black level; step t of the sweep, and a row at place 0
// of the rings.
#[derive(Clone, Copy)]
pub struct Turn {
    pub shape: Shape,
    pub black: BlackLevel,
    pub t: usize,
    pub base: usize,
}

impl Turn {
    // The index of the row that lies so many rows behind row t, where that is one of the frame's.
    fn index_behind(self, behind: usize) -> Option<usize>
        ensures { MatchOption result ((self.t < behind) ⊎ (self.shape.height + behind ≤ self.t))
            (λ i. (behind ≤ self.t) × (i ≡ self.t - behind) × (i < self.shape.height)) }
    {
        if self.t < behind {
            return None;
        }
        let i = self.t - behind;
        if i < self.shape.height { Some(i) } else { None }
    }

    // That row.
    fn row_behind(self, behind: usize) -> Option<Row>
        requires { (self.shape.width ≤ 4096) × (self.shape.height ≤ 4096) × (Round self.base (self.t - behind) (self.t - behind)) }
        ensures { MatchOption result ((self.t < behind) ⊎ (self.shape.height + behind ≤ self.t))
            (λ row. (behind ≤ self.t) × (row.index ≡ self.t - behind) × (row.index < self.shape.height)
            × (row.shape ≡ self.shape) × (row.base ≡ self.base)) }
    {
        let index = self.index_behind(behind)?;
        let row = Row {
            shape: self.shape,
            index,
            base: self.base,
        };
        Some(row)
    }
}

// Row t of the mosaic, and its a.
pub fn load_turn(turn: Turn, mosaic: &[u16], loaded: &mut LoadedRows)
    requires taken { Taken (frame turn.shape mosaic.now) }
    requires round { Round turn.base turn.t turn.t }
    ensures { LoadTurned (frame turn.shape mosaic.now) turn.t loaded.old.samples loaded.new.samples loaded.old.alongs
        loaded.new.alongs }
{
    if let Some(row) = turn.row_behind(0) {
        first_stage::load_line(row, mosaic, loaded);
    }
}

// E, S, r_D, r_V and the codes of row t − 4.
pub fn first_turn(
    turn: Turn,
    loaded: &LoadedRows,
    tops: &mut [i32; 8224],
    work: &mut [i32],
    red: &mut [i32],
    blue: &mut [i32],
    map: &mut [u8],
    scratch: &mut Scratch,
)
    requires some_samples { SomeSamples (λ (zs : List ℕ). FirstAsks (frame turn.shape zs) turn.t turn.base loaded.now.samples loaded.now.alongs tops.old work.old) }
    requires red_len { (length red.old ≡ turn.shape.height * turn.shape.width) × (length blue.old ≡ turn.shape.height * turn.shape.width)
        × (length map.old ≡ turn.shape.height * turn.shape.width) }
    ensures first_turned { FirstTurned turn.shape turn.t turn.base loaded.now.samples loaded.now.alongs tops.old tops.new
        work.old work.new
        red.old red.new blue.old blue.new map.old map.new }
{
    if let Some(row) = turn.row_behind(4) {
        first_stage::first_line(row, loaded, tops, work, red, blue, map, scratch);
    }
}

// D and the map of row t − 12.
pub fn second_turn(
    turn: Turn,
    red: &[i32],
    blue: &[i32],
    green: &mut [i32],
    map: &mut [u8],
    scratch: &mut Scratch,
)
    requires some_samples { SomeSamples (λ (zs : List ℕ). SecondAsks (frame turn.shape zs) turn.t red.now blue.now map.old) }
    requires green_len { length green.old ≡ turn.shape.height * turn.shape.width }
    ensures second_turned { SecondTurned turn.shape turn.t red.now blue.now green.old green.new
        map.old map.new }
{
    if let Some(i) = turn.index_behind(12) {
        second_pass::second_line(turn.shape, i, red, blue, green, map, scratch);
    }
}

// The final differences of row t − 14.
pub fn enhance_turn(
    turn: Turn,
    tops: &[i32; 8224],
    green: &[i32],
    work: &mut [i32],
    scratch: &mut Scratch,
)
    requires some_samples { SomeSamples (λ (zs : List ℕ). EnhanceAsks (frame turn.shape zs) turn.t turn.base tops.now work.old green.now) }
    ensures enhance_turned { EnhanceTurned turn.shape turn.t turn.base tops.now green.now work.old work.new }
{
    if let Some(row) = turn.row_behind(14) {
        differences::enhance_line(row, tops, green, work, scratch);
    }
}

// The differences of the other colour of row t − 15.
pub fn diagonal_turn(turn: Turn, tops: &[i32; 8224], work: &mut [i32], scratch: &mut Scratch)
    requires some_samples { SomeSamples (λ (zs : List ℕ). DiagonalAsks (frame turn.shape zs) turn.t turn.base tops.now work.old) }
    ensures diagonal_turned { DiagonalTurned turn.shape turn.t turn.base tops.now work.old work.new }
{
    if let Some(row) = turn.row_behind(15) {
        differences::diagonal_line(row, tops, work, scratch);
    }
}

// The three numbers of row t − 20.
pub fn out_turn(
    turn: Turn,
    samples: &[u16; 98688],
    tops: &[i32; 8224],
    work: &[i32],
    red: &mut [i32],
    green: &mut [i32],
    blue: &mut [i32],
    scratch: &mut Scratch,
)
    requires some_samples { SomeSamples (λ (zs : List ℕ). OutAsks (frame turn.shape zs) turn.t turn.base samples.now tops.now work.now) }
    requires red_len { (length red.old ≡ turn.shape.height * turn.shape.width) × (length green.old ≡ turn.shape.height * turn.shape.width)
        × (length blue.old ≡ turn.shape.height * turn.shape.width) }
    ensures out_turned { OutTurned turn.shape turn.black.level turn.t turn.base Colour.red samples.now tops.now work.now red.old
        red.new }
    ensures out_turned_2 { OutTurned turn.shape turn.black.level turn.t turn.base Colour.green samples.now tops.now work.now green.old
        green.new }
    ensures out_turned_3 { OutTurned turn.shape turn.black.level turn.t turn.base Colour.blue samples.now tops.now work.now blue.old
        blue.new }
{
    if let Some(row) = turn.row_behind(20) {
        out_stage::out_line(
            row, turn.black, samples, tops, work, red, green, blue, scratch,
        );
    }
}

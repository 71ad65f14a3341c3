// The sweep over the rows: a step is a turn of each stage.
#![tactic(auto)]

ghost use Rattle.std.specs.Prelude.{◌≡◌, ◌+◌, ◌*◌, ◌-◌, ◌≤◌, length};
ghost use Rattle.frame.specs.Sites.{Colour, frame};
ghost use Rattle.method.specs.Green.{decision_map};
ghost use Rattle.method.specs.Planes.{plane};
ghost use Rattle.positions.specs.Taken.{Taken};
ghost use Rattle.positions.specs.Rings.{Round};
ghost use Rattle.sweep.specs.Loads.{MosaicKept};
ghost use Rattle.sweep.specs.Invariant.{Sweep};

use frame::{BlackLevel, Shape};
use half_rows::{Scratch, ThreeWays};
use mosaic_rows::LoadedRows;
use stage_turns::Turn;

// One step: a turn of each stage.
fn step(
    turn: Turn,
    mosaic: &[u16],
    loaded: &mut LoadedRows,
    tops: &mut [i32; 8224],
    work: &mut [i32],
    red: &mut [i32],
    green: &mut [i32],
    blue: &mut [i32],
    map: &mut [u8],
    scratch: &mut Scratch,
)
    requires sweep { Sweep (frame turn.shape mosaic.now) turn.black.level turn.t turn.t turn.t turn.t turn.t tops.old work.old red.old green.old blue.old map.old }
    requires mosaic_kept { (MosaicKept (frame turn.shape mosaic.now) turn.t loaded.old.samples loaded.old.alongs)
        × (Round turn.base (turn.t - 24) turn.t) }
    ensures sweep_2 { Sweep (frame turn.shape mosaic.now) turn.black.level (turn.t + 1) (turn.t + 1) (turn.t + 1) (turn.t + 1) (turn.t + 1) tops.new
        work.new red.new green.new blue.new map.new }
    ensures mosaic_kept_2 { MosaicKept (frame turn.shape mosaic.now) (turn.t + 1) loaded.new.samples loaded.new.alongs }
{
    stage_turns::load_turn(turn, mosaic, loaded);
    stage_turns::first_turn(turn, loaded, tops, work, red, blue, map, scratch);
    stage_turns::second_turn(turn, red, blue, green, map, scratch);
    stage_turns::enhance_turn(turn, tops, green, work, scratch);
    stage_turns::diagonal_turn(turn, tops, work, scratch);
    stage_turns::out_turn(turn, &loaded.samples, tops, work, red, green, blue, scratch);
}

// All steps, from the first on, with base, a row at place 0 of the rings.
fn steps(
    first: Turn,
    mosaic: &[u16],
    loaded: &mut LoadedRows,
    tops: &mut [i32; 8224],
    work: &mut [i32],
    red: &mut [i32],
    green: &mut [i32],
    blue: &mut [i32],
    map: &mut [u8],
    scratch: &mut Scratch,
)
    requires sweep { Sweep (frame first.shape mosaic.now) first.black.level 0 0 0 0 0 tops.old work.old red.old green.old blue.old map.old }
    requires mosaic_kept { MosaicKept (frame first.shape mosaic.now) 0 loaded.old.samples loaded.old.alongs }
    ensures { (red.new ≡ plane (frame first.shape mosaic.now) first.black.level Colour.red)
        × (green.new ≡ plane (frame first.shape mosaic.now) first.black.level Colour.green)
        × (blue.new ≡ plane (frame first.shape mosaic.now) first.black.level Colour.blue)
        × (map.new ≡ decision_map (frame first.shape mosaic.now)) }
{
    let mut base = 0;
    for t in 0..first.shape.height + 20 {
        let turn = Turn { t, base, ..first };
        step(
            turn, mosaic, loaded, tops, work, red, green, blue, map, scratch,
        );
        base = positions::next_base(t, base);
    }
}

// The planes of a frame at a black level, and its map. The local rows are made once. tops is local and work is lent, so they stay apart: a
// struct of both would hold a mutably lent slice (develop, `run`). tops is one array of two rows of 4,112, which specs/ tell as one list.
pub fn sweep(
    shape: Shape,
    black: BlackLevel,
    mosaic: &[u16],
    red: &mut [i32],
    green: &mut [i32],
    blue: &mut [i32],
    map: &mut [u8],
    work: &mut [i32],
)
    requires taken { Taken (frame shape mosaic.now) }
    requires red_len { (length red.old ≡ shape.height * shape.width) × (length green.old ≡ shape.height * shape.width)
        × (length blue.old ≡ shape.height * shape.width) × (length map.old ≡ shape.height * shape.width)
        × (length work.old ≡ shape.height * (4 * shape.width)) }
    ensures { (red.new ≡ plane (frame shape mosaic.now) black.level Colour.red)
        × (green.new ≡ plane (frame shape mosaic.now) black.level Colour.green)
        × (blue.new ≡ plane (frame shape mosaic.now) black.level Colour.blue)
        × (map.new ≡ decision_map (frame shape mosaic.now)) }
{
    let mut loaded = LoadedRows {
        samples: [0; 98688],
        alongs: [0; 98688],
    };
    let mut scratch = Scratch {
        pairs: [0; 4112],
        gradients: [0; 4112],
        north: [0; 2064],
        own: [0; 2064],
        other: [0; 2064],
        trials: ThreeWays {
            across: [0; 2064],
            vertical: [0; 2064],
            diagonal: [0; 2064],
        },
        sums: ThreeWays {
            across: [0; 2064],
            vertical: [0; 2064],
            diagonal: [0; 2064],
        },
        codes: [0; 2048],
    };
    let mut tops = [0i32; 8224];
    let first = Turn {
        shape,
        black,
        t: 0,
        base: 0,
    };
    steps(
        first,
        mosaic,
        &mut loaded,
        &mut tops,
        work,
        red,
        green,
        blue,
        map,
        &mut scratch,
    );
}

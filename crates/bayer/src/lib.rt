// The published calls under plain names, for Rust, and by bayer_c for C. Each answers every input.
#![tactic(auto)]

ghost use Rattle.frame.specs.Sites.{frame as frame_of};
ghost use Rattle.calls.specs.Buffers.{buffers};
ghost use Rattle.calls.specs.WhatCallsLeave.{ReadLeaves, WriteLeaves, ClampLeaves, CurveLeaves, DevelopLeaves};

use answers::Refusal;
use frame::Shape;

// Reads a frame file into `samples`, which has W·H entries or more; those past W·H stay.
pub fn bayer_read(file: &[u8], samples: &mut [u16]) -> Result<Shape, Refusal>
    ensures { ReadLeaves file.now samples.old result samples.new }
{
    reader::read(file, samples)
}

// Writes a frame into `file`, which has exactly the file's length.
pub fn bayer_write(shape: Shape, mosaic: &[u16], file: &mut [u8]) -> Result<(), Refusal>
    ensures { WriteLeaves (frame_of shape mosaic.now) file.old result file.new }
{
    writer::write(shape, mosaic, file)
}

// Fills `clamped` with the numbers of `plane`, each held to 0..1,023; both have the same length.
pub fn bayer_clamp(plane: &[i32], clamped: &mut [i32]) -> Result<(), Refusal>
    ensures { ClampLeaves plane.now clamped.old result clamped.new }
{
    clamp::clamp(plane, clamped)
}

// Fills `curved` with the numbers of a clamped plane, each through the square-root tone curve; both have the same length.
pub fn bayer_curve(plane: &[i32], curved: &mut [i32]) -> Result<(), Refusal>
    ensures { CurveLeaves plane.now curved.old result curved.new }
{
    curve::curve(plane, curved)
}

// Develops a frame at a black level into three planes and the decision map, of W·H entries each, with a work buffer of 4·W·H entries or
// more, which may hold anything after success.
pub fn bayer_develop(
    shape: Shape,
    black: usize,
    mosaic: &[u16],
    red: &mut [i32],
    green: &mut [i32],
    blue: &mut [i32],
    map: &mut [u8],
    work: &mut [i32],
) -> Result<(), Refusal>
    ensures { DevelopLeaves (frame_of shape mosaic.now) black
        (buffers red.old green.old blue.old map.old work.old) result
        (buffers red.new green.new blue.new map.new work.new) }
{
    develop::develop(shape, black, mosaic, red, green, blue, map, work)
}

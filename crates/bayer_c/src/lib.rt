// The exports for C: bayer's published calls under the same names, each with the same record of what it leaves. C needs
// functions of its own, since a name that C calls belongs to one library alone.
#![tactic(auto)]

ghost use Rattle.std.specs.Prelude.{Err};
ghost use Rattle.frame.specs.Sites.{frame as frame_of};
ghost use Rattle.calls.specs.Buffers.{buffers};
ghost use Rattle.calls.specs.WhatCallsLeave.{ReadLeaves, WriteLeaves, ClampLeaves, CurveLeaves, DevelopLeaves};
ghost use Rattle.bayer_c.specs.Exports.{Exported, ReadExported, Returns, ReturnsByRead};

use answers::{Answer, ReadAnswer, Refusal};
use frame::Shape;

// 0, 0 on success, otherwise the refusal's number and place: numbers, since C reads them.
#[repr(C)]
#[derive(Drop)]
pub struct Returned {
    pub number: usize,
    pub place: usize,
}

// The same, and on success W, H and the phase; 0 for these on a refusal.
#[repr(C)]
#[derive(Drop)]
pub struct ReadReturned {
    pub number: usize,
    pub place: usize,
    pub width: usize,
    pub height: usize,
    pub phase: usize,
}

// Number and place of a refusal.
impl From<Refusal> for Returned {
    ghost from_gives = { λ why r. Exported (Err why) r };

    fn from(why: Refusal) -> Returned {
        Returned {
            number: answers::number_of(why),
            place: answers::place_of(why),
        }
    }
}

impl From<Answer> for Returned {
    ghost from_gives = { Exported };

    fn from(answer: Answer) -> Returned {
        match answer {
            Ok(()) => Returned {
                number: 0,
                place: 0,
            },
            Err(why) => Returned::from(why),
        }
    }
}

impl From<ReadAnswer> for ReadReturned {
    ghost from_gives = { ReadExported };

    fn from(answer: ReadAnswer) -> ReadReturned {
        match answer {
            Ok(shape) => ReadReturned {
                number: 0,
                place: 0,
                width: shape.width,
                height: shape.height,
                phase: shape.phase,
            },
            Err(why) => {
                let refusal = Returned::from(why);
                ReadReturned {
                    number: refusal.number,
                    place: refusal.place,
                    width: 0,
                    height: 0,
                    phase: 0,
                }
            }
        }
    }
}

// Reads a frame file into `samples`, which has W·H entries or more; those past W·H stay.
#[unsafe(no_mangle)]
pub extern "C" fn bayer_read(file: &[u8], samples: &mut [u16]) -> ReadReturned
    ensures { ReturnsByRead (ReadLeaves file.now samples.old) result samples.new }
{
    bayer::bayer_read(file, samples).into()
}

// Writes a frame into `file`, which has exactly the file's length.
#[unsafe(no_mangle)]
pub extern "C" fn bayer_write(shape: Shape, mosaic: &[u16], file: &mut [u8]) -> Returned
    ensures { Returns (WriteLeaves (frame_of shape mosaic.now) file.old) result file.new }
{
    bayer::bayer_write(shape, mosaic, file).into()
}

// Fills `clamped` with the numbers of `plane`, each held to 0..1,023; both have the same length.
#[unsafe(no_mangle)]
pub extern "C" fn bayer_clamp(plane: &[i32], clamped: &mut [i32]) -> Returned
    ensures { Returns (ClampLeaves plane.now clamped.old) result clamped.new }
{
    bayer::bayer_clamp(plane, clamped).into()
}

// Fills `curved` with the numbers of a clamped plane, each through the square-root tone curve; both have the same length.
#[unsafe(no_mangle)]
pub extern "C" fn bayer_curve(plane: &[i32], curved: &mut [i32]) -> Returned
    ensures { Returns (CurveLeaves plane.now curved.old) result curved.new }
{
    bayer::bayer_curve(plane, curved).into()
}

// Develops a frame at a black level into three planes and the decision map, of W·H entries each, with a work buffer of 4·W·H entries or
// more, which may hold anything after success.
#[unsafe(no_mangle)]
pub extern "C" fn bayer_develop(
    shape: Shape,
    black: usize,
    mosaic: &[u16],
    red: &mut [i32],
    green: &mut [i32],
    blue: &mut [i32],
    map: &mut [u8],
    work: &mut [i32],
) -> Returned
    ensures { Returns (DevelopLeaves (frame_of shape mosaic.now) black
        (buffers red.old green.old blue.old map.old work.old)) result
        (buffers red.new green.new blue.new map.new work.new) }
{
    bayer::bayer_develop(shape, black, mosaic, red, green, blue, map, work).into()
}

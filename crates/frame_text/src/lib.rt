// The text that the program prints of a file.
#![tactic(auto)]

ghost use Rattle.std.specs.Prelude.{◌≡◌, [], ◌++◌, ◌+◌, ◌*◌, ◌<◌, ◌≤◌, length};
ghost use Rattle.frame.specs.Sites.{frame as frame_of};
ghost use Rattle.answers.specs.Calls.{develop_answer};
ghost use Rattle.frame_file.specs.Lists.{joined};
ghost use Rattle.frame_file.specs.FrameFile.{reading};
ghost use Rattle.printing.specs.Printing.{black_level, lent, toned, text_of_developed, text_of, printed};
ghost use Rattle.frame_text.specs.PlanesText.{entry_of_clamped, planes_line, text_of_planes, ClampedNumbers};
ghost use Rattle.frame_text.specs.Composes.{ComposesInto};
ghost use Rattle.frame_text.specs.TextLeft.{TextLeft};

use answers::{Answer, Refusal};
use frame::Shape;
use printing::Tone;
use text::{ROOM, Text};

// Three planes of equal length, of rows of so many columns.
#[derive(Clone, Copy)]
struct Planes<'a> {
    width: usize,
    red: &'a [i32],
    green: &'a [i32],
    blue: &'a [i32],
    ghost wide: { 0 < width },
    ghost greens: { length green.now ≡ length red.now },
    ghost blues: { length blue.now ≡ length red.now },
}

// Entry k of a clamped plane.
fn clamped_entry(plane: &[i32], k: usize) -> usize
    requires { k < length plane.now }
    ensures { result ≡ entry_of_clamped plane.now k }
{
    plane[k].unsigned_abs() as usize
}

// The lines of all sites, from the clamped planes.
fn lines(text: &mut Text, planes: Planes<'_>)
    requires { length text.old.bytes
        + length (joined (length planes.red.now) (planes_line planes.width planes.red.now planes.green.now planes.blue.now)) ≤ ROOM }
    ensures { text.new.bytes ≡ text.old.bytes ++ joined (length planes.entry.red.now)
        (planes_line planes.entry.width planes.entry.red.now planes.entry.green.now planes.entry.blue.now) }
{
    for k in 0..planes.red.len() {
        text::site_line(
            text,
            k / planes.width,
            k % planes.width,
            clamped_entry(planes.red, k),
            clamped_entry(planes.green, k),
            clamped_entry(planes.blue, k),
        );
    }
}

// The heading and the lines, in an empty text.
fn planes_text(text: &mut Text, planes: Planes<'_>)
    requires empty { text.old.bytes ≡ [] }
    requires clamped_numbers { (ClampedNumbers planes.red.now) × (ClampedNumbers planes.green.now) × (ClampedNumbers planes.blue.now) }
    requires red_len_bound { length planes.red.now ≤ 1024 }
    ensures { text.new.bytes ≡ text_of_planes planes.entry.width planes.entry.red.now planes.entry.green.now planes.entry.blue.now }
{
    text.push_str("row col red green blue\n");
    lines(text, planes);
}

// Gives the tone to a plane of at most 1,024 numbers.
#[tactic(auto, using(crate::specs::Composing::clamp_allowed, crate::specs::Composing::curve_allowed), unfolding(printing::specs::Printing::toned))]
fn give_tone(plane: &mut [i32], tone: Tone)
    requires { length plane.old ≤ 1024 }
    ensures { plane.new ≡ toned tone plane.old }
{
    let mut clamped = [0; 1024];
    let clamped = &mut clamped[..plane.len()];
    clamp::clamp(plane, clamped).unwrap();
    match tone {
        Tone::Clamped => plane.copy_from_slice(clamped),
        Tone::Curved => curve::curve(clamped, plane).unwrap(),
    }
}

// The text of a frame of at most 1,024 samples, in an empty text: developed at black level 0, given the tone, and printed; or develop's
// refusal, which leaves the text empty.
fn developed_text(text: &mut Text, shape: Shape, mosaic: &[u16], tone: Tone) -> Answer
    requires empty { text.old.bytes ≡ [] }
    requires few { shape.height * shape.width ≤ 1024 }
    ensures { ComposesInto result text.new (text_of_developed tone (frame_of shape mosaic.now)
        (develop_answer (frame_of shape mosaic.now) black_level (lent (frame_of shape mosaic.now)))) }
{
    let count = shape.height * shape.width;
    let mut red = [0; 1024];
    let mut green = [0; 1024];
    let mut blue = [0; 1024];
    let mut map = [0; 1024];
    let mut work = [0; 4096];
    let red = &mut red[..count];
    let green = &mut green[..count];
    let blue = &mut blue[..count];
    develop::develop(
        shape,
        0,
        mosaic,
        red,
        green,
        blue,
        &mut map[..count],
        &mut work[..4 * count],
    )?;
    give_tone(red, tone);
    give_tone(green, tone);
    give_tone(blue, tone);
    let planes = Planes {
        width: shape.width,
        red,
        green,
        blue,
    };
    planes_text(text, planes);
    Ok(())
}

// The text of what read finds in a file, with room for 1,024 samples, in an empty text; or the refusal, which leaves the text empty.
fn file_text(text: &mut Text, file: &[u8], tone: Tone) -> Answer
    requires { text.old.bytes ≡ [] }
    ensures { ComposesInto result text.new (text_of tone (reading file.now 1024)) }
{
    let mut samples = [0; 1024];
    let shape = reader::read(file, &mut samples)?;
    developed_text(text, shape, &samples[..shape.height * shape.width], tone)
}

// Makes of a text the one that the program of a tone prints of a file.
#[tactic(auto, using(crate::specs::Reads::long_printed, crate::specs::Reads::short_printed))]
pub fn compose_to(text: &mut Text, file: &[u8], tone: Tone)
    ensures { text.new.bytes ≡ printed tone file.now }
{
    text.clear();
    if file.len() > 2048 {
        text::refusal_line(text, Refusal::BufferLength);
        return;
    }
    if let Err(why) = file_text(text, file, tone) {
        text::refusal_line(text, why);
    }
}

// The text that the program of a tone prints of a file.
pub fn compose(file: &[u8], tone: Tone) -> Text
    ensures { result.bytes ≡ printed tone file.now }
{
    let mut text = Text::new();
    compose_to(&mut text, file, tone);
    text
}

// Puts that text at the front of a lent buffer, and answers its length. A buffer of less than 25,623 bytes stays as it was, and the
// answer is 0.
#[tactic(auto, using(crate::specs::TextLeft::text_short, crate::specs::TextLeft::text_put))]
pub fn compose_into(file: &[u8], tone: Tone, buffer: &mut [u8]) -> usize
    ensures { TextLeft tone file.now buffer.old buffer.new result }
{
    if buffer.len() < ROOM {
        return 0;
    }
    let mut text = Text::new();
    compose_to(&mut text, file, tone);
    text::lent::bytes(buffer, 0, text.as_str().as_bytes())
}

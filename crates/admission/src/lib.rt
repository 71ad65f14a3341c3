// The tests of a shape, a black level and a mosaic's samples, for the calls that take a frame or read one.
#![tactic(auto)]

ghost use Rattle.std.specs.Prelude.{◌≡◌, ◌*◌, ◌≤◌, length, MatchOption};
ghost use Rattle.frame.specs.Sites.{side_allowed};
ghost use Rattle.answers.specs.Calls.{samples_answer, black_answer, under_answer, no_refusal};
ghost use Rattle.admission.specs.ShapeTest.{shape_allowed, shape_answer, count_answer};
ghost use Rattle.admission.specs.Extremes.{highest_of, lowest_of, FoundOutside};

use answers::{Answer, Refusal};
use frame::Shape;

// Whether a count of rows or columns is from 2 to 4,096.
#[tactic(auto, unfolding(frame::specs::Sites::side_allowed))]
fn side_in_range(n: usize) -> bool
    ensures { result ≡ side_allowed n }
{
    (2..=4096).contains(&n)
}

// W·H.
pub fn sample_count(shape: Shape) -> usize
    requires { (shape.width ≤ 4096) × (shape.height ≤ 4096) }
    ensures { (result ≡ shape.height * shape.width) × (result ≤ 16777216) }
{
    shape.height * shape.width
}

// Numbers 1 and 2.
#[tactic(auto, unfolding(crate::specs::ShapeTest::shape_answer, answers::specs::Calls::in_order, frame::specs::Sites::phase_allowed))]
pub fn test_shape(shape: Shape) -> Answer
    ensures { result ≡ shape_answer shape }
{
    if !side_in_range(shape.width) || !side_in_range(shape.height) {
        return Err(Refusal::Size);
    }
    if shape.phase > 3 {
        return Err(Refusal::Phase);
    }
    Ok(())
}

// Whether W, H and the phase are allowed.
#[tactic(auto, unfolding(crate::specs::ShapeTest::shape_allowed, crate::specs::ShapeTest::shape_answer, answers::specs::Calls::in_order))]
pub fn shape_in_range(shape: Shape) -> bool
    ensures { result ≡ shape_allowed shape }
{
    test_shape(shape).is_ok()
}

// Number 11.
#[tactic(auto, unfolding(answers::specs::Calls::black_answer, answers::specs::Calls::highest_black))]
pub fn test_black(black: usize) -> Answer
    ensures { result ≡ black_answer black }
{
    if black > 255 {
        return Err(Refusal::BlackLevel);
    }
    Ok(())
}

// Number 3, for a shape that passes 1.
#[tactic(auto, unfolding(crate::specs::ShapeTest::count_answer))]
pub fn test_count(shape: Shape, count: usize) -> Answer
    requires { (shape.width ≤ 4096) × (shape.height ≤ 4096) }
    ensures { result ≡ count_answer shape count }
{
    if count != sample_count(shape) {
        return Err(Refusal::MosaicLength);
    }
    Ok(())
}

// The highest sample, None of none.
fn highest(samples: &[u16]) -> Option<u16>
    ensures { MatchOption result (length samples.now ≡ 0) (λ z. z ≡ highest_of samples.now) }
{
    samples.iter().copied().max()
}

// The lowest sample, None of none.
#[tactic(auto, using(crate::specs::Extremes::lowest_found))]
fn lowest(samples: &[u16]) -> Option<u16>
    ensures { MatchOption result (length samples.now ≡ 0) (λ z. z ≡ lowest_of samples.now) }
{
    samples.iter().copied().min()
}

// The position of the first sample below low or above high, None where there is none.
fn first_outside(samples: &[u16], low: usize, high: usize) -> Option<usize>
    ensures { FoundOutside low high samples.now result }
{
    samples
        .iter()
        .position(|&z| usize::from(z) < low || high < usize::from(z))
}

// Number 5. The highest sample is found without a branch; only where it is too high is the first such one looked for.
#[tactic(auto, using(crate::specs::Extremes::none_above, crate::specs::Extremes::found_above, crate::specs::Extremes::all_inside))]
pub fn test_samples(samples: &[u16]) -> Answer
    ensures { result ≡ samples_answer samples.now }
{
    if highest(samples).is_none_or(|z| z <= 1023) {
        return Ok(());
    }
    first_outside(samples, 0, 1023)
        .map(Refusal::Sample)
        .map_or(Ok(()), Err)
}

// Number 12, for a black level that passes 11 and samples that pass 5. The lowest sample is found without a branch; only where it lies too
// far under the black level is the first such one looked for.
#[tactic(auto, using(crate::specs::Extremes::none_under_black, crate::specs::Extremes::found_under, crate::specs::Extremes::inside_of_black))]
pub fn test_under(samples: &[u16], black: usize) -> Answer
    requires { (black ≤ 255) × (samples_answer samples.now ≡ no_refusal) }
    ensures { result ≡ under_answer black samples.now }
{
    if black <= 64 {
        return Ok(());
    }
    let low = black - 64;
    if lowest(samples).is_none_or(|z| low <= usize::from(z)) {
        return Ok(());
    }
    first_outside(samples, low, 1023)
        .map(Refusal::UnderBlack)
        .map_or(Ok(()), Err)
}

// What a call answers: the refusals with their numbers and places, and the lengths that develop is lent.
#![tactic(auto)]

ghost use Rattle.std.specs.Prelude.{◌≡◌};
ghost use Rattle.answers.specs.Calls.{number_and_place};

use frame::Shape;

// Why a call is refused, with its place where it has one.
#[derive(Clone, Copy)]
pub enum Refusal {
    Size,
    Phase,
    MosaicLength,
    BufferLength,
    Sample(usize),
    FileLength,
    Check(usize),
    Header,
    BlockNumber(usize),
    Filler(usize),
    BlackLevel,
    UnderBlack(usize),
    Unclamped(usize),
}

// The lengths of the planes, of the map and of the work buffer that develop is lent.
#[derive(Clone, Copy)]
pub struct Lengths {
    pub red: usize,
    pub green: usize,
    pub blue: usize,
    pub map: usize,
    pub work: usize,
}

// What develop, clamp, curve and write answer.
pub type Answer = Result<(), Refusal>;

// What read answers.
pub type ReadAnswer = Result<Shape, Refusal>;

// The document's number of a refusal.
pub fn number_of(why: Refusal) -> usize
    ensures { result ≡ (number_and_place why).number }
{
    match why {
        Refusal::Size => 1,
        Refusal::Phase => 2,
        Refusal::MosaicLength => 3,
        Refusal::BufferLength => 4,
        Refusal::Sample(_) => 5,
        Refusal::FileLength => 6,
        Refusal::Check(_) => 7,
        Refusal::Header => 8,
        Refusal::BlockNumber(_) => 9,
        Refusal::Filler(_) => 10,
        Refusal::BlackLevel => 11,
        Refusal::UnderBlack(_) => 12,
        Refusal::Unclamped(_) => 13,
    }
}

// The document's place of a refusal.
pub fn place_of(why: Refusal) -> usize
    ensures { result ≡ (number_and_place why).place }
{
    match why {
        Refusal::Sample(position) | Refusal::UnderBlack(position) | Refusal::Unclamped(position) =>
            position,
        Refusal::Check(block) | Refusal::BlockNumber(block) | Refusal::Filler(block) => block,
        _ => 0,
    }
}

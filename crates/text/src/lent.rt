// Text put into a lent buffer, from a position on. Each function answers the position behind what it put there; what stands before and
// behind that stays.
ghost use Rattle.std.specs.Prelude.{[], ◌∷◌, ◌++◌, ◌+◌, ◌≤◌, length};
ghost use Rattle.printing.specs.Printing.{decimal, numbers_line, refusal_text};
ghost use Rattle.text.specs.Put.{Put};

use answers::Refusal;
use itoa::Buffer;

// One byte.
pub fn byte(text: &mut [u8], at: usize, value: u8) -> usize
    requires { at + 1 ≤ length text.old }
    ensures { Put text.old at (value ∷ []) text.new result }
{
    bytes(text, at, &[value])
}

// A string of bytes.
#[tactic(auto, unfolding(frame_file::specs::Lists::put_at))]
pub fn bytes(text: &mut [u8], at: usize, piece: &[u8]) -> usize
    requires { at + length piece.now ≤ length text.old }
    ensures { Put text.old at piece.now text.new result }
{
    let next = at + piece.len();
    text[at..next].copy_from_slice(piece);
    next
}

// A number in decimal digits, the highest first.
#[tactic(auto, using(crate::specs::Digits::decimal_printed))]
pub fn number(text: &mut [u8], at: usize, n: usize) -> usize
    requires { at + length (decimal n) ≤ length text.old }
    ensures { Put text.old at (decimal n) text.new result }
{
    bytes(text, at, Buffer::new().format(n).as_bytes())
}

// A number and one byte behind it.
pub fn number_then(text: &mut [u8], at: usize, n: usize, end: u8) -> usize
    requires { at + (length (decimal n) + 1) ≤ length text.old }
    ensures { Put text.old at (decimal n ++ (end ∷ [])) text.new result }
{
    let next = number(text, at, n);
    byte(text, next, end)
}

// The line of a site: row, column and the three colours.
pub fn site_line(
    text: &mut [u8],
    at: usize,
    row: usize,
    column: usize,
    red: usize,
    green: usize,
    blue: usize,
) -> usize
    requires { at + length (numbers_line (row ∷ column ∷ red ∷ green ∷ blue ∷ [])) ≤ length text.old }
    ensures { Put text.old at (numbers_line (row ∷ column ∷ red ∷ green ∷ blue ∷ [])) text.new result }
{
    let after_row = number_then(text, at, row, b' ');
    let after_column = number_then(text, after_row, column, b' ');
    let after_red = number_then(text, after_column, red, b' ');
    let after_green = number_then(text, after_red, green, b' ');
    number_then(text, after_green, blue, b'\n')
}

// The text of a refusal, at the front of a buffer of 64 bytes or more.
pub fn refusal(text: &mut [u8], why: Refusal) -> usize
    requires { 64 ≤ length text.old }
    ensures { Put text.old 0 (refusal_text why) text.new result }
{
    let after_word = bytes(text, 0, b"refused ");
    let after_number = number_then(text, after_word, answers::number_of(why), b' ');
    number_then(text, after_number, answers::place_of(why), b'\n')
}

// The text that the program prints, put together piece by piece. Not by `write!`, whose contract leaves open whether the text fits.
#![tactic(auto)]

pub mod lent;

ghost use Rattle.std.specs.Prelude.{◌≡◌, [], ◌∷◌, ◌++◌, ◌+◌, ◌≤◌, length};
ghost use Rattle.printing.specs.Printing.{decimal, numbers_line, refusal_text};

use answers::Refusal;
use arrayvec::ArrayString;
use itoa::Buffer;

// The bytes that a text has room for: 23 of the heading, and 25 for each of 1,024 sites.
pub const ROOM: usize = 25623;

// A text, whose bytes lie in the value itself.
pub type Text = ArrayString<ROOM>;

// A number in decimal digits.
#[tactic(auto, using(crate::specs::Digits::decimal_printed))]
pub fn number<const CAP: usize>(text: &mut ArrayString<CAP>, n: usize)
    requires { length text.old.bytes + length (decimal n) ≤ CAP }
    ensures { text.new.bytes ≡ text.old.bytes ++ decimal n }
{
    text.push_str(Buffer::new().format(n));
}

// Numbers with spaces between them, and the end of the line.
fn numbers_line<const CAP: usize>(text: &mut ArrayString<CAP>, numbers: &[usize])
    requires { length text.old.bytes + length (numbers_line numbers.now) ≤ CAP }
    ensures { text.new.bytes ≡ text.old.bytes ++ numbers_line numbers.now }
{
    for (k, n) in numbers.iter().enumerate() {
        if k > 0 {
            text.push_str(" ");
        }
        number(text, *n);
    }
    text.push_str("\n");
}

// The line of a site: row, column and the three colours.
pub fn site_line<const CAP: usize>(
    text: &mut ArrayString<CAP>,
    row: usize,
    column: usize,
    red: usize,
    green: usize,
    blue: usize,
)
    requires { length text.old.bytes + length (numbers_line (row ∷ column ∷ red ∷ green ∷ blue ∷ [])) ≤ CAP }
    ensures { text.new.bytes ≡ text.old.bytes ++ numbers_line (row ∷ column ∷ red ∷ green ∷ blue ∷ []) }
{
    numbers_line(text, &[row, column, red, green, blue]);
}

// The text of a refusal behind a text with room for 64 bytes: the word, number and place.
#[tactic(auto, using(crate::specs::Lines::refusal_line_short), unfolding(printing::specs::Printing::refused_word, printing::specs::Printing::refusal_text))]
pub fn refusal_line<const CAP: usize>(text: &mut ArrayString<CAP>, why: Refusal)
    requires { length text.old.bytes + 64 ≤ CAP }
    ensures { text.new.bytes ≡ text.old.bytes ++ refusal_text why }
{
    text.push_str("refused ");
    numbers_line(text, &[answers::number_of(why), answers::place_of(why)]);
}

// The text of a refusal.
pub fn refusal(why: Refusal) -> Text
    ensures { result.bytes ≡ refusal_text why }
{
    let mut text = Text::new();
    refusal_line(&mut text, why);
    text
}

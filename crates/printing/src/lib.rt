// What a program prints, in specs/. The two programs differ in the tone alone.
#![tactic(auto)]

// What becomes of the numbers of a developed plane before they are printed.
#[derive(Clone, Copy)]
pub enum Tone {
    // held to 0..1,023
    Clamped,
    // then through the square-root tone curve
    Curved,
}

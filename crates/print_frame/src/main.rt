// Prints the frame of the file on standard input, developed and clamped, or why it is refused.
#![tactic(auto)]

use printing::Tone;
use std::io;

fn main(rt: HostRuntime) -> io::Result<()> {
    print_file::print_file(&mut rt.stdin(), &mut io::writer(&rt), Tone::Clamped)
}

// The manual's examples on the comparing call. Each check tells whether the call answers as written there; the program writes a letter
// for each, y or n.
#![tactic(auto)]

use examples::{end_line, tell};
use sizes::Refusal;
use std::io;

fn the_answer_stands_at_the_beginning() -> bool {
    let mut out = [170u8; 322];
    let answer = compare_text::compare_text(b"config 13\n", &mut out);
    answer == Ok(12) && out.starts_with(b"refused 1 1\n") && out[12] == 170
}

fn a_buffer_that_is_too_short_stays() -> bool {
    let mut out = [170u8; 11];
    let answer = compare_text::compare_text(b"config 13\n", &mut out);
    answer == Err(Refusal::Room) && out == [170; 11]
}

fn main(rt: HostRuntime) -> io::Result<()> {
    let mut out = rt.stdout();
    tell(&mut out, the_answer_stands_at_the_beginning())?;
    tell(&mut out, a_buffer_that_is_too_short_stays())?;
    end_line(&mut out)
}

// The comparing program: standard input to standard output.
#![tactic(auto)]

ghost use Rattle.std.specs.Prelude.{IfSome, OnOk};
ghost use Rattle.std.specs.Io.KnownBytes.{Appends};
ghost use Rattle.sets.specs.Text.{compare_text};

use std::io;
use std::io::{Read, Write};

// Writes the answer to all that there is to read. A byte past the largest input is asked for, so that a longer input is refused and not
// cut; a read that fails ends the program with its error, and nothing is answered.
fn answer<R: Read, W: Write>(input: &mut R, output: &mut W) -> io::Result<()>
    ensures { OnOk result (IfSome (R.remaining input.old)
        (λ text. Appends (W.contents output.old) (W.contents output.new) (compare_text text))) }
{
    let mut text = [0u8; 40001];
    let n = examples::read_full(input, &mut text)?;
    let mut out = [0u8; 322];
    let m = compare_text::compare_text(&text[..n], &mut out).unwrap();
    output.write_all(&out[..m])
}

fn main(rt: HostRuntime) -> io::Result<()> {
    answer(&mut rt.stdin(), &mut rt.stdout())
}

// What the programs share: how an input is read; and for those that try our calls, filters to try them on, and the letters that they
// write.
#![tactic(auto)]

ghost use Rattle.std.specs.Prelude.{◌≡◌, ◌≢◌, ◌<◌, ◌≤◌, length, take, IfOk, IfErr, OnOk, IsTrue, ◌↔◌, if◌then◌else◌, codes};
ghost use Rattle.std.specs.Io.KnownBytes.{Appends, Consumes, IsAtEnd};
ghost use Rattle.std.specs.IoError.{error_kind};
ghost use Rattle.examples.specs.Trying.{Tried};

use diff_count::Filter;
use sizes::Refusal;
use std::io;
use std::io::{ErrorKind, Read, Write};

// ---- an input

// Reads until the buffer is full or the input ends, and tells how many bytes stand at its beginning then. A read that a signal
// interrupts is tried again.
#[tactic(auto, using(crate::proofs::Filling::consumes_more, crate::proofs::Filling::consumes_none))]
pub fn read_full<R: Read>(reader: &mut R, buf: &mut [u8]) -> io::Result<usize>
    ensures fits { IfOk result (λ n. n ≤ length buf.new) }
    ensures bytes { IfOk result (λ n. Consumes (R.remaining reader.old) (R.remaining reader.new) (take n buf.new)) }
    ensures end { IfOk result (λ n. n < length buf.new → IsAtEnd (R.remaining reader.new)) }
    ensures retried { IfErr result (λ e. error_kind e ≢ ErrorKind.Interrupted) }
{
    let mut done = 0;
    for _ in 0..u64::MAX {
        if done == buf.len() {
            return Ok(done);
        }
        match reader.read(&mut buf[done..]) {
            Ok(0) => return Ok(done),
            Ok(n) => done += n,
            Err(e) if e.kind() == ErrorKind::Interrupted => {}
            Err(e) => return Err(e),
        }
    }
    Err(ErrorKind::TimedOut.into())
}

// ---- filters

// The empty filter of configuration 7, with the list toggled.
pub fn filter_of(top: &mut [u32], blocks: &mut [u64], list: &[u32]) -> Result<Filter, Refusal>
    ensures { Tried top.old blocks.old list.now result top.new blocks.new }
{
    let f = diff_count::empty(7, top, blocks)?;
    f.toggle(top, blocks, list)
}

// Whether a filter was made, with so many top entries and that boundary.
pub fn is_filter(made: Result<Filter, Refusal>, count: usize, boundary: usize) -> bool
    ensures { IsTrue result ↔ ((f : Filter) × (made ≡ Ok f) × (f.count ≡ count) × (f.boundary ≡ boundary)) }
{
    matches!(made, Ok(f) if f.count == count && f.boundary == boundary)
}

// ---- letters

// Writes y where our calls answered as they should, and n where they did not.
pub fn tell<W: Write>(out: &mut W, right: bool) -> io::Result<()>
    ensures { OnOk result (Appends (W.contents out.old) (W.contents out.new) (if right then codes "y" else codes "n")) }
{
    if right {
        out.write_all(b"y")
    } else {
        out.write_all(b"n")
    }
}

pub fn end_line<W: Write>(out: &mut W) -> io::Result<()>
    ensures { OnOk result (Appends (W.contents out.old) (W.contents out.new) (codes "\n")) }
{
    out.write_all(b"\n")
}

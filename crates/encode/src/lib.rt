// Text put together, piece after piece (01, "The comparing program").
#![tactic(auto)]

ghost use Rattle.std.specs.Prelude.{[], ◌∷◌, ◌++◌, List, ℕ, map, take, ◌≡◌, ◌+◌, ◌*◌, ◌<◌, ◌≤◌, ◌^◌, length};
ghost use Rattle.sets.specs.Text.{fields, hex_digit, space, to_decimal, to_hex};
ghost use Rattle.encode.specs.Pieces.{Puts, PutsAt};

use std::marker::Model;

// A text of at most N bytes.
#[derive(Drop)]
pub struct Text<const N: usize> {
    bytes: [u8; N],
    len: usize,
}

impl<const N: usize> Model for Text<N> {
    ghost Value = { List ℕ };

    ghost view = { λ t. take t.len t.bytes };

    ghost invariant = { λ t. t.len ≤ N };
}

impl<const N: usize> Text<N> {
    pub fn new() -> Self
        ensures { result ≡ [] }
    {
        Text {
            bytes: [0; N],
            len: 0,
        }
    }

    pub fn as_bytes(&self) -> &[u8]
        ensures { result.now ≡ self.now }
    {
        &self.bytes[..self.len]
    }

    pub fn put(&mut self, piece: &[u8])
        requires { length self.old + length piece.now ≤ N }
        ensures { Puts (length piece.now) piece.now self.old self.new }
    {
        self.len = put(&mut self.bytes, self.len, piece);
    }

    // A space and a number in decimal.
    pub fn put_decimal(&mut self, n: u64)
        requires { length self.old + 21 ≤ N }
        ensures { Puts 21 (space ∷ to_decimal n) self.old self.new }
    {
        self.len = put_decimal(&mut self.bytes, self.len, n);
    }

    // A space and a number in 16 hexadecimal digits.
    pub fn put_hex(&mut self, n: u64)
        requires { length self.old + 17 ≤ N }
        ensures { Puts 17 (space ∷ to_hex 16 n) self.old self.new }
    {
        self.len = put_hex(&mut self.bytes, self.len, n);
    }

    // A line: its word, numbers with a space before each, and a newline.
    pub fn put_line(&mut self, word: &[u8], numbers: &[u64])
        requires { length self.old + length word.now + 21 * length numbers.now + 1 ≤ N }
        ensures { Puts (length word.now + 21 * length numbers.now + 1)
            (word.now ++ fields (map to_decimal numbers.now))
            self.old self.new }
    {
        self.len = put_line(&mut self.bytes, self.len, word, numbers);
    }
}

// ---- the same pieces put into any buffer from a place on; the answer is where the next one begins

pub fn put(out: &mut [u8], at: usize, bytes: &[u8]) -> usize
    requires { at + length bytes.now ≤ length out.old }
    ensures { PutsAt (length bytes.now) bytes.now out.old at out.new result }
{
    let end = at + bytes.len();
    out[at..end].copy_from_slice(bytes);
    end
}

// Not by `write!`, whose error here and in `put_hex` would have to be shown not to come.
pub fn put_decimal(out: &mut [u8], at: usize, n: u64) -> usize
    requires { at + 21 ≤ length out.old }
    ensures { PutsAt 21 (space ∷ to_decimal n) out.old at out.new result }
{
    // from the last digit on: how many there are shows at the first
    let mut digits = [0u8; 20];
    let mut i = 19;
    let mut rest = n;
    while 9 < rest {
        digits[i] = hex_digit(rest % 10);
        rest /= 10;
        i -= 1;
    }
    digits[i] = hex_digit(rest);
    let first = put(out, at, b" ");
    put(out, first, &digits[i..])
}

pub fn put_hex(out: &mut [u8], at: usize, n: u64) -> usize
    requires { at + 17 ≤ length out.old }
    ensures { PutsAt 17 (space ∷ to_hex 16 n) out.old at out.new result }
{
    let mut end = put(out, at, b" ");
    for i in 0..16u32 {
        end = put(out, end, &[hex_digit((n >> (60 - 4 * i)) % 16)]);
    }
    end
}

pub fn put_line(out: &mut [u8], at: usize, word: &[u8], numbers: &[u64]) -> usize
    requires { at + length word.now + 21 * length numbers.now + 1 ≤ length out.old }
    ensures { PutsAt (length word.now + 21 * length numbers.now + 1)
        (word.now ++ fields (map to_decimal numbers.now))
        out.old at out.new result }
{
    let mut end = put(out, at, word);
    for &n in numbers {
        end = put_decimal(out, end, n);
    }
    put(out, end, b"\n")
}

fn hex_digit(n: u64) -> u8
    requires { n < 16 }
    ensures { result ≡ hex_digit n }
{
    if n < 10 {
        b'0' + n as u8
    } else {
        b'a' - 10 + n as u8
    }
}

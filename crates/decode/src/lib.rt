// Text taken apart: lines, words, decimals and hex (01, "The comparing program").
#![tactic(auto)]

ghost use Rattle.std.specs.Prelude.{◌≡◌, ◌*◌, ◌<◌, ◌≤◌, IfSome, length};
ghost use Rattle.sets.specs.Sets.{same};
ghost use Rattle.sets.specs.Text.{all, decimal as Text·decimal, is_digit};
ghost use Rattle.decode.specs.Parts.{Finds, Hexed, Starts, hex_value, number_in, spelled};

// ---- lines and words

// The first place where a byte stands.
pub fn find(s: &[u8], mark: u8) -> Option<usize>
    ensures { Finds mark s.now result }
{
    s.iter().position(|b| *b == mark)
}

// Whether a text begins with a word. One call of std, with the clause by which the program's lines are judged; `equals` likewise.
pub fn starts_with(s: &[u8], word: &[u8]) -> bool
    ensures { Starts word.now s.now result }
{
    s.starts_with(word)
}

// Whether a text is that word and nothing more.
pub fn equals(s: &[u8], word: &[u8]) -> bool
    ensures { result ≡ same s.now word.now }
{
    s == word
}

// ---- digits

// What a hexadecimal digit stands for.
fn value(b: u8) -> Option<u8>
    ensures is { result ≡ hex_value b }
    ensures small { IfSome result (λ d. d < 16) }
{
    match b {
        b'0'..=b'9' => Some(b - b'0'),
        b'a'..=b'f' => Some(b - b'a' + 10),
        _ => None,
    }
}

pub fn all_digits(s: &[u8]) -> bool
    ensures { result ≡ all is_digit s.now }
{
    s.iter().all(|b| b.is_ascii_digit())
}

// The number that digits spell, where it is below 2^64.
fn digits(s: &[u8]) -> Option<u64>
    ensures { result ≡ number_in (spelled s.now) }
{
    let mut number = 0u64;
    for &b in s {
        if !b.is_ascii_digit() {
            return None;
        }
        number = number.checked_mul(10)?.checked_add(u64::from(b - b'0'))?;
    }
    Some(number)
}

// A decimal below 2^64, with no sign and no leading zero but `0` itself.
pub fn decimal(s: &[u8]) -> Option<u64>
    ensures { result ≡ number_in (Text·decimal s.now) }
{
    match s {
        [] | [b'0', _, ..] => None,
        _ => digits(s),
    }
}

// The bytes that pairs of hexadecimal digits spell, at the beginning of `to`.
pub fn from_hex(s: &[u8], to: &mut [u8]) -> Option<usize>
    requires { length s.now ≤ 2 * length to.old }
    ensures { Hexed s.now result to.new }
{
    if s.len() % 2 != 0 {
        return None;
    }
    // By index: of cells that were lent by `iter_mut` the check does not know what stands in them afterwards.
    for i in 0..s.len() / 2 {
        to[i] = 16 * value(s[2 * i])? + value(s[2 * i + 1])?;
    }
    Some(s.len() / 2)
}

// The comparing program on slices: the bytes of an input to the bytes of the answer (01, "The comparing program").
#![tactic(auto)]

ghost use Rattle.std.specs.Prelude.{◌≡◌, ◌+◌, ◌<◌, ◌≤◌, IfOk, MatchResult, length};
ghost use Rattle.sets.specs.Configurations.{config_at};
ghost use Rattle.sets.specs.Refusals.{filter_lent, is_mask, taken, verdict};
ghost use Rattle.sets.specs.Text.{compare_text, cut, cut_at, judged_masked, judged_rows, judged_second, largest_input, newline, printed, whole};
ghost use Rattle.encode.specs.Pieces.{Puts};
ghost use Rattle.diff_count.specs.Calls.{shown_by};
ghost use Rattle.diff_count.specs.Making.{record_in};
ghost use Rattle.lines.specs.Lines.{mask_in};
ghost use Rattle.compare_text.specs.Answers.{Areas, Compares, counts_text, order_text, malformed_at, on_line, outer_text, spelled};

use diff_count::Filter;
use encode::Text;
use figures::Figures;
use lines::Mask;
use sizes::Refusal;
use std::cmp::Ordering;

// The bytes of the longest input that is judged.
const LARGEST_INPUT: usize = 40000;

// No answer has more bytes.
const LONGEST_ANSWER: usize = 322;

// A refusal, and the line of the input that it is of.
#[derive(Clone, Copy)]
pub struct RefusedAt {
    pub refusal: Refusal,
    pub line: u64,
}

// ---- the input, line by line

// What a line is judged to be. A refusal is of that line.
fn on_line<T>(line: u64, judged: Result<T, Refusal>) -> Result<T, RefusedAt>
    ensures { result ≡ on_line line judged }
{
    judged.map_err(|refusal| RefusedAt { refusal, line })
}

// The line that the input begins with, and what follows its newline.
fn cut_line(line: u64, input: &[u8]) -> Result<(&[u8], &[u8]), RefusedAt>
    ensures cases { MatchResult result
        (λ p. cut_at newline input.now ≡ cut p.0.now p.1.now)
        (λ r. (cut_at newline input.now ≡ whole) × (r ≡ malformed_at line)) }
    ensures lengths { IfOk result (λ p. length p.0.now + length p.1.now < length input.now) }
{
    let end = on_line(line, decode::find(input, b'\n').ok_or(Refusal::TextForm))?;
    Ok((&input[..end], &input[end + 1..]))
}

// After the first row: the second row's line, and nothing behind it.
// `Areas` stays a clause here and below: a type for the program's two configurations would be taken off at every call on filters.
fn second_row(
    m: Mask,
    f: Filter,
    top: &[u32],
    blocks: &[u64],
    input: &[u8],
) -> Result<Figures, RefusedAt>
    requires input_len_bound { (length input.now ≤ largest_input) × Areas f.config }
    requires blocks_value { (verdict (filter_lent (record_in f) top.now blocks.now) ≡ taken) × (verdict (is_mask m.mask m.size) ≡ taken) }
    ensures { spelled result ≡ printed (judged_second (config_at f.config) (mask_in m)
        (shown_by f top.now blocks.now) input.now) }
{
    let (line, rest) = cut_line(4, input)?;
    let mut top2 = [0u32; 64];
    let mut blocks2 = [0u64; 1040];
    let g = on_line(4, lines::row_line(f.config, line, &mut top2, &mut blocks2))?;
    if !rest.is_empty() {
        return Err(RefusedAt {
            refusal: Refusal::TextForm,
            line: 5,
        });
    }
    Ok(figures::figures_of(f, top, blocks, g, &top2, &blocks2, m.mask, m.size))
}

// After the mask: the first row's line.
fn first_row(config: u64, m: Mask, input: &[u8]) -> Result<Figures, RefusedAt>
    requires { (length input.now ≤ largest_input) × Areas config × (verdict (is_mask m.mask m.size) ≡ taken) }
    ensures { spelled result ≡ printed (judged_rows (config_at config) (mask_in m) input.now) }
{
    let (line, rest) = cut_line(3, input)?;
    let mut top = [0u32; 64];
    let mut blocks = [0u64; 1040];
    let f = on_line(3, lines::row_line(config, line, &mut top, &mut blocks))?;
    second_row(m, f, &top, &blocks, rest)
}

// After the configuration: the mask's line.
fn masked_rows(config: u64, input: &[u8]) -> Result<Figures, RefusedAt>
    requires { (length input.now ≤ largest_input) × Areas config }
    ensures { spelled result ≡ printed (judged_masked (config_at config) input.now) }
{
    let (line, rest) = cut_line(2, input)?;
    let m = on_line(2, lines::mask_line(line))?;
    first_row(config, m, rest)
}

fn judged_input(input: &[u8]) -> Result<Figures, RefusedAt>
    ensures { spelled result ≡ compare_text input.now }
{
    if LARGEST_INPUT < input.len() {
        return Err(RefusedAt {
            refusal: Refusal::TextForm,
            line: 0,
        });
    }
    let (line, rest) = cut_line(1, input)?;
    let config = on_line(1, lines::config_line(line))?;
    masked_rows(config, rest)
}

// ---- the answer

// The lines `config`, `ones`, `limited` and `difference`.
fn put_counts(text: &mut Text<LONGEST_ANSWER>, x: Figures)
    requires { length text.old + 241 ≤ 322 }
    ensures { Puts 241 (counts_text x) text.old text.new }
{
    let a = x.first.limited;
    let b = x.second.limited;
    let d = x.between.limited;
    text.put_line(b"config", &[x.config]);
    text.put_line(b"ones", &[x.first.ones as u64, x.second.ones as u64]);
    text.put_line(
        b"limited",
        &[
            a.count as u64,
            a.bound as u64,
            b.count as u64,
            b.bound as u64,
        ],
    );
    text.put_line(
        b"difference",
        &[x.between.difference as u64, d.count as u64, d.bound as u64],
    );
}

// The line `order`.
fn put_order(text: &mut Text<LONGEST_ANSWER>, order: Ordering)
    requires { length text.old + 14 ≤ 322 }
    ensures { Puts 14 (order_text order) text.old text.new }
{
    match order {
        Ordering::Less => text.put(b"order less\n"),
        Ordering::Equal => text.put(b"order equal\n"),
        Ordering::Greater => text.put(b"order greater\n"),
    }
}

// The lines `order`, `key` and `overlap`.
fn put_outer(text: &mut Text<LONGEST_ANSWER>, x: Figures)
    requires { length text.old + 81 ≤ 322 }
    ensures { Puts 81 (outer_text x) text.old text.new }
{
    put_order(text, x.between.order);
    text.put(b"key");
    text.put_hex(x.first.key);
    text.put_hex(x.second.key);
    text.put(b"\n");
    text.put_line(b"overlap", &[x.overlap as u64]);
}

fn put_judged(judged: Result<Figures, RefusedAt>) -> Text<LONGEST_ANSWER>
    ensures { result ≡ spelled judged }
{
    let mut text = Text::new();
    match judged {
        Ok(x) => {
            put_counts(&mut text, x);
            put_outer(&mut text, x);
        }
        Err(r) => text.put_line(b"refused", &[u64::from(r.refusal.number()), r.line]),
    }
    text
}

// The answer to an input, at the buffer's beginning.
pub fn compare_text(input: &[u8], out: &mut [u8]) -> Result<usize, Refusal>
    ensures { Compares input.now out.old result out.new }
{
    let text = put_judged(judged_input(input));
    let answer = text.as_bytes();
    let n = answer.len();
    if out.len() < n {
        return Err(Refusal::Room);
    }
    out[..n].copy_from_slice(answer);
    Ok(n)
}

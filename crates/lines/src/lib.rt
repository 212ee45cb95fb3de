// The lines that the comparing program reads, each judged by itself, text first (01, "The comparing program").
#![tactic(auto)]

ghost use Rattle.std.specs.Prelude.{◌≡◌, ◌≤◌, length};
ghost use Rattle.sets.specs.Refusals.{areas_lent, taken, verdict};
ghost use Rattle.sets.specs.Text.{config_line, cut_at, judged_mask, largest_input, mask_line, numbered as Text·numbered, space, two_decimals};
ghost use Rattle.lines.specs.Lines.{ReadsLine, config_told, mask_told};

use diff_count::Filter;
use sizes::Refusal;

// What `config` alone means.
const BARE_CONFIG: u64 = 7;

#[derive(Clone, Copy)]
pub struct Mask {
    pub mask: u64,
    pub size: usize,
}

// What follows `config `: the program's own two configurations, or one or two other digits.
fn numbered(digits: &[u8]) -> Result<u64, Refusal>
    ensures { config_told result ≡ Text·numbered digits.now }
{
    if digits.len() != 1 && digits.len() != 2 {
        return Err(Refusal::TextForm);
    }
    if !decode::all_digits(digits) {
        return Err(Refusal::TextForm);
    }
    if decode::equals(digits, b"7") {
        return Ok(7);
    }
    if decode::equals(digits, b"10") {
        return Ok(10);
    }
    Err(Refusal::Configuration)
}

pub fn config_line(line: &[u8]) -> Result<u64, Refusal>
    ensures { config_told result ≡ config_line line.now }
{
    if decode::equals(line, b"config") {
        return Ok(BARE_CONFIG);
    }
    if !decode::starts_with(line, b"config ") {
        return Err(Refusal::TextForm);
    }
    numbered(&line[7..])
}

// What follows `mask `: two decimals with a space between them.
fn two_decimals(text: &[u8]) -> Result<Mask, Refusal>
    ensures { mask_told result ≡ two_decimals (cut_at space text.now) }
{
    let end = decode::find(text, b' ').ok_or(Refusal::TextForm)?;
    let mask = decode::decimal(&text[..end]).ok_or(Refusal::TextForm)?;
    let size = decode::decimal(&text[end + 1..]).ok_or(Refusal::TextForm)?;
    judged_mask(mask, size as usize)
}

fn judged_mask(mask: u64, size: usize) -> Result<Mask, Refusal>
    ensures { mask_told result ≡ judged_mask mask size }
{
    judge::mask(mask, size)?;
    Ok(Mask { mask, size })
}

pub fn mask_line(line: &[u8]) -> Result<Mask, Refusal>
    ensures { mask_told result ≡ mask_line line.now }
{
    if !decode::starts_with(line, b"mask ") {
        return Err(Refusal::TextForm);
    }
    two_decimals(&line[5..])
}

// The filter of the set whose row the line gives.
pub fn row_line(
    config: u64,
    line: &[u8],
    top: &mut [u32],
    blocks: &mut [u64],
) -> Result<Filter, Refusal>
    requires line_len_bound { length line.now ≤ largest_input }
    requires blocks_value { verdict (areas_lent config (length top.old) (length blocks.old)) ≡ taken }
    ensures { ReadsLine config line.now top.old blocks.old
        result top.new blocks.new }
{
    // half of the largest input
    let mut row = [0u8; 20000];
    let n = decode::from_hex(line, &mut row).ok_or(Refusal::TextForm)?;
    rows::read(config, &row[..n], top, blocks)
}

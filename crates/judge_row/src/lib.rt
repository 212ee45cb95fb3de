// The tests by which the calls on rows refuse, in document 01's order. None writes to what it is lent.
#![tactic(auto)]

ghost use Rattle.std.specs.Prelude.{◌≡◌, ◌||◌, ℕ, ◌+◌, ◌-◌, ◌*◌, ◌/◌, ◌^◌, ◌≤◌, ◌<◌, eqb, length, get_or, drop};
ghost use Rattle.sets.specs.Sets.{all_below, members, onward};
ghost use Rattle.sets.specs.Words.{held};
ghost use Rattle.sets.specs.Configurations.{blocks_for, config_at};
ghost use Rattle.sets.specs.Row.{length_fits, lowest, nowhere, numbers, rising, spare_byte};
ghost use Rattle.sizes.specs.Sizes.{refusal, sizes_at};
ghost use Rattle.bitchunks.specs.Rows.{edge_in, entries, layout_of, width_bytes};
ghost use Rattle.judge_row.specs.Judging.{NextDigit, cause_of, entry_fault, fault_of, placed, row_of};

use bitchunks::{Layout, Width};
use sizes::{Refusal, Sizes};

// What the first of the tests 2 and 5 that a row fails found, and the place of its byte.
#[derive(Clone, Copy)]
enum RowFault {
    Range,
    Fall(usize),
    BlockCount(usize),
    Spare(usize),
    High(usize),
}

// The place is not told.
impl From<RowFault> for Refusal {
    ghost from_gives = { λ fault r. r ≡ refusal (cause_of fault) };

    fn from(fault: RowFault) -> Refusal {
        match fault {
            RowFault::Range => Refusal::Range,
            RowFault::Fall(_) => Refusal::NoSet,
            RowFault::BlockCount(_) => Refusal::NoSet,
            RowFault::Spare(_) => Refusal::NoSet,
            RowFault::High(_) => Refusal::NoSet,
        }
    }
}

// ---- 2, 5: the entries
// Three functions ask that the row has the layout's entries: this ties two values, and a type for the pair is longer than the clause.

// Whether every entry is below the limit.
fn entries_fit(row: &[u8], layout: Layout, limit: usize) -> bool
    requires { layout.count * width_bytes layout.width ≤ length row.now }
    ensures { result ≡ all_below limit (entries layout row.now) }
{
    for i in 0..layout.count {
        if bitchunks::row_entry(row, layout.width, i) >= limit {
            return false;
        }
    }
    true
}

// The place of the first entry that is not below the one before, the first of all below the limit. With none every entry is below
// the limit.
fn fall_place(row: &[u8], layout: Layout, limit: usize) -> Option<usize>
    requires { layout.count * width_bytes layout.width ≤ length row.now }
    ensures { result ≡ placed (rising (width_bytes layout.width) 0 limit (entries layout row.now)) }
{
    let mut last = limit;
    for i in 0..layout.count {
        let bucket = bitchunks::row_entry(row, layout.width, i);
        if bucket >= last {
            return Some(i * layout.width.bytes());
        }
        last = bucket;
    }
    None
}

// ---- 5: the bit part

// The smallest of m entries, 0 where the row has fewer.
fn boundary_of(row: &[u8], layout: Layout, m: usize) -> usize
    requires { (layout.count * width_bytes layout.width ≤ length row.now) × (1 ≤ m) }
    ensures { result ≡ edge_in layout m row.now }
{
    if layout.count < m {
        return 0;
    }
    bitchunks::row_entry(row, layout.width, m - 1)
}

// Whether the spare byte, which stands at this place, is the boundary's; no boundary, no spare byte.
fn spare_fits(row: &[u8], place: usize, boundary: usize) -> bool
    requires { 0 < boundary → place < length row.now }
    ensures { result ≡ (eqb boundary 0 || eqb (get_or row.now place 0) (spare_byte boundary)) }
{
    if boundary == 0 {
        return true;
    }
    row[place] == bitvec::unoccupied_bits(boundary)
}

// The lowest place above this one that is set in a block.
fn lowest_above(block: u64, bit: usize) -> usize
    requires { (bit < 64) × (2 ≤ block / 2 ^ bit) }
    ensures { NextDigit block bit result }
{
    bit + 1 + (block >> bit >> 1).trailing_zeros() as usize
}

// The place of the byte that has the lowest bit at or above the boundary, in the blocks for it, which begin at the place `at`. Only
// the last of them can have one.
fn high_place(row: &[u8], at: usize, n: usize, boundary: usize) -> Option<usize>
    requires { (n ≡ blocks_for boundary) × (8 * n ≤ length row.now - at) × (boundary ≤ 2 ^ 32) }
    ensures { result ≡ placed (lowest at (members (onward boundary (held (numbers 8 n (drop at row.now)))) (64 * n))) }
{
    if boundary == 0 {
        return None;
    }
    let start = at + 8 * (n - 1);
    let last = unaligned::read::<8>(row, start);
    let bit = (boundary - 1) % 64;
    if last >> bit < 2 {
        return None;
    }
    Some(start + lowest_above(last, bit) / 8)
}

// ---- by a line of the table

// A line of the table of configurations, with its number.
#[derive(Clone, Copy)]
struct Line {
    config: u64,
    sizes: Sizes,
    ghost listed: { sizes ≡ sizes_at config },
}

impl Line {
    // 4: whether a row may be so long: some whole entries, no more than the top list has; or all of them, the spare byte and whole
    // blocks.
    fn length_fits(self, row: &[u8]) -> bool
        ensures { result ≡ length_fits (config_at self.config) row.now }
    {
        let s = self.sizes;
        let len = row.len();
        let end = s.top * s.entry;
        if s.longest < len {
            return false;
        }
        if len <= end {
            return len % s.entry == 0;
        }
        end + 9 <= len && (len - (end + 1)) % 8 == 0
    }

    // Where the parts of a row stand.
    fn layout_of(self, row: &[u8]) -> Layout
        ensures { result ≡ layout_of (config_at self.config) row.now }
    {
        let s = self.sizes;
        let at = s.top * s.entry + 1;
        Layout {
            width: Width::of(s.entry),
            count: s.top.min(row.len() / s.entry),
            at,
            first: 0,
            n: row.len().saturating_sub(at) / 8,
        }
    }

    // The fault of a row whose entries fall.
    fn bit_fault(self, row: &[u8], layout: Layout) -> Result<(), RowFault>
        requires measured { layout ≡ layout_of (config_at self.config) row.now }
        requires row_value { entry_fault self.sizes layout row.now ≡ nowhere }
        ensures { result ≡ fault_of (config_at self.config) row.now }
    {
        let boundary = boundary_of(row, layout, self.sizes.top);
        let place = layout.at - 1;
        if layout.n != bitvec::num_blocks(boundary) {
            return Err(RowFault::BlockCount(place));
        }
        if !spare_fits(row, place, boundary) {
            return Err(RowFault::Spare(place));
        }
        match high_place(row, layout.at, layout.n, boundary) {
            Some(p) => Err(RowFault::High(p)),
            None => Ok(()),
        }
    }

    // The fault of a row that may be so long. Entries that do not fall may be out of range, which goes before.
    fn fault_of(self, row: &[u8], layout: Layout) -> Result<(), RowFault>
        requires measured { layout ≡ layout_of (config_at self.config) row.now }
        ensures { result ≡ fault_of (config_at self.config) row.now }
    {
        match fall_place(row, layout, self.sizes.buckets) {
            Some(p) => {
                if !entries_fit(row, layout, self.sizes.buckets) {
                    return Err(RowFault::Range);
                }
                Err(RowFault::Fall(p))
            }
            None => self.bit_fault(row, layout),
        }
    }
}

// ---- a row

// 1, 4, 2, 5
pub fn row(config: u64, row: &[u8]) -> Result<(Sizes, Layout), Refusal>
    ensures { result ≡ row_of config row.now }
{
    let sizes = sizes::sizes_of(config)?;
    let line = Line { config, sizes };
    if !line.length_fits(row) {
        return Err(Refusal::RowLength);
    }
    let layout = line.layout_of(row);
    line.fault_of(row, layout)?;
    Ok((sizes, layout))
}

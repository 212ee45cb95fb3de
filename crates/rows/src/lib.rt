// Rows: a filter's bytes (writing and reading of diff_count.rs).
#![tactic(auto)]

ghost use Rattle.std.specs.Prelude.{◌≡◌, cond, ◌+◌, ◌*◌, ◌^◌, ◌<◌, ◌≤◌, eqb, length};
ghost use Rattle.std.proofs.lemmas.List.Edits.{sets};
ghost use Rattle.sets.specs.Sets.{Below};
ghost use Rattle.sets.specs.Configurations.{blocks_for};
ghost use Rattle.sets.specs.Filter.{filled};
ghost use Rattle.sets.specs.Row.{bytes, bytes_of};
ghost use Rattle.bitvec.specs.Parts.{Becomes, Room};
ghost use Rattle.bitchunks.specs.Rows.{entries, width_bytes};
ghost use Rattle.rows.specs.Calls.{Reads, Writes, open_of};
ghost use Rattle.rows.specs.Inner.{Readable, set_in};

use bitchunks::{Layout, Width};
use bitvec::Tally;
use diff_count::Filter;
use sizes::Refusal;

// ---- a row's bytes

// The length of a row: so many entries of a width, and a bit part where the boundary is above 0.
fn row_len(count: usize, width: Width, boundary: usize) -> usize
    requires { (count * width_bytes width ≤ 2 ^ 32) × (boundary ≤ 2 ^ 32) }
    ensures { result ≡ count * width_bytes width + cond (eqb boundary 0) 0 (1 + 8 * blocks_for boundary) }
{
    let entries = count * width.bytes();
    if boundary == 0 {
        return entries;
    }
    entries + 1 + 8 * bitvec::num_blocks(boundary)
}

// The entry at a place.
fn write_entry(to: &mut [u8], width: Width, place: usize, bucket: u32)
    requires { (place * width_bytes width + width_bytes width ≤ length to.old) × (bucket < 2 ^ (8 * width_bytes width)) }
    ensures { to.new ≡ sets to.old (place * width_bytes width) (bytes (width_bytes width) bucket) }
{
    match width {
        Width::Two => unaligned::write::<2>(to, 2 * place, bucket as u64),
        Width::Four => unaligned::write::<4>(to, 4 * place, bucket as u64),
    }
}

// Top entries, one after the other.
fn write_entries(to: &mut [u8], width: Width, top: &[u32])
    requires { (length top.now * width_bytes width ≤ length to.old) × Below (2 ^ (8 * width_bytes width)) top.now }
    ensures { to.new ≡ sets to.old 0 (bytes_of (width_bytes width) top.now) }
{
    for (i, &bucket) in top.iter().enumerate() {
        write_entry(to, width, i, bucket);
    }
}

// The entries at the beginning of a row, in the first top cells. That the row has them stays a clause, as in crates/judge_row.
fn read_entries(top: &mut [u32], row: &[u8], layout: Layout)
    requires { (layout.count * width_bytes layout.width ≤ length row.now) × (layout.count ≤ length top.old) }
    ensures { top.new ≡ filled (entries layout row.now) layout.count top.old }
{
    for (i, cell) in top[..layout.count].iter_mut().enumerate() {
        *cell = bitchunks::row_entry(row, layout.width, i) as u32;
    }
}

// The filter of the set that has the row, in its two areas.
// `Room` stays a clause: document 01 lends the two areas apart.
fn fill(
    top: &mut [u32],
    blocks: &mut [u64],
    row: &[u8],
    layout: Layout,
    m: usize,
    k: usize,
) -> Tally
    requires room { Room m k top.old blocks.old }
    requires readable { Readable layout m k row.now }
    ensures { Becomes m k (set_in layout m row.now)
        top.old blocks.old top.new blocks.new result.count result.boundary }
{
    read_entries(top, row, layout);
    top[layout.count..m].fill(0);
    let last = m - 1;
    let boundary = buckets::into_usize(top[last]);
    bitvec::from_bytes(blocks, row, layout.at, layout.n);
    blocks[layout.n..k].fill(0);
    Tally {
        count: layout.count,
        boundary,
    }
}

// ---- the calls

// The row of a filter, at the buffer's beginning.
pub fn write(f: Filter, top: &[u32], blocks: &[u64], to: &mut [u8]) -> Result<usize, Refusal>
    ensures { Writes f top.now blocks.now to.old result to.new }
{
    let s = diff_count::filter_lent(f, top, blocks)?;
    let width = Width::of(s.entry);
    let len = row_len(f.count, width, f.boundary);
    if to.len() < len {
        return Err(Refusal::Room);
    }
    write_entries(to, width, &top[..f.count]);
    Ok(bitvec::write(to, f.count * s.entry, blocks, f.boundary))
}

// The filter of the set that has the row.
pub fn read(config: u64, row: &[u8], top: &mut [u32], blocks: &mut [u64]) -> Result<Filter, Refusal>
    ensures { Reads config row.now top.old blocks.old result top.new blocks.new }
{
    let s = judge::areas(config, top.len(), blocks.len())?;
    let (_, layout) = judge_row::row(config, row)?;
    let tally = fill(top, blocks, row, layout, s.top, s.blocks);
    Ok(Filter::of(config, tally))
}

// Judges a row, and tells how many buckets the set has.
pub fn open(config: u64, row: &[u8]) -> Result<usize, Refusal>
    ensures { result ≡ open_of config row.now }
{
    let (_, layout) = judge_row::row(config, row)?;
    let low = bitvec::count_ones_in_bytes(row, layout.at, layout.n);
    Ok(layout.count + low)
}

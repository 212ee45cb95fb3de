// The filter: a record by value beside two lent areas (diff_count.rs).
#![tactic(auto)]

ghost use Rattle.std.specs.Prelude.{◌≡◌, true, ◌*◌, ◌^◌, ◌≤◌, length, take};
ghost use Rattle.sets.specs.Sets.{Below, apart};
ghost use Rattle.sets.specs.Filter.{is_filter};
ghost use Rattle.bitvec.specs.Parts.{Becomes, Room};
ghost use Rattle.judge.specs.Judging.{filter_of, record_at};
ghost use Rattle.diff_count.specs.Making.{BitsApart, BitsBelow, Flipped, Led, UpTo, filter_in, filters_of, shown_of, tally_of};
ghost use Rattle.diff_count.specs.Calls.{Empties, Toggles, Differs};

use bitvec::Tally;
use sizes::{Refusal, Sizes};

#[derive(Clone, Copy, PartialEq, Eq)]
pub struct Filter {
    pub config: u64,
    // the entries of the top list
    pub count: usize,
    pub boundary: usize,
}

impl From<Filter> for Tally {
    ghost from_gives = { λ f t. t ≡ tally_of f };

    fn from(f: Filter) -> Tally {
        Tally {
            count: f.count,
            boundary: f.boundary,
        }
    }
}

// How many blocks there are up to those of the buckets listed; `least` at least.
fn blocks_up_to(list: &[u32], least: usize) -> usize
    ensures { UpTo list.now least result }
{
    let mut most = least;
    for &bucket in list {
        most = most.max(buckets::into_index(buckets::into_usize(bucket)) + 1);
    }
    most
}

// The same of a list in which none is above the first.
fn blocks_up_to_first(list: &[u32], least: usize) -> usize
    requires { Led list.now }
    ensures { UpTo list.now least result }
{
    if list.is_empty() {
        return least;
    }
    blocks_up_to(&list[..1], least)
}

// Flips the buckets listed in the filter that stands in the areas: in the blocks, with its whole set folded into them.
// `Room` stays a clause: document 01 lends the two areas apart.
fn flip_and_split(
    top: &mut [u32],
    blocks: &mut [u64],
    tally: Tally,
    m: usize,
    k: usize,
    list: &[u32],
) -> Tally
    requires room { Room m k top.old blocks.old }
    requires boundary_value { is_filter m k top.old blocks.old tally.count tally.boundary ≡ true }
    requires below { Below (64 * k) list.now }
    ensures { Flipped m k list.now tally top.old blocks.old
        result top.new blocks.new }
{
    let count = tally.count;
    let n = blocks_up_to(list, blocks_up_to_first(&top[..count], 0));
    bitvec::fold(top, count, blocks, k);
    bitvec::toggle_all(blocks, list);
    bitvec::split(top, blocks, m, k, n)
}

// Flips the buckets listed in the filter that stands in the areas. Below the boundary that is a matter of the bits alone.
// `Room` stays a clause: document 01 lends the two areas apart.
fn flip_all(
    top: &mut [u32],
    blocks: &mut [u64],
    tally: Tally,
    m: usize,
    k: usize,
    list: &[u32],
) -> Tally
    requires room { Room m k top.old blocks.old }
    requires boundary_value { is_filter m k top.old blocks.old tally.count tally.boundary ≡ true }
    requires below { Below (64 * k) list.now }
    ensures { Flipped m k list.now tally top.old blocks.old
        result top.new blocks.new }
{
    if judge::all_below(list, tally.boundary) {
        bitvec::toggle_all(blocks, list);
        return tally;
    }
    flip_and_split(top, blocks, tally, m, k, list)
}

// The symmetric difference of two bitmaps, in the first k blocks of a third. Neither holds a bucket at or above its boundary, so the
// blocks above both are not read. k is the area's size: the promise tells that the blocks past it stay.
fn xor_bits(
    to_blocks: &mut [u64],
    k: usize,
    blocks: &[u64],
    boundary: usize,
    blocks2: &[u64],
    boundary2: usize,
)
    requires k_in_bounds { (k ≤ length to_blocks.old) × (64 * k ≤ 2 ^ 32) }
    requires bits_below { BitsBelow k boundary blocks.now }
    requires bits_below_2 { BitsBelow k boundary2 blocks2.now }
    ensures { BitsApart k blocks.now blocks2.now to_blocks.old to_blocks.new }
{
    let n = bitvec::num_blocks(boundary.max(boundary2));
    bitvec::xor(&mut to_blocks[..n], &blocks[..n], &blocks2[..n]);
    to_blocks[n..k].fill(0);
}

// The symmetric difference of two filters, in a third pair of areas.
// `Room` stays a clause: document 01 lends the two areas apart.
fn xor(
    to_top: &mut [u32],
    to_blocks: &mut [u64],
    m: usize,
    k: usize,
    top: &[u32],
    blocks: &[u64],
    tally: Tally,
    top2: &[u32],
    blocks2: &[u64],
    tally2: Tally,
) -> Tally
    requires room { Room m k to_top.old to_blocks.old }
    requires boundary_value { is_filter m k top.now blocks.now tally.count tally.boundary ≡ true }
    requires boundary_value_2 { is_filter m k top2.now blocks2.now tally2.count tally2.boundary ≡ true }
    ensures { Becomes m k
        (apart (shown_of tally top.now blocks.now)
        (shown_of tally2 top2.now blocks2.now))
        to_top.old to_blocks.old to_top.new to_blocks.new
        result.count result.boundary }
{
    let count = tally.count;
    let count2 = tally2.count;
    let n = blocks_up_to_first(&top2[..count2], blocks_up_to_first(&top[..count], 0));
    xor_bits(
        to_blocks,
        k,
        blocks,
        tally.boundary,
        blocks2,
        tally2.boundary,
    );
    bitvec::toggle_all(to_blocks, &top[..count]);
    bitvec::toggle_all(to_blocks, &top2[..count2]);
    bitvec::split(to_top, to_blocks, m, k, n)
}

// ---- what a call is lent

// 1, 3, 8: the sizes, where a filter was lent.
pub fn filter_lent(f: Filter, top: &[u32], blocks: &[u64]) -> Result<Sizes, Refusal>
    ensures { result ≡ filter_of f.config (tally_of f) top.now blocks.now }
{
    judge::filter(f.config, Tally::from(f), top, blocks)
}

// 1, 3, 8, 9: the sizes, where two filters of one configuration were lent. They are judged as if there were a third pair of areas as
// long as the first's: asking the same again changes nothing.
pub fn filters_lent(
    a: Filter,
    top: &[u32],
    blocks: &[u64],
    b: Filter,
    top2: &[u32],
    blocks2: &[u64],
) -> Result<Sizes, Refusal>
    ensures { result ≡ filters_of a top.now blocks.now b top2.now blocks2.now }
{
    judge::two_filters(
        a.config,
        Tally::from(a),
        top,
        blocks,
        b.config,
        Tally::from(b),
        top2,
        blocks2,
        top.len(),
        blocks.len(),
    )
}

// ---- the calls

// The empty filter.
pub fn empty(config: u64, top: &mut [u32], blocks: &mut [u64]) -> Result<Filter, Refusal>
    ensures { Empties config top.old blocks.old result top.new blocks.new }
{
    let s = judge::areas(config, top.len(), blocks.len())?;
    top[..s.top].fill(0);
    blocks[..s.blocks].fill(0);
    Ok(Filter {
        config,
        count: 0,
        boundary: 0,
    })
}

impl Filter {
    // The record of a filter of a configuration.
    pub fn of(config: u64, tally: Tally) -> Filter
        ensures { result ≡ filter_in (record_at config tally) }
    {
        Filter {
            config,
            count: tally.count,
            boundary: tally.boundary,
        }
    }

    // The membership of each bucket listed flips, once for each time that it is listed.
    pub fn toggle(
        self,
        top: &mut [u32],
        blocks: &mut [u64],
        list: &[u32],
    ) -> Result<Filter, Refusal>
        ensures { Toggles self top.old blocks.old list.now
            result top.new blocks.new }
    {
        let tally = Tally::from(self);
        let s = judge::filter(self.config, tally, top, blocks)?;
        if !judge::all_below(list, s.buckets) {
            return Err(Refusal::Range);
        }
        let next = flip_all(top, blocks, tally, s.top, s.blocks, list);
        Ok(Filter::of(self.config, next))
    }
}

// The symmetric difference of two filters, in a third pair of areas.
pub fn symmetric_difference(
    a: Filter,
    top: &[u32],
    blocks: &[u64],
    b: Filter,
    top2: &[u32],
    blocks2: &[u64],
    to_top: &mut [u32],
    to_blocks: &mut [u64],
) -> Result<Filter, Refusal>
    ensures { Differs a top.now blocks.now b top2.now blocks2.now
        to_top.old to_blocks.old result to_top.new to_blocks.new }
{
    let tally = Tally::from(a);
    let tally2 = Tally::from(b);
    let s = judge::two_filters(
        a.config,
        tally,
        top,
        blocks,
        b.config,
        tally2,
        top2,
        blocks2,
        to_top.len(),
        to_blocks.len(),
    )?;
    let third = xor(
        to_top, to_blocks, s.top, s.blocks, top, blocks, tally, top2, blocks2, tally2,
    );
    Ok(Filter::of(a.config, third))
}

// The figures of two filters that the comparing program prints (01, "The comparing program").
#![tactic(auto)]

ghost use Rattle.std.specs.Prelude.{◌≡◌, ◌+◌, ◌^◌, ◌≤◌};
ghost use Rattle.sets.specs.Configurations.{config_at};
ghost use Rattle.sets.specs.Refusals.{filter_lent, is_mask, taken, verdict};
ghost use Rattle.sets.specs.Text.{overlap as Text·overlap};
ghost use Rattle.diff_count.specs.Calls.{shown_by};
ghost use Rattle.diff_count.specs.Making.{record_in};
ghost use Rattle.masked.specs.Calls.{cmp_verdict};
ghost use Rattle.figures.specs.Figures.{figures_of, pair_of, single_of};

use bitchunks::Limited;
use diff_count::Filter;
use std::cmp::Ordering;

#[derive(Clone, Copy)]
pub struct Single {
    pub ones: usize,
    pub limited: Limited,
    pub key: u64,
}

#[derive(Clone, Copy)]
pub struct Pair {
    pub difference: usize,
    pub limited: Limited,
    pub order: Ordering,
}

#[derive(Clone, Copy)]
pub struct Figures {
    pub config: u64,
    pub first: Single,
    pub second: Single,
    pub between: Pair,
    pub overlap: usize,
}

// ---- the figures. Of filters that were judged no call is refused

fn single_for(f: Filter, top: &[u32], blocks: &[u64], mask: u64, size: usize) -> Single
    requires filter { verdict (filter_lent (record_in f) top.now blocks.now) ≡ taken }
    requires mask { verdict (is_mask mask size) ≡ taken }
    ensures { result ≡ single_of (config_at f.config) mask size (shown_by f top.now blocks.now) }
{
    Single {
        ones: counts::exact_count(f, top, blocks).unwrap(),
        limited: counts::limited_count(f, top, blocks).unwrap(),
        key: masked::masked_sort_key(f, top, blocks, mask, size).unwrap(),
    }
}

fn pair_for(
    f: Filter,
    top: &[u32],
    blocks: &[u64],
    g: Filter,
    top2: &[u32],
    blocks2: &[u64],
    mask: u64,
    size: usize,
) -> Pair
    requires { cmp_verdict f top.now blocks.now g top2.now blocks2.now mask size ≡ taken }
    ensures { result ≡ pair_of (config_at f.config) mask size
        (shown_by f top.now blocks.now) (shown_by g top2.now blocks2.now) }
{
    Pair {
        difference: counts::exact_difference(f, top, blocks, g, top2, blocks2).unwrap(),
        limited: counts::limited_difference(f, top, blocks, g, top2, blocks2).unwrap(),
        order: masked::cmp_masked(f, top, blocks, g, top2, blocks2, mask, size).unwrap(),
    }
}

// What two sets of a and b buckets have in common, in thousandths, where d are in exactly one.
pub fn overlap(a: usize, b: usize, d: usize) -> usize
    requires { (a ≤ 2 ^ 32) × (b ≤ 2 ^ 32) × (d ≤ a + b) }
    ensures { result ≡ Text·overlap a b d }
{
    let all = a + b;
    if all == 0 {
        return 0;
    }
    (all - d) * 1000 / all
}

// The figures of two filters of one configuration, under a mask.
pub fn figures_of(
    f: Filter,
    top: &[u32],
    blocks: &[u64],
    g: Filter,
    top2: &[u32],
    blocks2: &[u64],
    mask: u64,
    size: usize,
) -> Figures
    requires { cmp_verdict f top.now blocks.now g top2.now blocks2.now mask size ≡ taken }
    ensures { result ≡ figures_of (config_at f.config) mask size
        (shown_by f top.now blocks.now) (shown_by g top2.now blocks2.now) }
{
    let first = single_for(f, top, blocks, mask, size);
    let second = single_for(g, top2, blocks2, mask, size);
    let between = pair_for(f, top, blocks, g, top2, blocks2, mask, size);
    Figures {
        config: f.config,
        first,
        second,
        between,
        overlap: overlap(first.ones, second.ones, between.difference),
    }
}

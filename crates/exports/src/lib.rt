// The face for C and Rust: each public call under a C name. A number stands for itself, a slice is a pointer and a length, and a
// record is a lent array of cells. Each answers 0, or the number of the refusal, which leaves every cell as it was.
// include/zamgulekt.h fixes names and parameters, so what belongs together is lent in parts.
#![tactic(auto)]

ghost use Rattle.std.specs.Prelude.{◌≡◌, [], ◌∷◌};
ghost use Rattle.sizes.specs.Sizes.{sizes_of};
ghost use Rattle.diff_count.specs.Calls.{Empties, Toggles, Differs};
ghost use Rattle.builder.specs.Calls.{News, Pushes, Finishes, raised};
ghost use Rattle.counts.specs.Counting.{exact_of, limited_of, exact_difference_of, limited_difference_of};
ghost use Rattle.masked.specs.Calls.{cmp_of, key_for};
ghost use Rattle.rows.specs.Calls.{Reads, Writes, open_of};
ghost use Rattle.row_order.specs.Calls.{cmp_rows_of, greater_of};
ghost use Rattle.row_reader.specs.Reading.{step_answer, step_place};
ghost use Rattle.compare_text.specs.Answers.{Compares};
ghost use Rattle.exports.specs.Told.{Tells, told, gives, builder_in, filter_in, builder_cells, filter_cells, limited_cells, sizes_cells};
ghost use Rattle.exports.specs.Told.{greater_cell, number_cell, order_cell, step_cells, stepped_cells};
ghost use Rattle.exports.specs.Calls.{MakesBuilder, MakesFilter, Steps, Wraps, row_named};

use bitchunks::Limited;
use builder::Builder;
use diff_count::Filter;
use sizes::{Refusal, Sizes};
use std::cmp::Ordering;

// How many cells each record has. A field that joins a record later makes it longer.
const SIZES: usize = 9;

const FILTER: usize = 3;

const BUILDER: usize = 3;

const LIMITED: usize = 2;

const READER: usize = 2;

const STEP: usize = 2;

const STEPPED: usize = 3;

// ---- values in cells

// No `From`: both of its sides would be other crates' types.
fn filter_in(cells: &[u64; FILTER]) -> Filter
    ensures { result ≡ filter_in cells.now }
{
    let [config, count, boundary] = *cells;
    Filter {
        config,
        count: count as usize,
        boundary: boundary as usize,
    }
}

fn builder_in(cells: &[u64; BUILDER]) -> Builder
    ensures { result ≡ builder_in cells.now }
{
    let [config, split, count] = *cells;
    Builder {
        config,
        split: split as usize,
        count: count as usize,
    }
}

// A value as a program in C sees it: in one cell, or in an array of them.
trait Cells<C> {
    ghost cells: { Self → C };

    fn cells(self) -> C
        ensures { result ≡ cells self };
}

impl Cells<[u64; FILTER]> for Filter {
    ghost cells = { filter_cells };

    fn cells(self) -> [u64; FILTER] {
        [self.config, self.count as u64, self.boundary as u64]
    }
}

impl Cells<[u64; BUILDER]> for Builder {
    ghost cells = { builder_cells };

    fn cells(self) -> [u64; BUILDER] {
        [self.config, self.split as u64, self.count as u64]
    }
}

impl Cells<[u64; SIZES]> for Sizes {
    ghost cells = { sizes_cells };

    fn cells(self) -> [u64; SIZES] {
        [
            self.level as u64,
            self.top as u64,
            self.entry as u64,
            self.budget as u64,
            self.buckets as u64,
            self.blocks as u64,
            self.bits as u64,
            self.window as u64,
            self.longest as u64,
        ]
    }
}

impl Cells<[u64; LIMITED]> for Limited {
    ghost cells = { limited_cells };

    fn cells(self) -> [u64; LIMITED] {
        [self.count as u64, self.bound as u64]
    }
}

impl Cells<u64> for usize {
    ghost cells = { number_cell };

    fn cells(self) -> u64 {
        self as u64
    }
}

impl Cells<u64> for u64 {
    ghost cells = { number_cell };

    fn cells(self) -> u64 {
        self
    }
}

impl Cells<u64> for Ordering {
    ghost cells = { order_cell };

    fn cells(self) -> u64 {
        match self {
            Ordering::Less => 0,
            Ordering::Equal => 1,
            Ordering::Greater => 2,
        }
    }
}

impl Cells<[u64; STEP]> for Option<u32> {
    ghost cells = { step_cells };

    fn cells(self) -> [u64; STEP] {
        match self {
            Some(p) => [1, p as u64],
            None => [0, 0],
        }
    }
}

// A step's bucket, and the place after it.
impl Cells<[u64; STEPPED]> for (Option<u32>, usize) {
    ghost cells = { λ x. stepped_cells x.1 x.0 };

    fn cells(self) -> [u64; STEPPED] {
        let (given, place) = self;
        let [told, bucket] = given.cells();
        [told, bucket, place as u64]
    }
}

// What an answer tells: its values to the cells, and 0; or its number.
fn put<C: Copy, T: Cells<C>>(to: &mut C, answer: Result<T, Refusal>) -> u8
    ensures { Tells (told T.cells answer) to.old result to.new }
{
    match answer {
        Ok(x) => {
            *to = x.cells();
            0
        }
        Err(r) => r.number(),
    }
}

// ---- the calls. Each has a C name of its own, so those of one form are not one function

#[unsafe(no_mangle)]
pub extern "C" fn zamgulekt_sizes_of(config: u64, sizes: &mut [u64; SIZES]) -> u8
    ensures { Tells (told sizes_cells (sizes_of config)) sizes.old result sizes.new }
{
    put(sizes, sizes::sizes_of(config))
}

#[unsafe(no_mangle)]
pub extern "C" fn zamgulekt_empty(
    config: u64,
    record: &mut [u64; FILTER],
    top: &mut [u32],
    blocks: &mut [u64],
) -> u8
    ensures { MakesFilter
        (λ answer. Empties config top.old blocks.old answer top.new blocks.new)
        «record».old result «record».new }
{
    put(record, diff_count::empty(config, top, blocks))
}

#[unsafe(no_mangle)]
pub extern "C" fn zamgulekt_toggle(
    record: &mut [u64; FILTER],
    top: &mut [u32],
    blocks: &mut [u64],
    list: &[u32],
) -> u8
    ensures { MakesFilter
        (λ answer. Toggles (filter_in «record».old) top.old blocks.old list.now
        answer top.new blocks.new)
        «record».old result «record».new }
{
    let f = filter_in(record);
    put(record, f.toggle(top, blocks, list))
}

#[unsafe(no_mangle)]
pub extern "C" fn zamgulekt_symmetric_difference(
    a: &[u64; FILTER],
    top: &[u32],
    blocks: &[u64],
    b: &[u64; FILTER],
    top2: &[u32],
    blocks2: &[u64],
    to: &mut [u64; FILTER],
    to_top: &mut [u32],
    to_blocks: &mut [u64],
) -> u8
    ensures { MakesFilter
        (λ answer. Differs (filter_in a.now) top.now blocks.now
        (filter_in b.now) top2.now blocks2.now
        to_top.old to_blocks.old answer to_top.new to_blocks.new)
        to.old result to.new }
{
    put(
        to,
        diff_count::symmetric_difference(
            filter_in(a),
            top,
            blocks,
            filter_in(b),
            top2,
            blocks2,
            to_top,
            to_blocks,
        ),
    )
}

#[unsafe(no_mangle)]
pub extern "C" fn zamgulekt_builder_new(
    config: u64,
    split: usize,
    builder: &mut [u64; BUILDER],
    pending: &mut [u32],
    bits: &mut [u64],
) -> u8
    ensures { MakesBuilder
        (λ answer. News config split pending.old bits.old answer pending.new bits.new)
        builder.old result builder.new }
{
    put(builder, builder::new(config, split, pending, bits))
}

#[unsafe(no_mangle)]
pub extern "C" fn zamgulekt_builder_push(
    builder: &mut [u64; BUILDER],
    pending: &mut [u32],
    bits: &mut [u64],
    list: &[u32],
) -> u8
    ensures { MakesBuilder
        (λ answer. Pushes (builder_in builder.old) pending.old bits.old list.now
        answer pending.new bits.new)
        builder.old result builder.new }
{
    let b = builder_in(builder);
    put(builder, b.push(pending, bits, list))
}

#[unsafe(no_mangle)]
pub extern "C" fn zamgulekt_builder_raise(
    builder: &mut [u64; BUILDER],
    pending: &[u32],
    bits: &[u64],
    to: usize,
) -> u8
    ensures { Tells (told builder_cells (raised (builder_in builder.old) pending.now bits.now to))
        builder.old result builder.new }
{
    let b = builder_in(builder);
    put(builder, b.raise(pending, bits, to))
}

#[unsafe(no_mangle)]
pub extern "C" fn zamgulekt_builder_finish(
    builder: &[u64; BUILDER],
    pending: &[u32],
    bits: &[u64],
    record: &mut [u64; FILTER],
    top: &mut [u32],
    blocks: &mut [u64],
) -> u8
    ensures { MakesFilter
        (λ answer. Finishes (builder_in builder.now) pending.now bits.now
        top.old blocks.old answer top.new blocks.new)
        «record».old result «record».new }
{
    put(
        record,
        builder_in(builder).finish(pending, bits, top, blocks),
    )
}

#[unsafe(no_mangle)]
pub extern "C" fn zamgulekt_exact_count(
    record: &[u64; FILTER],
    top: &[u32],
    blocks: &[u64],
    count: &mut u64,
) -> u8
    ensures { Tells (told number_cell (exact_of (filter_in «record».now) top.now blocks.now))
        count.old result count.new }
{
    put(count, counts::exact_count(filter_in(record), top, blocks))
}

#[unsafe(no_mangle)]
pub extern "C" fn zamgulekt_limited_count(
    record: &[u64; FILTER],
    top: &[u32],
    blocks: &[u64],
    limited: &mut [u64; LIMITED],
) -> u8
    ensures { Tells (told limited_cells (limited_of (filter_in «record».now) top.now blocks.now))
        limited.old result limited.new }
{
    put(
        limited,
        counts::limited_count(filter_in(record), top, blocks),
    )
}

#[unsafe(no_mangle)]
pub extern "C" fn zamgulekt_exact_difference(
    a: &[u64; FILTER],
    top: &[u32],
    blocks: &[u64],
    b: &[u64; FILTER],
    top2: &[u32],
    blocks2: &[u64],
    count: &mut u64,
) -> u8
    ensures { Tells (told number_cell (exact_difference_of (filter_in a.now) top.now blocks.now
        (filter_in b.now) top2.now blocks2.now))
        count.old result count.new }
{
    put(
        count,
        counts::exact_difference(filter_in(a), top, blocks, filter_in(b), top2, blocks2),
    )
}

#[unsafe(no_mangle)]
pub extern "C" fn zamgulekt_limited_difference(
    a: &[u64; FILTER],
    top: &[u32],
    blocks: &[u64],
    b: &[u64; FILTER],
    top2: &[u32],
    blocks2: &[u64],
    limited: &mut [u64; LIMITED],
) -> u8
    ensures { Tells (told limited_cells (limited_difference_of (filter_in a.now) top.now blocks.now
        (filter_in b.now) top2.now blocks2.now))
        limited.old result limited.new }
{
    put(
        limited,
        counts::limited_difference(filter_in(a), top, blocks, filter_in(b), top2, blocks2),
    )
}

#[unsafe(no_mangle)]
pub extern "C" fn zamgulekt_cmp_masked(
    a: &[u64; FILTER],
    top: &[u32],
    blocks: &[u64],
    b: &[u64; FILTER],
    top2: &[u32],
    blocks2: &[u64],
    mask: u64,
    size: usize,
    order: &mut u64,
) -> u8
    ensures { Tells (told order_cell (cmp_of (filter_in a.now) top.now blocks.now
        (filter_in b.now) top2.now blocks2.now mask size))
        order.old result order.new }
{
    put(
        order,
        masked::cmp_masked(
            filter_in(a),
            top,
            blocks,
            filter_in(b),
            top2,
            blocks2,
            mask,
            size,
        ),
    )
}

#[unsafe(no_mangle)]
pub extern "C" fn zamgulekt_masked_sort_key(
    record: &[u64; FILTER],
    top: &[u32],
    blocks: &[u64],
    mask: u64,
    size: usize,
    key: &mut u64,
) -> u8
    ensures { Tells (told number_cell (key_for (filter_in «record».now) top.now blocks.now mask size))
        key.old result key.new }
{
    put(
        key,
        masked::masked_sort_key(filter_in(record), top, blocks, mask, size),
    )
}

#[unsafe(no_mangle)]
pub extern "C" fn zamgulekt_write(
    record: &[u64; FILTER],
    top: &[u32],
    blocks: &[u64],
    row: &mut [u8],
    length: &mut u64,
) -> u8
    ensures { Wraps (told number_cell)
        (λ answer. Writes (filter_in «record».now) top.now blocks.now row.old
        answer row.new)
        «length».old result «length».new }
{
    put(length, rows::write(filter_in(record), top, blocks, row))
}

#[unsafe(no_mangle)]
pub extern "C" fn zamgulekt_read(
    config: u64,
    row: &[u8],
    record: &mut [u64; FILTER],
    top: &mut [u32],
    blocks: &mut [u64],
) -> u8
    ensures { MakesFilter
        (λ answer. Reads config row.now top.old blocks.old answer top.new blocks.new)
        «record».old result «record».new }
{
    put(record, rows::read(config, row, top, blocks))
}

#[unsafe(no_mangle)]
pub extern "C" fn zamgulekt_open(config: u64, row: &[u8], count: &mut u64) -> u8
    ensures { Tells (told number_cell (open_of config row.now)) count.old result count.new }
{
    put(count, rows::open(config, row))
}

#[unsafe(no_mangle)]
pub extern "C" fn zamgulekt_cmp_rows(
    config: u64,
    mask: u64,
    size: usize,
    first: &[u8],
    second: &[u8],
    order: &mut u64,
) -> u8
    ensures { Tells (told order_cell (cmp_rows_of config mask size first.now second.now))
        order.old result order.new }
{
    put(
        order,
        row_order::cmp_rows(config, mask, size, first, second),
    )
}

// Names the greater row, since a row itself cannot be returned: 0 the first, 1 the second.
#[unsafe(no_mangle)]
pub extern "C" fn zamgulekt_greater_row(
    config: u64,
    mask: u64,
    size: usize,
    first: &[u8],
    second: &[u8],
    which: &mut u64,
) -> u8
    ensures { Tells (told greater_cell (cmp_rows_of config mask size first.now second.now))
        which.old result which.new
        × (greater_of config mask size first.entry second.entry ≡
        row_named (told greater_cell (cmp_rows_of config mask size first.now second.now))
        first.entry second.entry) }
{
    let order = row_order::cmp_rows(config, mask, size, first, second);
    put(which, order.map(|o| o.is_lt() as u64))
}

// A reader is its configuration and its place; the row is lent beside them. Never refused.
#[unsafe(no_mangle)]
pub extern "C" fn zamgulekt_row_reader_new(
    config: u64,
    place: usize,
    reader: &mut [u64; READER],
) -> u8
    ensures { Tells (gives (config ∷ place ∷ [])) reader.old result reader.new }
{
    *reader = [config, place as u64];
    0
}

#[unsafe(no_mangle)]
pub extern "C" fn zamgulekt_row_reader_step(
    reader: &mut [u64; READER],
    row: &[u8],
    step: &mut [u64; STEP],
) -> u8
    ensures { Steps reader.old row.now step.old result reader.new step.new }
{
    let [config, place] = *reader;
    let next = row_reader::step_at(row, config, place as usize);
    // the place moves where a bucket is given, and else no cell of the reader is written
    if next.place == place as usize {
        return put(step, next.answer);
    }
    *reader = [config, next.place as u64];
    put(step, next.answer)
}

#[unsafe(no_mangle)]
pub extern "C" fn zamgulekt_step_at(
    row: &[u8],
    config: u64,
    place: usize,
    stepped: &mut [u64; STEPPED],
) -> u8
    ensures { Tells (told (stepped_cells (step_place config row.now place)) (step_answer config row.now place))
        stepped.old result stepped.new }
{
    let next = row_reader::step_at(row, config, place);
    put(stepped, next.answer.map(|given| (given, next.place)))
}

#[unsafe(no_mangle)]
pub extern "C" fn zamgulekt_compare_text(input: &[u8], text: &mut [u8], length: &mut u64) -> u8
    ensures { Wraps (told number_cell)
        (λ answer. Compares input.now text.old answer text.new)
        «length».old result «length».new }
{
    put(length, compare_text::compare_text(input, text))
}

// The row reader: a lent row and a place in it, with the configuration, which gives the row's buckets from the largest down.
#![tactic(auto)]

ghost use Rattle.std.specs.Prelude.{◌≡◌, ◌*◌};
ghost use Rattle.sets.specs.Sets.{members};
ghost use Rattle.sets.specs.Masks.{given_at};
ghost use Rattle.bitchunks.specs.Rows.{RowWalks, row_set};
ghost use Rattle.row_reader.specs.Reading.{next_told, reader_of, step_of, stepped_at};

use bitchunks::{Ones, RowBlocks};
use sizes::Refusal;

#[derive(Clone, Copy)]
pub struct RowReader<'a> {
    pub row: &'a [u8],
    pub config: u64,
    // how many buckets were given
    pub place: usize,
}

// What a step gives, and the place after it.
#[derive(Clone, Copy)]
pub struct Stepped {
    pub answer: Result<Option<u32>, Refusal>,
    pub place: usize,
}

// What a step gives, and the reader after it.
#[derive(Clone, Copy)]
pub struct StepTaken<'a> {
    pub answer: Result<Option<u32>, Refusal>,
    pub reader: RowReader<'a>,
}

// The bucket at a place, counted from the largest, of a row of k blocks.
fn bucket_at(row: &RowBlocks, k: usize, place: usize) -> Option<usize>
    requires { RowWalks row.now.layout row.now.row.now 0 k }
    ensures { result ≡ next_told (given_at (members (row_set row.now.layout row.now.row.now) (64 * k)) place) }
{
    let mut at = Ones::start(k);
    // one call of `next_one`, which then is part of the loop: with a second one behind it each turn took four times as long
    for passed in 0..=place {
        let (p, next) = bitchunks::next_one(row, at)?;
        if passed == place {
            return Some(p);
        }
        at = next;
    }
    None
}

// A step on a row, a configuration and a place.
pub fn step_at(row: &[u8], config: u64, place: usize) -> Stepped
    ensures { result ≡ stepped_at config row.now place }
{
    match judge_row::row(config, row) {
        Ok((s, layout)) => match bucket_at(&RowBlocks { row, layout }, s.blocks, place) {
            Some(p) => Stepped {
                answer: Ok(Some(p as u32)),
                place: place + 1,
            },
            None => Stepped {
                answer: Ok(None),
                place,
            },
        },
        Err(r) => Stepped {
            answer: Err(r),
            place,
        },
    }
}

// A reader of any row, configuration and place.
pub fn new<'a>(row: &'a [u8], config: u64, place: usize) -> RowReader<'a>
    ensures { result ≡ reader_of row.entry config place }
{
    RowReader { row, config, place }
}

// A reader's step.
pub fn step<'a>(r: RowReader<'a>) -> StepTaken<'a>
    ensures { result ≡ step_of r.entry }
{
    let next = step_at(r.row, r.config, r.place);
    StepTaken {
        answer: next.answer,
        reader: RowReader {
            place: next.place,
            ..r
        },
    }
}

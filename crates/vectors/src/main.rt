// Replays answers of the Rust: standard input is a list of them, one to a line, which `oracle/list` writes (oracle/README.md says how,
// and what each line holds). The program asks our calls the same, and writes for each call and configuration how many lines it read
// and how many of them our calls answer otherwise. A line with a field that is not what it should be, or with text behind the last one,
// is answered otherwise; one whose kind or configuration is none is not understood.
#![tactic(auto)]

ghost use Rattle.std.specs.Prelude.{◌≡◌, length};

use bitchunks::Limited;
use builder::Builder;
use diff_count::Filter;
use sizes::Refusal;
use std::cmp::Ordering;
use std::io::Write;
use std::{fmt, io};

// more lines than the list has
const MOST_LINES: usize = 10000;

// more buckets than any list of a line has
const MOST_BUCKETS: usize = 1999;

// the bytes of the longest row of all
const LONGEST_ROW: usize = 68049;

// ---- a set

// A filter with areas of its own, which have room in each configuration. It is filled in place and lent: by value, its 68 KB would
// be copied. A function begins with its sets and buffers, since what comes behind a `?` is zeroed twice.
#[derive(PartialEq, Drop)]
struct Set {
    f: Filter,
    top: [u32; 384],
    blocks: [u64; 8320],
}

impl Set {
    // Areas, and the record of no filter yet.
    fn new() -> Set {
        Set {
            f: Filter {
                config: 0,
                count: 0,
                boundary: 0,
            },
            top: [0; 384],
            blocks: [0; 8320],
        }
    }

    fn toggle(&mut self, list: &[u32]) -> Result<(), Refusal> {
        self.f = self.f.toggle(&mut self.top, &mut self.blocks, list)?;
        Ok(())
    }

    // The row, written at the beginning of `to`.
    fn write<'a>(&self, to: &'a mut [u8]) -> Result<&'a [u8], Refusal> {
        let n = rows::write(self.f, &self.top, &self.blocks, to)?;
        to.get(..n).ok_or(Refusal::Room)
    }

    // Whether that is what we write as the set's row.
    fn writes(&self, row: &[u8]) -> Result<bool, Refusal> {
        let mut to = [0; LONGEST_ROW];
        Ok(self.write(&mut to)? == row)
    }

    // Whether reading that row gives the set.
    fn reads(&self, row: &[u8]) -> Result<bool, Refusal> {
        let mut read = Set::new();
        read.f = rows::read(self.f.config, row, &mut read.top, &mut read.blocks)?;
        Ok(read == *self)
    }

    // How many buckets its row has.
    fn count_in_row(&self) -> Result<usize, Refusal> {
        let mut row = [0; LONGEST_ROW];
        rows::open(self.f.config, self.write(&mut row)?)
    }

    // The order of two sets' rows.
    fn cmp_rows(&self, other: &Set, mask: u64, size: usize) -> Result<Ordering, Refusal> {
        let mut first = [0; LONGEST_ROW];
        let mut second = [0; LONGEST_ROW];
        let first = self.write(&mut first)?;
        let second = other.write(&mut second)?;
        row_order::cmp_rows(self.f.config, mask, size, first, second)
    }
}

// ---- a line

// What is left of a line: words with a space between them, nothing behind the last. A field that is not what it should be is refused,
// as malformed text.
#[derive(Drop)]
struct Fields<'a> {
    rest: Option<&'a [u8]>,
}

impl<'a> Fields<'a> {
    fn of(line: &'a [u8]) -> Fields<'a> {
        Fields { rest: Some(line) }
    }

    // Whether the last word was taken.
    fn end(&self) -> bool {
        self.rest.is_none()
    }

    fn word(&mut self) -> Result<&'a [u8], Refusal> {
        let rest = self.rest.ok_or(Refusal::TextForm)?;
        let Some(i) = decode::find(rest, b' ') else {
            self.rest = None;
            return Ok(rest);
        };
        self.rest = Some(&rest[i + 1..]);
        Ok(&rest[..i])
    }

    fn number(&mut self) -> Result<u64, Refusal> {
        decode::decimal(self.word()?).ok_or(Refusal::TextForm)
    }

    // A list: its length, and its buckets, which are put at the beginning of `to`.
    fn buckets<'b>(&mut self, to: &'b mut [u32]) -> Result<&'b [u32], Refusal> {
        let count = self.number()? as usize;
        let list = to.get_mut(..count).ok_or(Refusal::TextForm)?;
        for bucket in list.iter_mut() {
            *bucket = u32::try_from(self.number()?).map_err(|_| Refusal::TextForm)?;
        }
        Ok(list)
    }

    // A row in hex, which is put at the beginning of `to`; the empty row is `-`.
    fn row<'b>(&mut self, to: &'b mut [u8]) -> Result<&'b [u8], Refusal> {
        let digits = match self.word()? {
            b"" => return Err(Refusal::TextForm),
            b"-" => return Ok(&to[..0]),
            digits => digits,
        };
        if to.len() < digits.len().div_ceil(2) {
            return Err(Refusal::TextForm);
        }
        let count = decode::from_hex(digits, to).ok_or(Refusal::TextForm)?;
        to.get(..count).ok_or(Refusal::TextForm)
    }

    // What a line begins with.
    fn kind_and_config(&mut self) -> Result<(Kind, u64), Refusal> {
        let word = self.word()?;
        let kind = KINDS
            .into_iter()
            .find(|kind| kind.word().as_bytes() == word);
        Ok((kind.ok_or(Refusal::TextForm)?, self.number()?))
    }

    fn order(&mut self) -> Result<Ordering, Refusal> {
        match self.word()? {
            b"less" => Ok(Ordering::Less),
            b"equal" => Ok(Ordering::Equal),
            b"greater" => Ok(Ordering::Greater),
            _ => Err(Refusal::TextForm),
        }
    }

    // The set after the toggles that are listed.
    fn toggle(&mut self, set: &mut Set) -> Result<(), Refusal> {
        let mut list = [0; MOST_BUCKETS];
        set.toggle(self.buckets(&mut list)?)
    }

    // Fills the areas with the set of the buckets that are listed.
    fn set(&mut self, config: u64, set: &mut Set) -> Result<(), Refusal> {
        set.f = diff_count::empty(config, &mut set.top, &mut set.blocks)?;
        self.toggle(set)
    }

    // Whether a set's row is next.
    fn has_row_of(&mut self, set: &Set) -> Result<bool, Refusal> {
        let mut row = [0; LONGEST_ROW];
        let row = self.row(&mut row)?;
        Ok(set.writes(row)? && set.reads(row)?)
    }

    // Whether the row of the buckets that exactly one of two sets holds is next.
    fn has_row_of_difference(&mut self, a: &Set, b: &Set) -> Result<bool, Refusal> {
        let mut difference = Set::new();
        difference.f = diff_count::symmetric_difference(
            a.f,
            &a.top,
            &a.blocks,
            b.f,
            &b.top,
            &b.blocks,
            &mut difference.top,
            &mut difference.blocks,
        )?;
        self.has_row_of(&difference)
    }

    // Whether these counts are next.
    fn has_counts(&mut self, exact: usize, limited: Limited) -> Result<bool, Refusal> {
        Ok(
            self.number()? == exact as u64
                && self.number()? == limited.count as u64
                && self.number()? == limited.bound as u64,
        )
    }
}

// ---- whether our calls answer a line's fields, from behind the configuration

fn row_line(fields: &mut Fields<'_>, config: u64) -> Result<bool, Refusal> {
    let mut a = Set::new();
    fields.set(config, &mut a)?;
    fields.has_row_of(&a)
}

fn toggle_line(fields: &mut Fields<'_>, config: u64) -> Result<bool, Refusal> {
    let mut a = Set::new();
    fields.set(config, &mut a)?;
    fields.toggle(&mut a)?;
    fields.has_row_of(&a)
}

fn difference_line(fields: &mut Fields<'_>, config: u64) -> Result<bool, Refusal> {
    let mut a = Set::new();
    let mut b = Set::new();
    fields.set(config, &mut a)?;
    fields.set(config, &mut b)?;
    let exact = counts::exact_difference(a.f, &a.top, &a.blocks, b.f, &b.top, &b.blocks)?;
    let limited = counts::limited_difference(a.f, &a.top, &a.blocks, b.f, &b.top, &b.blocks)?;
    Ok(fields.has_row_of_difference(&a, &b)? && fields.has_counts(exact, limited)?)
}

// Whether two sets have the order that is told, and so their rows.
fn order_line(fields: &mut Fields<'_>, config: u64) -> Result<bool, Refusal> {
    let mut a = Set::new();
    let mut b = Set::new();
    let mask = fields.number()?;
    let size = fields.number()? as usize;
    fields.set(config, &mut a)?;
    fields.set(config, &mut b)?;
    let order = masked::cmp_masked(a.f, &a.top, &a.blocks, b.f, &b.top, &b.blocks, mask, size)?;
    let of_rows = a.cmp_rows(&b, mask, size)?;
    let told = fields.order()?;
    Ok(order == told && of_rows == told)
}

fn key_line(fields: &mut Fields<'_>, config: u64) -> Result<bool, Refusal> {
    let mut a = Set::new();
    let mask = fields.number()?;
    let size = fields.number()? as usize;
    fields.set(config, &mut a)?;
    let key = masked::masked_sort_key(a.f, &a.top, &a.blocks, mask, size)?;
    Ok(fields.number()? == key)
}

// Whether a set has the counts that are told, and its row as many buckets.
fn count_line(fields: &mut Fields<'_>, config: u64) -> Result<bool, Refusal> {
    let mut a = Set::new();
    fields.set(config, &mut a)?;
    let exact = counts::exact_count(a.f, &a.top, &a.blocks)?;
    let limited = counts::limited_count(a.f, &a.top, &a.blocks)?;
    Ok(fields.has_counts(exact, limited)? && a.count_in_row()? == exact)
}

fn build_line(fields: &mut Fields<'_>, config: u64) -> Result<bool, Refusal> {
    let mut pending = [0; 768];
    let mut bits = [0; 8320];
    let mut list = [0; MOST_BUCKETS];
    let mut set = Set::new();
    let split = fields.number()? as usize;
    let b = builder::new(config, split, &mut pending, &mut bits)?;
    let b = b.push(&mut pending, &mut bits, fields.buckets(&mut list)?)?;
    let b = b.raise(&pending, &bits, fields.number()? as usize)?;
    let b = b.push(&mut pending, &mut bits, fields.buckets(&mut list)?)?;
    set.f = b.finish(&pending, &bits, &mut set.top, &mut set.blocks)?;
    fields.has_row_of(&set)
}

// Whether a row gives the buckets that are listed, one by one, and then ends.
fn iterate_line(fields: &mut Fields<'_>, config: u64) -> Result<bool, Refusal> {
    let mut bytes = [0; LONGEST_ROW];
    let mut list = [0; MOST_BUCKETS];
    let row = fields.row(&mut bytes)?;
    let list = fields.buckets(&mut list)?;
    for (i, bucket) in list.iter().enumerate() {
        if row_reader::step_at(row, config, i).answer? != Some(*bucket) {
            return Ok(false);
        }
    }
    Ok(
        row_reader::step_at(row, config, list.len())
            .answer?
            .is_none(),
    )
}

// ---- the list

// What a line asks. A `match` has an arm for each; a table of functions would not be checked to.
#[derive(Clone, Copy)]
enum Kind {
    Row,
    Toggle,
    Difference,
    Order,
    Key,
    Count,
    Build,
    Iterate,
}

const KINDS: [Kind; 8] = [
    Kind::Row,
    Kind::Toggle,
    Kind::Difference,
    Kind::Order,
    Kind::Key,
    Kind::Count,
    Kind::Build,
    Kind::Iterate,
];

const CONFIGS: [u64; 3] = [7, 10, 13];

impl Kind {
    // The first word of its lines.
    fn word(self) -> &'static str {
        match self {
            Kind::Row => "row",
            Kind::Toggle => "toggle",
            Kind::Difference => "difference",
            Kind::Order => "order",
            Kind::Key => "key",
            Kind::Count => "count",
            Kind::Build => "build",
            Kind::Iterate => "iterate",
        }
    }

    // Whether our calls answer the fields of a line as it does.
    fn is_answered(self, fields: &mut Fields<'_>, config: u64) -> Result<bool, Refusal> {
        match self {
            Kind::Row => row_line(fields, config),
            Kind::Toggle => toggle_line(fields, config),
            Kind::Difference => difference_line(fields, config),
            Kind::Order => order_line(fields, config),
            Kind::Key => key_line(fields, config),
            Kind::Count => count_line(fields, config),
            Kind::Build => build_line(fields, config),
            Kind::Iterate => iterate_line(fields, config),
        }
    }
}

// How many lines there were, and how many of them our calls answer otherwise.
#[derive(Clone, Copy, Default)]
struct Counter {
    lines: u64,
    others: u64,
}

impl Counter {
    fn count(&mut self, right: bool) {
        self.lines = self.lines.wrapping_add(1);
        if !right {
            self.others = self.others.wrapping_add(1);
        }
    }
}

impl fmt::Display for Counter {
    fn fmt<W: fmt::Write>(&self, f: &mut fmt::Formatter<W>) -> fmt::Result {
        write!(
            f,
            "{} lines, answered otherwise: {}",
            self.lines, self.others
        )
    }
}

// By kind and configuration; and for the lines that are not understood.
#[derive(Drop)]
struct Report {
    counters: [[Counter; 3]; 8],
    not_understood: Counter,
}

impl Report {
    // Where a line of that kind and configuration is counted.
    fn counter(&mut self, kind: Kind, config: u64) -> &mut Counter {
        match config {
            7 => &mut self.counters[kind as usize][0],
            10 => &mut self.counters[kind as usize][1],
            13 => &mut self.counters[kind as usize][2],
            _ => &mut self.not_understood,
        }
    }

    // Asks what a line holds.
    fn ask(&mut self, line: &[u8]) {
        let mut fields = Fields::of(line);
        match fields.kind_and_config() {
            Ok((kind, config)) => {
                let answered = kind.is_answered(&mut fields, config);
                self.counter(kind, config)
                    .count(answered == Ok(true) && fields.end());
            }
            Err(_) => self.not_understood.count(false),
        }
    }

    fn print(&self, out: &mut impl Write) -> io::Result<()> {
        for (kind, counters) in KINDS.iter().zip(&self.counters) {
            for (config, counter) in CONFIGS.iter().zip(counters) {
                writeln!(out, "{} {config}: {counter}", kind.word())?;
            }
        }
        writeln!(out, "not understood: {}", self.not_understood)
    }
}

// Room for the list. The `ensures` tells only its length: the prover cannot follow a million zeros one by one.
fn room() -> [u8; 1000000]
    ensures { 1000000 ≡ length result }
{
    [0; 1000000]
}

fn main(rt: HostRuntime) -> io::Result<()> {
    let mut text = room();
    let n = examples::read_full(&mut rt.stdin(), &mut text)?;
    let none = Counter::default();
    let mut report = Report {
        counters: [[none; 3]; 8],
        not_understood: none,
    };
    let lines = text[..n].split_inclusive(|b| *b == b'\n');
    for line in lines.take(MOST_LINES) {
        report.ask(line.strip_suffix(b"\n").unwrap_or(line));
    }
    report.print(&mut rt.stdout())
}

// The sizes of a configuration, and what a refusal carries.
#![tactic(auto)]

ghost use Rattle.std.specs.Prelude.{◌≡◌};
ghost use Rattle.sizes.specs.Sizes.{number_of, sizes_of};

// A line of document 01's table.
#[derive(Clone, Copy)]
pub struct Sizes {
    // B: 2^B buckets per level
    pub level: usize,
    // M: the cells of the top area
    pub top: usize,
    // bytes per top entry of a row
    pub entry: usize,
    // the byte budget
    pub budget: usize,
    // W: all buckets
    pub buckets: usize,
    // the cells of the bit area
    pub blocks: usize,
    // the bits of a bucket's position in a key
    pub bits: usize,
    // the blocks that the limited count looks at
    pub window: usize,
    // the bytes of the longest row
    pub longest: usize,
}

// Why a call refuses, in the order of document 01's numbers.
#[derive(Clone, Copy, PartialEq, Eq)]
pub enum Refusal {
    Configuration = 1,
    Range,
    Room,
    RowLength,
    NoSet,
    MaskSize,
    MaskBits,
    Soundness,
    Likeness,
    Slot,
    TextForm,
}

impl Refusal {
    // 01's number.
    pub fn number(self) -> u8
        ensures { result ≡ number_of self }
    {
        self as u8
    }
}

// The number is 64 bits wide, so that no caller's number is cut to a known one.
pub fn sizes_of(config: u64) -> Result<Sizes, Refusal>
    ensures { result ≡ sizes_of config }
{
    match config {
        7 => Ok(Sizes {
            level: 7,
            top: 12,
            entry: 2,
            budget: 112,
            buckets: 8320,
            blocks: 130,
            bits: 14,
            window: 11,
            longest: 1065,
        }),
        10 => Ok(Sizes {
            level: 10,
            top: 64,
            entry: 4,
            budget: 896,
            buckets: 66560,
            blocks: 1040,
            bits: 17,
            window: 80,
            longest: 8569,
        }),
        13 => Ok(Sizes {
            level: 13,
            top: 384,
            entry: 4,
            budget: 7138,
            buckets: 532480,
            blocks: 8320,
            bits: 20,
            window: 700,
            longest: 68049,
        }),
        _ => Err(Refusal::Configuration),
    }
}

// A mask laid over a block.
ghost use Rattle.std.specs.Prelude.{◌≡◌, ◌*◌, ◌^◌, ◌<◌, ◌≤◌};
ghost use Rattle.std.specs.Int.Bits.{bit_and};
ghost use Rattle.sets.specs.Words.{block_at};
ghost use Rattle.sets.specs.Masks.{laid, largest_mask_size};
ghost use Rattle.bitchunks.specs.Mask.{LaidMask};

// A mask of this size laid end to end over a block: digit j is the mask's digit j mod size.
#[derive(Clone, Copy)]
pub struct BlockMask {
    pub block: u64,
    pub size: usize,
    pub ghost laid: { LaidMask size block },
}

// Each turn doubles what is laid.
pub fn repeat_mask(mask: u64, size: usize) -> BlockMask
    requires { (1 ≤ size) × (size ≤ largest_mask_size) × (mask < 2 ^ size) }
    ensures { (result.block ≡ block_at (laid mask size) 0) × (result.size ≡ size) }
{
    let mut block = mask;
    let mut i = size;
    while i < 64 {
        block = block | (block << i);
        i *= 2;
    }
    BlockMask { block, size }
}

impl BlockMask {
    // The same, turned to the block of this number: digit j is the mask's digit (64·index + j) mod size.
    fn turn_mask(self, index: usize) -> u64
        requires { 64 * index ≤ 2 ^ 32 }
        ensures { result ≡ block_at (laid self.block self.size) index }
    {
        let shift = (64 * index) % self.size;
        (self.block >> shift) | (self.block << (self.size - shift))
    }

    // What the mask keeps of the block of this number. Of an empty block it keeps nothing, and the division is spared.
    pub fn masked_block(self, block: u64, index: usize) -> u64
        requires { 64 * index ≤ 2 ^ 32 }
        ensures { result ≡ bit_and block (block_at (laid self.block self.size) index) }
    {
        if block == 0 {
            return 0;
        }
        block & self.turn_mask(index)
    }
}

// The layout of an image, for the writer and the reader.
#![tactic(auto)]

ghost use Rattle.std.specs.Prelude.{◌≡◌};
ghost use Rattle.layout.specs.Images.{blocks_for};

pub mod cells;
pub mod writer;

// The bytes of a block, and those before its check.
pub const BLOCK: usize = 512;

pub const CONTENT: usize = block::PLAIN;

// The bytes of the largest image.
pub const LARGEST: usize = 2560;

// The cells of a full cell block.
pub const FULL: usize = 126;

// The four bytes that an image begins with, as a number: 50 4F 54 31.
pub const MARK: u32 = 0x3154_4f50;

// The place after the fields of block 0.
pub const FIELDS_END: usize = 26;

// How many cell blocks so many cells take.
pub fn blocks_for(count: usize) -> usize
    ensures { result ≡ blocks_for count }
{
    count.div_ceil(FULL)
}

// Reading: the tests of the bytes where they stand, and the parts of the sketch that they spell.
ghost use Rattle.std.specs.Prelude.{◌≡◌, ◌*◌, ◌<◌, ◌≤◌, length, replicate, Err, MatchOption};
ghost use Rattle.lists.specs.Rows.{all_zero};
ghost use Rattle.rule.specs.Refusals.{refused, of_taken};
ghost use Rattle.block.specs.Little.{Bytes};
ghost use Rattle.layout.specs.Images.{fields_end, blocks_for, said_settings};
ghost use Rattle.layout.specs.Shapes.{Blocks, blocks_in, first_wrong, block_shaped, blocks_shaped, shaped};
ghost use Rattle.image.specs.Calls.{HandsOver, Checked, right_length, marked, read_marked, fault_in, loaded_with};

use crate::Header;
use layout::cells::{copy_all, number_at};
use layout::{BLOCK, CONTENT, FIELDS_END, FULL, LARGEST, MARK, blocks_for};
use rule::Settings;
use rule::refusals::ReadError;
use sketch::lent::Lent;

// No turn branches, as `all` would, so that the loop runs on whole vectors. Of bytes: what `rows::zeros`
// does on numbers of 32 bits would need a trait of its own, for two lines.
fn zeros(s: &[u8]) -> bool
    ensures { result ≡ all_zero s.now }
{
    s.iter().fold(true, |all, x| all & (*x == 0))
}

pub fn right_length(n: usize) -> bool
    ensures { result ≡ right_length n }
{
    (1 <= n) & ((n <= LARGEST) & (n % BLOCK == 0))
}

// The first block whose check is wrong, if there is one.
pub fn first_wrong(s: &[u8]) -> Option<usize>
    requires { Blocks s.now }
    ensures { MatchOption result (first_wrong s.now ≡ blocks_in s.now)
        (λ i. (i ≡ first_wrong s.now) × (i < blocks_in s.now)) }
{
    s.chunks_exact(BLOCK).position(|block| !block::good(block))
}

// The settings that block 0 says.
fn said_settings(s: &[u8]) -> Settings
    requires { 512 ≤ length s.now }
    ensures { result ≡ said_settings s.now }
{
    Settings {
        n: number_at(s, 4),
        p: number_at(s, 8),
        a: number_at(s, 12),
        b: number_at(s, 16),
        capacity: u32::from(block::word_at(s, 20)),
    }
}

pub fn has_mark(s: &[u8]) -> bool
    requires { 512 ≤ length s.now }
    ensures { (result ≡ marked s.now) × Bytes s.now }
{
    number_at(s, 0) == MARK
}

// Whether a cell block, a part of the image, has this number, holds so many cells, and has zeros after
// them.
fn block_shaped(s: &[u8], number: usize, many: usize) -> bool
    requires { (length s.now ≡ 512) × (many ≤ 126) }
    ensures { result ≡ block_shaped number many s.now }
{
    let says = usize::from(block::word_at(s, 0));
    let holds = usize::from(block::word_at(s, 2));
    let start = 4 + 4 * many;
    (says == number) & ((holds == many) & zeros(&s[start..CONTENT]))
}

// Whether the cell blocks have their numbers, and every one but the last is full.
fn blocks_shaped(s: &[u8], count: usize) -> bool
    requires { (length s.now ≡ 512 * blocks_for count) × (count ≤ 504) }
    ensures { result ≡ blocks_shaped (blocks_for count) 1 count s.now }
{
    for (i, block) in s.chunks_exact(BLOCK).enumerate() {
        let many = FULL.min(count - FULL * i);
        if !block_shaped(block, i + 1, many) {
            return false;
        }
    }
    true
}

// All that makes bytes an image but the checks, the mark, and that they spell a sketch.
fn well_shaped(s: &[u8]) -> bool
    requires { Blocks s.now }
    ensures { result ≡ shaped fields_end s.now }
{
    let count = usize::from(block::word_at(s, 24));
    if s.len() / BLOCK != 1 + blocks_for(count) {
        return false;
    }
    if !zeros(&s[FIELDS_END..CONTENT]) {
        return false;
    }
    blocks_shaped(&s[BLOCK..], count)
}

// Why bytes with right checks and mark are refused: 1 comes before 8.
fn fault(s: &[u8]) -> ReadError
    requires { 512 ≤ length s.now }
    ensures { of_taken (Err result) ≡ refused (fault_in s.now) 0 }
{
    if said_settings(s).good() {
        ReadError::Image
    } else {
        ReadError::Settings
    }
}

// The settings are looked at by themselves only where the bytes are no image: a sketch's are good.
// The row is filled before it is known to be a sketch's, so a refusal clears it again.
pub fn read_marked(s: &[u8], cells: &mut [u32]) -> Result<Header, ReadError>
    requires { Checked s.now × (cells.old ≡ replicate 504 0) }
    ensures { HandsOver (read_marked s.now) s.now (loaded_with result cells.new) }
{
    if !well_shaped(s) {
        return Err(fault(s));
    }
    let settings = said_settings(s);
    let level = u32::from(block::word_at(s, 22));
    let count = u32::from(block::word_at(s, 24));
    copy_all(cells, &s[BLOCK..], count as usize);
    let sketch = Lent {
        settings,
        level,
        count,
        cells,
    };
    if !sketch.good() {
        cells.fill(0);
        return Err(fault(s));
    }
    Ok(Header {
        settings,
        level,
        count,
    })
}

// Reading cells: the numbers in the cell blocks, copied into a row.
ghost use Rattle.std.specs.Prelude.{◌≡◌, ◌+◌, ◌*◌, ◌≤◌, length, drop, replicate};
ghost use Rattle.lists.specs.Rows.{pad};
ghost use Rattle.block.specs.Little.{Bytes, number_at};
ghost use Rattle.layout.specs.Images.{blocks_for, numbers_in, cells_in};

use crate::{BLOCK, FULL};

// The number in the four bytes at `at`. As block's words: `from_le_bytes` and `to_le_bytes` are each
// type's own, so that one function for both would need a trait, for one line.
#[tactic(auto, using(crate::proofs::Fields::number_four))]
pub fn number_at(s: &[u8], at: usize) -> u32
    requires { at + 4 ≤ length s.now }
    ensures { (result ≡ number_at 4 at s.now) × Bytes s.now }
{
    u32::from_le_bytes([s[at], s[at + 1], s[at + 2], s[at + 3]])
}

// Copies the cells of a cell block, as many as the row has places: by index, since nothing is known of places that a
// chain of iterators has lent to be written.
fn copy_cells(row: &mut [u32], s: &[u8])
    requires { 4 + 4 * length row.old ≤ length s.now }
    ensures { row.new ≡ numbers_in (length row.old) (drop 4 s.now) }
{
    for j in 0..row.len() {
        row[j] = number_at(s, 4 + 4 * j);
    }
}

// Copies the cells of all cell blocks into a row of zeros.
pub fn copy_all(row: &mut [u32], s: &[u8], count: usize)
    requires { (row.old ≡ replicate 504 0) × (length s.now ≡ 512 * blocks_for count) × (count ≤ 504) }
    ensures { row.new ≡ pad 504 (cells_in (blocks_for count) count s.now) }
{
    for (i, block) in s.chunks_exact(BLOCK).enumerate() {
        let from = FULL * i;
        let to = (from + FULL).min(count);
        copy_cells(&mut row[from..to], block);
    }
}

// Writing: the whole image, in room of just its length.
ghost use Rattle.std.specs.Prelude.{◌≡◌, [], ◌+◌, ◌*◌, ◌<◌, ◌≤◌, length};
ghost use Rattle.lists.specs.Rows.{placed};
ghost use Rattle.block.specs.Little.{bytes_of};
ghost use Rattle.block.specs.Sums.{sealed};
ghost use Rattle.layout.specs.Images.{mark, settings_bytes, head_with, body_of, blocks_for, cell_blocks, Writable, image_as};

use crate::{BLOCK, FULL, MARK};
use rule::Settings;

// Stores a number in the four bytes at `at`, as block's words are stored.
#[tactic(auto, using(crate::proofs::Puts::number_over))]
fn put_number(s: &mut [u8], at: usize, x: u32)
    requires { at + 4 ≤ length s.old }
    ensures { s.new ≡ placed s.old at (bytes_of 4 x) }
{
    s[at..at + 4].copy_from_slice(&x.to_le_bytes());
}

// Stores the settings from byte 4 on.
fn put_settings(s: &mut [u8], settings: Settings)
    requires { (22 ≤ length s.old) × (settings.capacity < 65536) }
    ensures { s.new ≡ placed s.old 4 (settings_bytes settings) }
{
    put_number(s, 4, settings.n);
    put_number(s, 8, settings.p);
    put_number(s, 12, settings.a);
    put_number(s, 16, settings.b);
    block::put_word(s, 20, settings.capacity as u16);
}

// Block 0, a part of the room, as each block.
fn put_head(s: &mut [u8], settings: Settings, level: u16, count: u16)
    requires { (length s.old ≡ 512) × (settings.capacity < 65536) }
    ensures { s.new ≡ sealed (head_with mark [] settings level count) }
{
    s.fill(0);
    put_number(s, 0, MARK);
    put_settings(s, settings);
    block::put_word(s, 22, level);
    block::put_word(s, 24, count);
    block::seal(s);
}

// A cell block: its number, and the cells it holds.
fn put_cells(s: &mut [u8], number: u16, cells: &[u32])
    requires { (length s.old ≡ 512) × (length cells.now ≤ 126) }
    ensures { s.new ≡ sealed (body_of number cells.now) }
{
    s.fill(0);
    block::put_word(s, 0, number);
    block::put_word(s, 2, cells.len() as u16);
    for (j, cell) in cells.iter().enumerate() {
        put_number(s, 4 + 4 * j, *cell);
    }
    block::seal(s);
}

// All cell blocks: the cells by chunks, and the room by index, for the same reason as in `copy_cells`.
fn put_blocks(room: &mut [u8], cells: &[u32])
    requires { (length room.old ≡ 512 * blocks_for (length cells.now)) × (length cells.now ≤ 504) }
    ensures { room.new ≡ cell_blocks (blocks_for (length cells.now)) 1 cells.now }
{
    for (i, part) in cells.chunks(FULL).enumerate() {
        let start = BLOCK * i;
        let end = start + BLOCK;
        put_cells(&mut room[start..end], (i + 1) as u16, part);
    }
}

// The whole image, in room of just its length.
#[tactic(auto, unfolding(crate::specs::Images::image_with))]
pub fn put_image(room: &mut [u8], settings: Settings, level: u32, cells: &[u32])
    requires { Writable (length room.old) settings level (length cells.now) }
    ensures { room.new ≡ image_as settings level cells.now }
{
    let (head, blocks) = room.split_at_mut(BLOCK);
    put_head(head, settings, level as u16, cells.len() as u16);
    put_blocks(blocks, cells);
}

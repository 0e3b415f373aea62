// Images that are torn or damaged, and what the reader answers to them.
ghost use Rattle.std.specs.Prelude.{◌≡◌, ◌+◌, ◌%◌, ◌<◌, ◌≤◌, length, All};

use crate::words::{print_answer, yes_or_no};
use crate::written;
use sketch::Sketch;
use std::io;

fn all_zeros(k: Sketch) -> bool {
    k == sketch::no_sketch()
}

// What the reader answers to these bytes, and what it hands back.
fn answer(rt: &impl Print, bytes: &[u8]) -> io::Result<()> {
    let r = image::read(bytes);
    print!(rt; ": ")?;
    print_answer(rt, r.answer)?;
    let zeros = all_zeros(r.sketch);
    println!(rt; "; all zeros handed back: {}", yes_or_no(zeros))
}

fn first_bytes(rt: &impl Print, bytes: &[u8]) -> io::Result<()> {
    print!(rt; "a full image, its first {} bytes", bytes.len())?;
    answer(rt, bytes)
}

// The bytes at these places are flipped.
fn flipped(rt: &impl Print, mut full: [u8; 2560], places: &[usize]) -> io::Result<()>
    requires { All (λ at. at < 2560) places.now }
{
    let mut and = "";
    for at in places {
        full[*at] ^= 255;
        print!(rt; "{and}byte {at} (block {})", *at / 512)?;
        and = " and ";
    }
    print!(rt; " flipped")?;
    answer(rt, &full)
}

// The word at `at` says x, and the check of its block is right again.
fn reseal(bytes: &mut [u8], at: usize, x: u16)
    requires { (at + 2 ≤ length bytes.old) × (length bytes.old % 512 ≡ 0) }
{
    let start = at / 512 * 512;
    let end = start + 512;
    block::put_word(bytes, at, x);
    block::seal(&mut bytes[start..end]);
}

// Each of these words, the place and what it says, is resealed.
fn changed<const N: usize>(
    rt: &impl Print,
    what: &str,
    mut image: [u8; N],
    words: &[(usize, u16)],
) -> io::Result<()>
    requires { (N % 512 ≡ 0) × All (λ word. word.0 + 2 ≤ N) words.now }
{
    for (at, x) in words {
        reseal(&mut image, *at, *x);
    }
    print!(rt; "{what}")?;
    answer(rt, &image)
}

// 127 cells as 125 and 2, not as 126 and 1: cell 126 goes from block 1 to block 2.
pub fn read_not_full(rt: &impl Print) -> io::Result<()> {
    let mut room = [0u8; 1536];
    written(seen::up_to(127), &mut room);
    let what = "127 cells, 125 in block 1 and 2 in block 2";
    let words = [(514, 125), (1016, 0), (1026, 2), (1028, 126), (1032, 127)];
    changed(rt, what, room, &words)
}

// A full image: five blocks.
pub fn full_image() -> [u8; 2560] {
    let mut room = [0u8; 2560];
    written(seen::up_to(504), &mut room);
    room
}

// Lengths: 0, no multiple of 512, a block missing, whole, a block too many. In the last one the sixth block's check is wrong
// too, but the length is looked at first.
pub fn read_torn(rt: &impl Print) -> io::Result<()> {
    let mut room = [165u8; 3072];
    written(seen::up_to(504), &mut room);
    first_bytes(rt, &room[0..0])?;
    first_bytes(rt, &room[0..511])?;
    first_bytes(rt, &room[0..513])?;
    first_bytes(rt, &room[0..2048])?;
    first_bytes(rt, &room[0..2560])?;
    first_bytes(rt, &room[0..3072])
}

// Wrong checks: in each block in turn, then in two.
pub fn read_flipped(rt: &impl Print, full: [u8; 2560]) -> io::Result<()> {
    flipped(rt, full, &[0])?;
    flipped(rt, full, &[600])?;
    flipped(rt, full, &[1535])?;
    flipped(rt, full, &[1536])?;
    flipped(rt, full, &[2559])?;
    flipped(rt, full, &[600, 1600])?;
    flipped(rt, full, &[2100, 30])
}

// Right checks, and something else that is wrong. A full image: n 200000, p 2000003, 504 cells at level 0.
pub fn read_changed(rt: &impl Print, full: [u8; 2560]) -> io::Result<()> {
    changed(rt, "the mark is POT2", full, &[(2, 12884)])?;
    changed(rt, "n is 200001, and p below 10n", full, &[(4, 3393)])?;
    changed(rt, "the capacity is 505", full, &[(20, 505)])?;
    changed(rt, "the capacity is 503", full, &[(20, 503)])?;
    changed(
        rt,
        "the level is 1, where not all cells pass",
        full,
        &[(22, 1)],
    )?;
    changed(rt, "the level is 21, above the top", full, &[(22, 21)])?;
    changed(rt, "the number of cells is 503", full, &[(24, 503)])?;
    changed(
        rt,
        "the number of cells is 378, one block less",
        full,
        &[(24, 378)],
    )?;
    changed(rt, "byte 26 is 1", full, &[(26, 1)])?;
    changed(rt, "block 2 says it is block 3", full, &[(1024, 3)])?;
    changed(rt, "block 1 says it holds 125 cells", full, &[(514, 125)])?;
    changed(rt, "the second cell is 1 again", full, &[(520, 1)])?;
    changed(rt, "the last cell is above n", full, &[(2554, 4)])
}

// Right checks again: a cell past the last one, and which of two faults is named.
pub fn read_changed_twice(rt: &impl Print, full: [u8; 2560]) -> io::Result<()> {
    let what = "503 cells, and the last one is left over";
    changed(rt, what, full, &[(24, 503), (2050, 125)])?;
    let what = "the mark is POT2, and the capacity is 505";
    changed(rt, what, full, &[(2, 12884), (20, 505)])?;
    let what = "the capacity is 505, and block 1 says it holds 125 cells";
    changed(rt, what, full, &[(20, 505), (514, 125)])
}

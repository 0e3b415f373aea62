// Writes images and reads them back, then reads torn and damaged ones. Each line says what was answered.
#![tactic(auto)]

use sketch::Sketch;
use std::io;

mod damaged;
mod words;

use words::{print_answer, yes_or_no};

// The length of the image; 0 where it was refused.
fn written(k: Sketch, room: &mut [u8]) -> usize {
    image::write(k, room).unwrap_or(0)
}

// The sketch that was written, and the one that was read.
fn compare(rt: &impl Print, j: Sketch, k: Sketch) -> io::Result<()> {
    let settings = j.settings == k.settings;
    print!(rt; "; same settings: {}", yes_or_no(settings))?;
    let level = j.level == k.level;
    print!(rt; "; same level, {}: {}", k.level, yes_or_no(level))?;
    let count = j.count == k.count;
    print!(rt; "; same number of cells, {}: {}", k.count, yes_or_no(count))?;
    let cells = j.cells == k.cells;
    println!(rt; "; same cells: {}", yes_or_no(cells))
}

// What follows the image in a room of bytes 165.
fn print_rest(rt: &impl Print, rest: &[u8]) -> io::Result<()> {
    let untouched = rest.iter().all(|x| *x == 165);
    print!(rt;
        "; the {} bytes after it untouched: {}",
        rest.len(),
        yes_or_no(untouched)
    )
}

fn print_read(rt: &impl Print, k: Sketch, bytes: &[u8]) -> io::Result<()> {
    let r = image::read(bytes);
    print!(rt; "; read back: ")?;
    print_answer(rt, r.answer)?;
    compare(rt, k, r.sketch)
}

// Writes an image and reads it back.
fn back(rt: &impl Print, last: u32) -> io::Result<()> {
    let k = seen::up_to(last);
    let mut room = [165u8; 2560];
    let n = written(k, &mut room);
    print!(rt; "cells seen: {last}; image: {n} bytes")?;
    if let Some((image, rest)) = room.split_at_checked(n) {
        print_rest(rt, rest)?;
        print_read(rt, k, image)?;
    }
    Ok(())
}

fn read_back(rt: &impl Print) -> io::Result<()> {
    back(rt, 0)?;
    back(rt, 1)?;
    back(rt, 126)?;
    back(rt, 127)?;
    back(rt, 504)?;
    back(rt, 200000)
}

fn main(rt: HostRuntime) -> io::Result<()> {
    read_back(&rt)?;
    damaged::read_torn(&rt)?;
    let full = damaged::full_image();
    damaged::read_flipped(&rt, full)?;
    damaged::read_changed(&rt, full)?;
    damaged::read_changed_twice(&rt, full)?;
    damaged::read_not_full(&rt)
}

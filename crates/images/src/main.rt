// Prints one image of each length, 512 to 2,560 bytes, and one of a sample above level 0, as hex. What it must print was worked
// out by tests/images.py, which shares nothing with the library.
#![tactic(auto)]

use std::io;

fn print_line(rt: &impl Print, bytes: &[u8]) -> io::Result<()> {
    for x in bytes {
        print!(rt; "{x:02x}")?;
    }
    println!(rt)
}

// Lines of 32 bytes each.
fn print_lines(rt: &impl Print, bytes: &[u8]) -> io::Result<()> {
    for line in bytes.chunks_exact(32) {
        print_line(rt, line)?;
    }
    Ok(())
}

fn print_image(rt: &impl Print, last: u32) -> io::Result<()> {
    let mut room = [0u8; 2560];
    println!(rt; "cells seen: {last}")?;
    let n = image::write(seen::up_to(last), &mut room).unwrap_or(0);
    print_lines(rt, room.get(..n).unwrap_or(b""))
}

fn main(rt: HostRuntime) -> io::Result<()> {
    print_image(&rt, 0)?;
    print_image(&rt, 100)?;
    print_image(&rt, 200)?;
    print_image(&rt, 300)?;
    print_image(&rt, 504)?;
    print_image(&rt, 200000)
}

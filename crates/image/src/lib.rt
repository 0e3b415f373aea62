// The image of a sketch: writing it into lent room, and reading it back.
#![tactic(auto)]

ghost use Rattle.std.specs.Prelude.{◌≡◌, length};
ghost use Rattle.sketch.specs.Sketches.{held_of};
ghost use Rattle.image.specs.Calls.{Writes, Reads, loaded_with};

use layout::writer::put_image;
use layout::{BLOCK, blocks_for};
use rule::Settings;
use rule::refusals::{ReadError, Refusal};
use sketch::lent::Lent;
use sketch::{Changed, PLACES, Sketch};

mod reader;

// A sketch but for its cells, which go into a row that the caller lends.
#[derive(Clone, Copy)]
pub struct Header {
    pub settings: Settings,
    pub level: u32,
    pub count: u32,
}

// Writes the image at the start of the room, and leaves what follows it untouched: answers the
// image's length.
pub fn write_from(sketch: Lent<'_>, room: &mut [u8]) -> Result<usize, Refusal>
    ensures { Writes (held_of sketch.entry) room.old result room.new }
{
    if !sketch.good() {
        return Err(Refusal::NotOne);
    }
    let n = sketch.count as usize;
    let len = BLOCK * (1 + blocks_for(n));
    if room.len() < len {
        return Err(Refusal::NoRoom);
    }
    put_image(
        &mut room[0..len],
        sketch.settings,
        sketch.level,
        &sketch.cells[..n],
    );
    Ok(len)
}

// The same of a sketch by value.
pub fn write(sketch: Sketch, room: &mut [u8]) -> Result<usize, Refusal>
    ensures { Writes sketch room.old result room.new }
{
    write_from(sketch.lent(), room)
}

// Reads an image, and leaves the sketch's cells in the row lent, or zeros with a refusal. It tests
// the bytes where they stand, and never writes the image anew to compare.
pub fn read_into(bytes: &[u8], cells: &mut [u32]) -> Result<Header, ReadError>
    requires { length cells.old ≡ 504 }
    ensures { Reads bytes.now (loaded_with result cells.new) }
{
    cells.fill(0);
    if !reader::right_length(bytes.len()) {
        return Err(ReadError::Image);
    }
    if let Some(wrong) = reader::first_wrong(bytes) {
        let block = wrong as u32;
        return Err(ReadError::Check { block });
    }
    if !reader::has_mark(bytes) {
        return Err(ReadError::Image);
    }
    reader::read_marked(bytes, cells)
}

// The same, with the sketch by value: all zeros with a refusal.
pub fn read(bytes: &[u8]) -> Changed<ReadError>
    ensures { Reads bytes.now result }
{
    let mut cells = [0u32; PLACES];
    match read_into(bytes, &mut cells) {
        Ok(header) => Changed::done(Sketch {
            settings: header.settings,
            level: header.level,
            count: header.count,
            cells,
        }),
        Err(error) => Changed::refused(error, sketch::no_sketch()),
    }
}

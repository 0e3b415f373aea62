// The boundary as C and Rust link it: the calls of `host`, exported under their names. A crate is a
// library for other crates or a static library, and not both, so this one is thin: each call hands
// on what it is lent, and promises what `host` does. They stand in the order of include/pot.h.
#![tactic(auto)]

ghost use Rattle.find.specs.Finding.{count_on, next_on};
ghost use Rattle.sketch.specs.Estimates.{estimate_on};
ghost use Rattle.plain.specs.Plain.{plain_count_on, plain_next_on};
ghost use Rattle.crossing.specs.Crossing.{settings_from, sketch_in, walker_in, Crosses, Weighs};
ghost use Rattle.host.specs.Promises.{Opens, Adds, PlainAdds, AddsRow, Merges, ReadsIn, WritesOut, Begins, Moves};

use crossing::told::{ToldBlock, ToldCell, ToldDouble, ToldLength, ToldPlace, ToldValue};
use crossing::{SETTINGS, SKETCH, WALKER};
use row::Stretch;

#[unsafe(no_mangle)]
pub extern "C" fn pot_open(settings: &[u32; SETTINGS], sketch: &mut [u32; SKETCH]) -> u32
    ensures { Opens settings.now result sketch.new }
{
    host::pot_open(settings, sketch)
}

#[unsafe(no_mangle)]
pub extern "C" fn pot_add(sketch: &mut [u32; SKETCH], lo: u32, hi: u32) -> u32
    ensures { Adds sketch.old lo hi result sketch.new }
{
    host::pot_add(sketch, lo, hi)
}

#[unsafe(no_mangle)]
pub extern "C" fn pot_add_row(sketch: &mut [u32; SKETCH], row: &[Stretch]) -> ToldPlace
    ensures { AddsRow sketch.old row.now result.number result.place sketch.new }
{
    host::pot_add_row(sketch, row)
}

#[unsafe(no_mangle)]
pub extern "C" fn pot_merge(sketch: &mut [u32; SKETCH], other: &[u32; SKETCH]) -> u32
    ensures { Merges sketch.old other.now result sketch.new }
{
    host::pot_merge(sketch, other)
}

#[unsafe(no_mangle)]
pub extern "C" fn pot_estimate(sketch: &[u32; SKETCH]) -> ToldDouble
    ensures { Weighs (estimate_on (sketch_in sketch.now)) result.number result.exact result.value }
{
    host::pot_estimate(sketch)
}

#[unsafe(no_mangle)]
pub extern "C" fn pot_count(settings: &[u32; SETTINGS], level: u32, lo: u32, hi: u32) -> ToldValue
    ensures { Crosses (count_on (settings_from settings.now) level lo hi) result.number result.value }
{
    host::pot_count(settings, level, lo, hi)
}

#[unsafe(no_mangle)]
pub extern "C" fn pot_next_hit(settings: &[u32; SETTINGS], level: u32, from: u32) -> ToldValue
    ensures { Crosses (next_on (settings_from settings.now) level from) result.number result.value }
{
    host::pot_next_hit(settings, level, from)
}

#[unsafe(no_mangle)]
pub extern "C" fn pot_walker_open(
    settings: &[u32; SETTINGS],
    level: u32,
    lo: u32,
    hi: u32,
    walker: &mut [u32; WALKER],
) -> u32
    ensures { Begins (settings_from settings.now) level lo hi result walker.new }
{
    host::pot_walker_open(settings, level, lo, hi, walker)
}

#[unsafe(no_mangle)]
pub extern "C" fn pot_walker_next(walker: &mut [u32; WALKER]) -> ToldCell
    ensures { Moves (walker_in walker.old) result.number result.cell walker.new }
{
    host::pot_walker_next(walker)
}

#[unsafe(no_mangle)]
pub extern "C" fn pot_write(sketch: &[u32; SKETCH], room: &mut [u8]) -> ToldLength
    ensures { WritesOut (sketch_in sketch.now) room.old result.number result.length room.new }
{
    host::pot_write(sketch, room)
}

#[unsafe(no_mangle)]
pub extern "C" fn pot_read(bytes: &[u8], sketch: &mut [u32; SKETCH]) -> ToldBlock
    ensures { ReadsIn bytes.now result.number result.block sketch.new }
{
    host::pot_read(bytes, sketch)
}

#[unsafe(no_mangle)]
pub extern "C" fn pot_plain_count(
    settings: &[u32; SETTINGS],
    level: u32,
    lo: u32,
    hi: u32,
) -> ToldValue
    ensures { Crosses (plain_count_on (settings_from settings.now) level lo hi) result.number result.value }
{
    host::pot_plain_count(settings, level, lo, hi)
}

#[unsafe(no_mangle)]
pub extern "C" fn pot_plain_next_hit(settings: &[u32; SETTINGS], level: u32, from: u32) -> ToldValue
    ensures { Crosses (plain_next_on (settings_from settings.now) level from) result.number result.value }
{
    host::pot_plain_next_hit(settings, level, from)
}

#[unsafe(no_mangle)]
pub extern "C" fn pot_plain_add(sketch: &mut [u32; SKETCH], lo: u32, hi: u32) -> u32
    ensures { PlainAdds sketch.old lo hi result sketch.new }
{
    host::pot_plain_add(sketch, lo, hi)
}

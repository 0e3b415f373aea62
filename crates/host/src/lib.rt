// The boundary for C and Rust: numbers, lent numbers and lent bytes, and nothing else. Settings
// cross as 5 numbers, a walker as 8, a sketch as 511, each of 32 bits. Every call takes whatever
// stands there: a forged row is answered by the library's own tests, and no call asks anything.
#![tactic(auto)]

ghost use Rattle.std.specs.Prelude.{◌≡◌};
ghost use Rattle.find.specs.Finding.{count_on, next_on};
ghost use Rattle.sketch.specs.Estimates.{estimate_on};
ghost use Rattle.plain.specs.Plain.{plain_count_on, plain_next_on};
ghost use Rattle.crossing.specs.Crossing.{settings_from, sketch_in, walker_in, Crosses, Weighs};
ghost use Rattle.host.specs.Promises.{Opens, Adds, PlainAdds, AddsRow, Merges, ReadsIn, WritesOut, Begins, Moves};

pub mod stretches;

use crossing::told::{
    ToldBlock, ToldCell, ToldDouble, ToldLength, ToldPlace, ToldValue, number_of,
};
use crossing::{
    SETTINGS, SKETCH, WALKER, is_sketch, kept_in, put_head, put_sketch, settings_in, sketch_lent,
    walker_in, walker_row,
};
use find::Walker;
use plain::adding::{add_answer as plain_answer, fill};
use row::{Stretch, row_answer};
use settle::merge_to;
use sketch::lent::Lent;
use sketch::order::{add_answer, merge_answer};
use sketch::{PLACES, Sketch};
use stretches::{add_each_in, add_known};

// Stores an empty sketch, or all zeros with a refusal.
pub fn pot_open(settings: &[u32; SETTINGS], sketch: &mut [u32; SKETCH]) -> u32
    ensures { Opens settings.now result sketch.new }
{
    let opened = Sketch::open(settings_in(settings));
    put_sketch(sketch, opened.sketch.lent());
    number_of(opened.answer)
}

// Adds to the row lent, or leaves it with a refusal. This call and the two like it end alike, but each
// does its own work before: one function over closures would be no plainer.
pub fn pot_add(sketch: &mut [u32; SKETCH], lo: u32, hi: u32) -> u32
    ensures { Adds sketch.old lo hi result sketch.new }
{
    match add_answer(is_sketch(sketch), settings_in(sketch), lo, hi) {
        Ok(()) => {
            add_known(sketch, lo, hi);
            0
        }
        Err(refusal) => refusal.into(),
    }
}

// The same by the plain engine, as the two after it: for n up to its limit.
pub fn pot_plain_add(sketch: &mut [u32; SKETCH], lo: u32, hi: u32) -> u32
    ensures { PlainAdds sketch.old lo hi result sketch.new }
{
    let s = settings_in(sketch);
    match plain_answer(is_sketch(sketch), s, lo, hi) {
        Ok(()) => {
            let mut out = [0u32; PLACES];
            let kept = fill(&mut out, s, kept_in(sketch), &sketch[7..], lo, hi);
            let next = Lent {
                settings: s,
                level: kept.level,
                count: kept.count,
                cells: &out,
            };
            put_sketch(sketch, next);
            0
        }
        Err(refusal) => refusal.into(),
    }
}

pub fn pot_plain_count(settings: &[u32; SETTINGS], level: u32, lo: u32, hi: u32) -> ToldValue
    ensures { Crosses (plain_count_on (settings_from settings.now) level lo hi) result.number result.value }
{
    plain::count(settings_in(settings), level, lo, hi).into()
}

pub fn pot_plain_next_hit(settings: &[u32; SETTINGS], level: u32, from: u32) -> ToldValue
    ensures { Crosses (plain_next_on (settings_from settings.now) level from) result.number result.value }
{
    ToldCell::from(plain::next_hit(settings_in(settings), level, from)).into()
}

// A row of stretches: all of it is added, or nothing.
pub fn pot_add_row(sketch: &mut [u32; SKETCH], row: &[Stretch]) -> ToldPlace
    ensures { AddsRow sketch.old row.now result.number result.place sketch.new }
{
    let answer = row_answer(is_sketch(sketch), settings_in(sketch), row);
    if answer.is_err() {
        return answer.into();
    }
    add_each_in(sketch, row);
    answer.into()
}

// Merges the second into the first, or leaves it with a refusal.
pub fn pot_merge(sketch: &mut [u32; SKETCH], other: &[u32; SKETCH]) -> u32
    ensures { Merges sketch.old other.now result sketch.new }
{
    let s = settings_in(sketch);
    match merge_answer(is_sketch(sketch), s, is_sketch(other), settings_in(other)) {
        Ok(()) => {
            let its = kept_in(other);
            let mut out = [0u32; 2 * PLACES];
            let kept = merge_to(&mut out, s, kept_in(sketch), &sketch[7..], its, &other[7..]);
            let both = Lent {
                settings: s,
                level: kept.level,
                count: kept.count,
                cells: &out[..PLACES],
            };
            put_sketch(sketch, both);
            0
        }
        Err(refusal) => refusal.into(),
    }
}

pub fn pot_estimate(sketch: &[u32; SKETCH]) -> ToldDouble
    ensures { Weighs (estimate_on (sketch_in sketch.now)) result.number result.exact result.value }
{
    let k = sketch_lent(sketch);
    k.estimate().into()
}

pub fn pot_count(settings: &[u32; SETTINGS], level: u32, lo: u32, hi: u32) -> ToldValue
    ensures { Crosses (count_on (settings_from settings.now) level lo hi) result.number result.value }
{
    find::count(settings_in(settings), level, lo, hi).into()
}

pub fn pot_next_hit(settings: &[u32; SETTINGS], level: u32, from: u32) -> ToldValue
    ensures { Crosses (next_on (settings_from settings.now) level from) result.number result.value }
{
    ToldCell::from(find::next_hit(settings_in(settings), level, from)).into()
}

pub fn pot_walker_open(
    settings: &[u32; SETTINGS],
    level: u32,
    lo: u32,
    hi: u32,
    walker: &mut [u32; WALKER],
) -> u32
    ensures { Begins (settings_from settings.now) level lo hi result walker.new }
{
    let started = Walker::open(settings_in(settings), level, lo, hi);
    *walker = walker_row(started.walker);
    number_of(started.answer)
}

pub fn pot_walker_next(walker: &mut [u32; WALKER]) -> ToldCell
    ensures { Moves (walker_in walker.old) result.number result.cell walker.new }
{
    let stepped = walker_in(walker).step();
    *walker = walker_row(stepped.walker);
    stepped.found.into()
}

pub fn pot_write(sketch: &[u32; SKETCH], room: &mut [u8]) -> ToldLength
    ensures { WritesOut (sketch_in sketch.now) room.old result.number result.length room.new }
{
    image::write_from(sketch_lent(sketch), room).into()
}

// Reads an image straight into the row lent, which is all zeros after a refusal.
pub fn pot_read(bytes: &[u8], sketch: &mut [u32; SKETCH]) -> ToldBlock
    ensures { ReadsIn bytes.now result.number result.block sketch.new }
{
    match image::read_into(bytes, &mut sketch[7..]) {
        Ok(head) => {
            put_head(sketch, head.settings, head.level, head.count);
            Ok(()).into()
        }
        Err(error) => {
            put_head(sketch, rule::no_settings(), 0, 0);
            Err(error).into()
        }
    }
}

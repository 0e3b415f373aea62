// How settings, sketches and walkers stand in rows of numbers; `told` has the answers.
#![tactic(auto)]

ghost use Rattle.std.specs.Prelude.{◌≡◌, ◌≤◌, length, drop};
ghost use Rattle.sketch.specs.Sketches.{held, held_of, is_sketch, kept_of};
ghost use Rattle.crossing.specs.Crossing.{settings_from, sketch_in, sketch_row, walker_in, walker_row};

pub mod told;

use find::Walker;
use rule::Settings;
use settle::Kept;
use sketch::lent::Lent;

// The lengths of the rows.
pub const SETTINGS: usize = 5;

pub const SKETCH: usize = 511;

pub const WALKER: usize = 8;

// The settings that a row begins with. Functions and no `From`, here and below: settings and walkers are
// other crates' types, and rows are std's.
pub fn settings_in(row: &[u32]) -> Settings
    requires { 5 ≤ length row.now }
    ensures { result ≡ settings_from row.now }
{
    Settings {
        n: row[0],
        p: row[1],
        a: row[2],
        b: row[3],
        capacity: row[4],
    }
}

// The level, and how many cells are kept.
pub fn kept_in(row: &[u32; SKETCH]) -> Kept
    ensures { result ≡ kept_of (sketch_in row.now) }
{
    Kept {
        level: row[5],
        count: row[6],
    }
}

// The sketch of a row, lent where it stands.
pub fn sketch_lent(row: &[u32; SKETCH]) -> Lent<'_>
    ensures { held_of result ≡ sketch_in row.now }
{
    let kept = kept_in(row);
    Lent {
        settings: settings_in(row),
        level: kept.level,
        count: kept.count,
        cells: &row[7..],
    }
}

// Is the row a sketch's?
pub fn is_sketch(row: &[u32; SKETCH]) -> bool
    ensures { result ≡ is_sketch (sketch_in row.now) }
{
    sketch_lent(row).good()
}

// Stores the seven numbers before the cells.
pub fn put_head(row: &mut [u32; SKETCH], s: Settings, level: u32, count: u32)
    ensures { row.new ≡ sketch_row (held s level count (drop 7 row.old)) }
{
    row[0] = s.n;
    row[1] = s.p;
    row[2] = s.a;
    row[3] = s.b;
    row[4] = s.capacity;
    row[5] = level;
    row[6] = count;
}

// Stores a whole sketch.
pub fn put_sketch(row: &mut [u32; SKETCH], sketch: Lent<'_>)
    ensures { row.new ≡ sketch_row (held_of sketch.entry) }
{
    stores::store(row, 7, sketch.cells);
    put_head(row, sketch.settings, sketch.level, sketch.count);
}

pub fn walker_in(row: &[u32; WALKER]) -> Walker
    ensures { result ≡ walker_in row.now }
{
    Walker {
        settings: settings_in(row),
        level: row[5],
        at: row[6],
        hi: row[7],
    }
}

pub fn walker_row(w: Walker) -> [u32; WALKER]
    ensures { result ≡ walker_row w }
{
    let s = w.settings;
    [s.n, s.p, s.a, s.b, s.capacity, w.level, w.at, w.hi]
}

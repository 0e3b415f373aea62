// Stretches added to the sketch lent, in place.
ghost use Rattle.std.specs.Prelude.{◌≡◌, true};
ghost use Rattle.find.specs.Finding.{in_range};
ghost use Rattle.sketch.specs.Sketches.{Sound, add};
ghost use Rattle.row.specs.Stretches.{add_all, AddsAll};
ghost use Rattle.crossing.specs.Crossing.{sketch_in, sketch_row};

use crossing::{SKETCH, kept_in, put_head, settings_in};
use row::Stretch;
use settle::add_to;

// Adds to numbers that are known to be a sketch's.
pub fn add_known(sketch: &mut [u32; SKETCH], lo: u32, hi: u32)
    requires { Sound (sketch_in sketch.old) × (in_range (sketch_in sketch.old).settings lo hi ≡ true) }
    ensures { sketch.new ≡ sketch_row (add (sketch_in sketch.old) lo hi) }
{
    let s = settings_in(sketch);
    let mine = kept_in(sketch);
    let kept = add_to(&mut sketch[7..], s, mine, lo, hi);
    put_head(sketch, s, kept.level, kept.count);
}

// Adds each in turn: the loop of `row::add_each` on the numbers lent, since a sketch by value would be
// copied at each stretch.
pub fn add_each_in(sketch: &mut [u32; SKETCH], row: &[Stretch])
    requires { AddsAll (sketch_in sketch.old) row.now }
    ensures { sketch.new ≡ sketch_row (add_all (sketch_in sketch.old) row.now) }
{
    for s in row {
        add_known(sketch, s.lo, s.hi);
    }
}

// The sketches that the programs on images write: under one set of settings, of the stretch 1..last.
// tests/images.py has the same settings.
#![tactic(auto)]

ghost use Rattle.std.specs.Prelude.{◌≡◌};
ghost use Rattle.seen.specs.Seen.{up_to};

use rule::Settings;
use sketch::Sketch;

// The sketch that saw 1..last. Where last is 0 nothing was seen: the stretch is refused, and the sketch
// comes back as it was opened.
#[tactic(auto, unfolding(crate::specs::Seen::up_to))]
pub fn up_to(last: u32) -> Sketch
    ensures { result ≡ up_to last }
{
    let opened = Sketch::open(Settings {
        n: 200000,
        p: 2000003,
        a: 1234567,
        b: 89,
        capacity: 504,
    });
    let added = opened.sketch.add(1, last);
    added.sketch
}

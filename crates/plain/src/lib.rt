// A second engine, for small kitchens: it counts, finds and adds by testing each cell, as one does
// with a pencil. No folding and no jumps: what it does can be followed cell by cell.
#![tactic(auto)]

ghost use Rattle.std.specs.Prelude.{◌≡◌, cond, ◌≤◌};
ghost use Rattle.rule.specs.Rule.{passes};
ghost use Rattle.rule.specs.Samples.{range_count, next_hit};
ghost use Rattle.rule.specs.Refusals.{of_counted, of_found};
ghost use Rattle.find.specs.Finding.{in_range};
ghost use Rattle.sketch.specs.Sketches.{Sound, add};
ghost use Rattle.sketch.specs.Calls.{Hands};
ghost use Rattle.plain.specs.Plain.{limit, is_small, plain_count_on, plain_next_on, plain_add_on, PlainRefuses};

pub mod adding;

use adding::{add_answer, fill};
use rule::Settings;
use rule::refusals::Refusal;
use settle::Kept;
use sketch::{Changed, PLACES, Sketch};

// The greatest n of this engine.
pub const LIMIT: u32 = 4096;

pub fn is_small(settings: Settings) -> bool
    ensures { result ≡ is_small settings }
{
    settings.n <= LIMIT
}

// This test and the orders of refusals, here and in `adding`, are this engine's own: of the first it takes the settings' test, the
// hash and what a sketch is, as the rules have it, and nothing else.

// lo..hi are cells, and lo is not above hi.
fn in_range(settings: Settings, lo: u32, hi: u32) -> bool
    ensures { result ≡ in_range settings lo hi }
{
    (1 <= lo) & ((lo <= hi) & (hi <= settings.n))
}

// Whether a count or a next hit is refused, and with what. `inside` says whether the call's range is
// right.
fn refusal(settings: Settings, level: u32, inside: bool) -> Result<(), Refusal>
    ensures { PlainRefuses settings level inside result }
{
    if !is_small(settings) {
        return Err(Refusal::Settings);
    }
    if !settings.good() {
        return Err(Refusal::Settings);
    }
    if !settings.has_level(level) {
        return Err(Refusal::Level);
    }
    if !inside {
        return Err(Refusal::Range);
    }
    Ok(())
}

// What a cell counts: 1 where it passes at the level, and otherwise 0.
pub fn counts(settings: Settings, level: u32, x: u32) -> u32
    ensures { result ≡ cond (passes settings level x) 1 0 }
{
    if settings.passes(level, x) { 1 } else { 0 }
}

// What the cells of lo..hi count together: a loop that one can follow on paper, as docs/KITCHEN.md does.
fn count_each(settings: Settings, level: u32, lo: u32, hi: u32) -> u32
    requires { hi ≤ limit }
    ensures { result ≡ range_count settings level lo hi }
{
    let mut many: u32 = 0;
    for x in lo..=hi {
        many += counts(settings, level, x);
    }
    many
}

// The first cell of from..last that passes: each is tested, until one does.
fn first_of(settings: Settings, level: u32, from: u32, last: u32) -> Option<u32>
    ensures { result ≡ next_hit settings level from last }
{
    for x in from..=last {
        if settings.passes(level, x) {
            return Some(x);
        }
    }
    None
}

// How many cells of lo..hi pass at a level.
pub fn count(settings: Settings, level: u32, lo: u32, hi: u32) -> Result<u32, Refusal>
    ensures { of_counted result ≡ plain_count_on settings level lo hi }
{
    refusal(settings, level, in_range(settings, lo, hi))?;
    Ok(count_each(settings, level, lo, hi))
}

// The least cell from `from` up to n that passes at a level.
pub fn next_hit(settings: Settings, level: u32, from: u32) -> Result<Option<u32>, Refusal>
    ensures { of_found result ≡ plain_next_on settings level from }
{
    refusal(settings, level, in_range(settings, from, settings.n))?;
    Ok(first_of(settings, level, from, settings.n))
}

// What adding makes of a sketch where nothing refuses it.
fn added(sketch: Sketch, lo: u32, hi: u32) -> Sketch
    requires { Sound sketch × (sketch.settings.n ≤ limit) }
    ensures { result ≡ add sketch lo hi }
{
    let settings = sketch.settings;
    let kept = Kept {
        level: sketch.level,
        count: sketch.count,
    };
    let mut cells = [0u32; PLACES];
    let next = fill(&mut cells, settings, kept, &sketch.cells, lo, hi);
    Sketch {
        settings,
        level: next.level,
        count: next.count,
        cells,
    }
}

// Adds lo..hi to a sketch, or hands it back as it was with a refusal.
pub fn add(sketch: Sketch, lo: u32, hi: u32) -> Changed<Refusal>
    ensures { Hands (plain_add_on sketch lo hi) (add sketch lo hi) sketch result }
{
    match add_answer(sketch.good(), sketch.settings, lo, hi) {
        Ok(()) => {
            let next = added(sketch, lo, hi);
            Changed {
                answer: Ok(()),
                sketch: next,
            }
        }
        Err(refusal) => Changed {
            answer: Err(refusal),
            sketch,
        },
    }
}

// A whole row of stretches in one call: all of it is added, or nothing.
//
// The row is lent and only read. The functions that walk it are few and thin: what they call takes
// and hands back values.
#![tactic(auto)]

ghost use Rattle.std.specs.Prelude.{◌≡◌, [], ◌∷◌};
ghost use Rattle.row.specs.Stretches.{within, bad_place, add_all, judged_at, row_when, row_on, AddsAll, HandsRow};
ghost use Rattle.rule.specs.Refusals.{of_row};

use rule::Settings;
use rule::refusals::RowError;
use sketch::{Changed, Sketch};

// The cells lo..hi.
#[repr(C)]
#[derive(Clone, Copy)]
pub struct Stretch {
    pub lo: u32,
    pub hi: u32,
}

// Is the stretch in range?
fn is_in(settings: Settings, s: Stretch) -> bool
    ensures { result ≡ within settings s }
{
    find::in_range(settings, s.lo, s.hi)
}

// The first place whose stretch isn't in range, where there is one.
fn first_bad(settings: Settings, row: &[Stretch]) -> Option<usize>
    ensures { result ≡ bad_place settings row.now }
{
    row.iter().position(|s| !is_in(settings, *s))
}

// In which order a row is refused, where its first bad place is known: it is said here, and nowhere
// else. `known` is the answer of a test, as in `row_answer`.
fn judged(known: bool, bad: Option<usize>) -> Result<(), RowError>
    ensures { of_row result ≡ judged_at known bad }
{
    if !known {
        return Err(RowError::NotOne);
    }
    match bad {
        Some(place) => Err(RowError::Range { place }),
        None => Ok(()),
    }
}

// To adding a row, where it is known whether something with these settings is a sketch: the settings
// are there whatever it is.
pub fn row_answer(known: bool, settings: Settings, row: &[Stretch]) -> Result<(), RowError>
    ensures { of_row result ≡ row_when known settings row.now }
{
    judged(known, first_bad(settings, row))
}

// Adds each in turn to what is known to be a sketch.
fn add_each(sketch: Sketch, row: &[Stretch]) -> Sketch
    requires { AddsAll sketch row.now }
    ensures { result ≡ add_all sketch row.now }
{
    let mut k = sketch;
    for s in row {
        k = k.added(s.lo, s.hi);
    }
    k
}

// The sketch is tested once, and the row is looked at before anything is added.
pub fn add_row(sketch: Sketch, row: &[Stretch]) -> Changed<RowError>
    ensures { HandsRow (row_on sketch row.now) (add_all sketch row.now) sketch result }
{
    match row_answer(sketch.good(), sketch.settings, row) {
        Ok(()) => Changed::done(add_each(sketch, row)),
        Err(error) => Changed::refused(error, sketch),
    }
}

// Two stretches by value, for callers that have no row to lend: a local row is lent here.
pub fn add_two(sketch: Sketch, first: Stretch, second: Stretch) -> Changed<RowError>
    ensures { HandsRow (row_on sketch (first ∷ second ∷ [])) (add_all sketch (first ∷ second ∷ [])) sketch result }
{
    let row = [first, second];
    add_row(sketch, &row)
}

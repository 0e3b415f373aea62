// The sketch, by value: is it one, opening, adding, merging, the estimate.
#![tactic(auto)]

ghost use Rattle.std.specs.Prelude.{◌≡◌, true, ◌^◌, ◌≤◌};
ghost use Rattle.find.specs.Finding.{in_range};
ghost use Rattle.sketch.specs.Sketches.{held_of, is_sketch, kept_of, Sound, opened, add, merge};
ghost use Rattle.sketch.specs.Calls.{Hands, done_with, refused_with, no_sketch, open_on, add_on, merge_on};
ghost use Rattle.sketch.specs.Estimates.{times_p, stands_at, float_at, Estimates};

use rule::Settings;
use rule::refusals::Refusal;

pub mod estimates;
pub mod lent;
pub mod order;

use estimates::Estimate;
use lent::Lent;
use settle::Kept;

// The places of a sketch's row.
pub const PLACES: usize = settle::PLACES;

// A level, and the cells kept at it: the first `count` places, rising, with zeros after them. A fixed
// row, as the rules have it: a sketch travels by value, without a heap.
#[derive(Clone, Copy, PartialEq, Eq)]
pub struct Sketch {
    pub settings: Settings,
    pub level: u32,
    pub count: u32,
    pub cells: [u32; PLACES],
}

// The answer, and the sketch beside it: one is handed back with a refusal too.
#[derive(Clone, Copy)]
pub struct Changed<E> {
    pub answer: Result<(), E>,
    pub sketch: Sketch,
}

impl<E> Changed<E> {
    pub fn done(next: Sketch) -> Changed<E>
        ensures { result ≡ done_with next }
    {
        Changed {
            answer: Ok(()),
            sketch: next,
        }
    }

    pub fn refused(error: E, kept: Sketch) -> Changed<E>
        ensures { result ≡ refused_with error kept }
    {
        Changed {
            answer: Err(error),
            sketch: kept,
        }
    }
}

// The sketch of all zeros, which isn't a sketch.
pub fn no_sketch() -> Sketch
    ensures { result ≡ no_sketch }
{
    Sketch {
        settings: rule::no_settings(),
        level: 0,
        count: 0,
        cells: [0; PLACES],
    }
}

fn times_p(settings: Settings, count: u32) -> u64
    ensures { result ≡ times_p settings count }
{
    u64::from(count) * u64::from(settings.p)
}

// How many cells so many kept at a level stand for, in whole numbers: whoever prints it asks here. A
// level above the top has no region, and nothing is kept there.
pub fn stands_at(settings: Settings, level: u32, count: u32) -> u64
    ensures { result ≡ stands_at settings level count }
{
    let region = settings.region(level);
    if region == 0 {
        return 0;
    }
    times_p(settings, count) / u64::from(region)
}

// The same as a float. What is kept, times p, is below 2^53, so that only the division rounds.
fn float_at(settings: Settings, level: u32, count: u32) -> f64
    requires { times_p settings count ≤ 2 ^ 53 }
    ensures { result ≡ float_at settings level count }
{
    floats::over(times_p(settings, count), u64::from(settings.region(level)))
}

impl Sketch {
    pub fn lent(&self) -> Lent<'_>
        ensures { held_of result ≡ self.now }
    {
        Lent {
            settings: self.settings,
            level: self.level,
            count: self.count,
            cells: &self.cells,
        }
    }

    pub fn good(self) -> bool
        ensures { result ≡ is_sketch self }
    {
        self.lent().good()
    }

    pub fn open(settings: Settings) -> Changed<Refusal>
        ensures { Hands (open_on settings) (opened settings) no_sketch result }
    {
        if !settings.good() {
            return Changed::refused(Refusal::Settings, no_sketch());
        }
        Changed::done(Sketch {
            settings,
            level: 0,
            count: 0,
            cells: [0; PLACES],
        })
    }

    fn kept(self) -> Kept
        ensures { result ≡ kept_of self }
    {
        Kept {
            level: self.level,
            count: self.count,
        }
    }

    // What adding makes of a sketch where nothing refuses it: a run of adds tests the sketch once.
    pub fn added(self, lo: u32, hi: u32) -> Sketch
        requires { Sound self × (in_range self.settings lo hi ≡ true) }
        ensures { result ≡ add self lo hi }
    {
        let settings = self.settings;
        let mut cells = self.cells;
        let kept = settle::add_to(&mut cells, settings, self.kept(), lo, hi);
        Sketch {
            settings,
            level: kept.level,
            count: kept.count,
            cells,
        }
    }

    pub fn add(self, lo: u32, hi: u32) -> Changed<Refusal>
        ensures { Hands (add_on self lo hi) (add self lo hi) self result }
    {
        match order::add_answer(self.good(), self.settings, lo, hi) {
            Ok(()) => {
                let next = self.added(lo, hi);
                Changed::done(next)
            }
            Err(refusal) => Changed::refused(refusal, self),
        }
    }

    // What merging makes of two sketches with the same settings.
    fn merged(self, other: Sketch) -> Sketch
        requires { Sound self × Sound other × (self.settings ≡ other.settings) }
        ensures { result ≡ merge self other }
    {
        let settings = self.settings;
        let its = other.kept();
        let mut both = [0u32; 2 * PLACES];
        let kept = settle::merge_to(
            &mut both,
            settings,
            self.kept(),
            &self.cells,
            its,
            &other.cells,
        );
        let mut cells = [0u32; PLACES];
        stores::store(&mut cells, 0, &both[..PLACES]);
        Sketch {
            settings,
            level: kept.level,
            count: kept.count,
            cells,
        }
    }

    pub fn merge(self, other: Sketch) -> Changed<Refusal>
        ensures { Hands (merge_on self other) (merge self other) self result }
    {
        match order::merge_answer(self.good(), self.settings, other.good(), other.settings) {
            Ok(()) => {
                let both = self.merged(other);
                Changed::done(both)
            }
            Err(cause) => Changed::refused(cause, self),
        }
    }

    pub fn estimate(self) -> Estimate
        ensures { Estimates self result }
    {
        self.lent().estimate()
    }
}

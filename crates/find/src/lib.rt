// Counting and finding the passing cells of a range, without a walk over its cells.
#![tactic(auto)]

ghost use Rattle.std.specs.Prelude.{◌≡◌, Err};
ghost use Rattle.rule.specs.Samples.{range_count, next_hit};
ghost use Rattle.rule.specs.Refusals.{of_counted, of_found};
ghost use Rattle.find.specs.Finding.{is_cell, in_range, Refuses, count_on, next_on, Within, Handed};
ghost use Rattle.find.specs.Walking.{Starts, Steps, is_walker, no_walker};

use rule::Settings;
use rule::refusals::Refusal;

// lo..hi are cells, and lo is not above hi.
pub fn in_range(settings: Settings, lo: u32, hi: u32) -> bool
    ensures { result ≡ in_range settings lo hi }
{
    (1 <= lo) & ((lo <= hi) & (hi <= settings.n))
}

pub fn is_cell(settings: Settings, x: u32) -> bool
    ensures { result ≡ is_cell settings x }
{
    (1 <= x) & (x <= settings.n)
}

// The hashes of lo..hi: a progression modulo p, with the difference a. Those below `size` pass.
#[derive(Clone, Copy)]
struct Hashes {
    p: u64,
    a: u64,
    start: u64,
    cells: u64,
    size: u64,
}

fn progression(settings: Settings, level: u32, lo: u32, hi: u32) -> Hashes
    requires { Within settings lo hi }
    ensures { Handed settings level lo hi result }
{
    Hashes {
        p: u64::from(settings.p),
        a: u64::from(settings.a),
        start: settings.hash(lo),
        cells: u64::from(hi) + 1 - u64::from(lo),
        size: u64::from(settings.region(level)),
    }
}

// The four numbers stay parameters, as the public calls have them; `Within` says what is known of them.

// How many cells of lo..hi pass: at level 0 all of them. Else their hashes are taken in the direction
// whose difference is at most half of p.
pub fn count_in(settings: Settings, level: u32, lo: u32, hi: u32) -> u32
    requires { Within settings lo hi }
    ensures { result ≡ range_count settings level lo hi }
{
    if level == 0 {
        return hi + 1 - lo;
    }
    let h = progression(settings, level, lo, hi);
    let many = if h.a <= h.p - h.a {
        count::count_up(h.p, h.a, h.start, h.cells, h.size)
    } else {
        count::count_down(h.p, h.p - h.a, h.start, h.cells, h.size)
    };
    many as u32
}

// The first cell of lo..hi that passes.
pub fn first_in(settings: Settings, level: u32, lo: u32, hi: u32) -> Option<u32>
    requires { Within settings lo hi }
    ensures { result ≡ next_hit settings level lo hi }
{
    // At level 0 every cell passes.
    if (level == 0) & (lo <= hi) {
        return Some(lo);
    }
    let h = progression(settings, level, lo, hi);
    let i = next::next_hit(h.p, h.a, h.start, h.size, h.cells)?;
    Some((u64::from(lo) + i) as u32)
}

// Whether a call on settings is refused, and with what. `inside` says whether the call's range is right.
fn first_refusal(settings: Settings, level: u32, inside: bool) -> Result<(), Refusal>
    ensures { Refuses settings level inside result }
{
    if !settings.good() {
        return Err(Refusal::Settings);
    }
    if !settings.has_level(level) {
        return Err(Refusal::Level);
    }
    if !inside {
        return Err(Refusal::Range);
    }
    Ok(())
}

// How many cells of lo..hi pass at a level.
pub fn count(settings: Settings, level: u32, lo: u32, hi: u32) -> Result<u32, Refusal>
    ensures { of_counted result ≡ count_on settings level lo hi }
{
    first_refusal(settings, level, in_range(settings, lo, hi))?;
    Ok(count_in(settings, level, lo, hi))
}

// The least cell from `from` up to n that passes at a level.
pub fn next_hit(settings: Settings, level: u32, from: u32) -> Result<Option<u32>, Refusal>
    ensures { of_found result ≡ next_on settings level from }
{
    first_refusal(settings, level, is_cell(settings, from))?;
    Ok(first_in(settings, level, from, settings.n))
}

// A walker over the passing cells up to hi, from its position on.
#[derive(Clone, Copy, PartialEq, Eq)]
pub struct Walker {
    pub settings: Settings,
    pub level: u32,
    pub at: u32,
    pub hi: u32,
}

// A refusal hands a walker back too, so the answer stands beside it. Two structs: an opening and a step
// differ in what they answer, and each has a promise of its own that names its fields.
#[derive(Clone, Copy)]
pub struct Started {
    pub answer: Result<(), Refusal>,
    pub walker: Walker,
}

#[derive(Clone, Copy)]
pub struct Stepped {
    pub found: Result<Option<u32>, Refusal>,
    pub walker: Walker,
}

// The walker of all zeros, with the refusal.
fn not_started(refusal: Refusal) -> Started
    ensures { (result.answer ≡ Err refusal) × (result.walker ≡ no_walker) }
{
    Started {
        answer: Err(refusal),
        walker: Walker {
            settings: rule::no_settings(),
            level: 0,
            at: 0,
            hi: 0,
        },
    }
}

impl Walker {
    pub fn open(settings: Settings, level: u32, lo: u32, hi: u32) -> Started
        ensures { Starts settings level lo hi result }
    {
        if let Err(refusal) = first_refusal(settings, level, in_range(settings, lo, hi)) {
            return not_started(refusal);
        }
        Started {
            answer: Ok(()),
            walker: Walker {
                settings,
                level,
                at: lo,
                hi,
            },
        }
    }

    #[tactic(auto, unfolding(crate::specs::Walking::is_walker))]
    pub fn good(self) -> bool
        ensures { result ≡ is_walker self }
    {
        self.settings.good()
            & (self.settings.has_level(self.level)
                & (is_cell(self.settings, self.hi)
                    & ((1 <= self.at) & (u64::from(self.at) <= u64::from(self.hi) + 1))))
    }

    // The next passing cell, and the walker after it.
    pub fn step(self) -> Stepped
        ensures { Steps self result }
    {
        if !self.good() {
            return Stepped {
                found: Err(Refusal::NotOne),
                walker: self,
            };
        }
        match first_in(self.settings, self.level, self.at, self.hi) {
            Some(x) => Stepped {
                found: Ok(Some(x)),
                walker: Walker { at: x + 1, ..self },
            },
            None => Stepped {
                found: Ok(None),
                walker: self,
            },
        }
    }
}

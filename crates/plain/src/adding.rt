// Adding lo..hi to the cells that a sketch keeps, by testing each cell of 1..n at one level after the
// other. The sample at a level is the cells that pass there and are kept, or are of lo..hi.
ghost use Rattle.std.specs.Prelude.{◌≡◌, ◌≤◌, length, replicate};
ghost use Rattle.lists.specs.Lists.{listed};
ghost use Rattle.lists.specs.Rows.{Stored};
ghost use Rattle.rule.specs.Cells.{◌∪◌, interval};
ghost use Rattle.rule.specs.Rule.{Good, top};
ghost use Rattle.rule.specs.Samples.{passing, sample, lowest};
ghost use Rattle.rule.specs.Refusals.{of_answer};
ghost use Rattle.settle.specs.Settling.{Keeps, kept_in, KeptIn};
ghost use Rattle.plain.specs.Plain.{limit, cells_of, plain_add_when};

use crate::{in_range, is_small};
use rule::Settings;
use rule::refusals::Refusal;
use settle::Kept;

// To adding lo..hi, where it is known whether something with these settings is a sketch: the settings
// are there whatever it is.
pub fn add_answer(known: bool, settings: Settings, lo: u32, hi: u32) -> Result<(), Refusal>
    ensures { of_answer result ≡ plain_add_when known settings lo hi }
{
    if !known {
        return Err(Refusal::NotOne);
    }
    if !is_small(settings) {
        return Err(Refusal::Settings);
    }
    if !in_range(settings, lo, hi) {
        return Err(Refusal::Range);
    }
    Ok(())
}

// What a sample is taken of: under these settings the cells kept, and those of lo..hi.
#[derive(Clone, Copy)]
struct Adding<'a> {
    settings: Settings,
    kept: &'a [u32],
    lo: u32,
    hi: u32,
}

impl Adding<'_> {
    // Is x in the sample at the level? A cell that is kept and in lo..hi is one cell. Laid out in the two
    // walks below, and without a call where nothing is kept: with both, adding took up to twice as long.
    #[inline(always)]
    #[tactic(auto, using(crate::proofs::Sampling::out_of_it, crate::proofs::Sampling::of_the_stretch, crate::proofs::Sampling::of_the_kept, crate::proofs::Sampling::of_none))]
    fn samples(&self, level: u32, x: u32) -> bool
        ensures { result ≡ passing self.now.settings (cells_of self.now) level x }
    {
        self.settings.passes(level, x)
            && (((self.lo <= x) & (x <= self.hi))
                || (!self.kept.is_empty() && self.kept.contains(&x)))
    }

    // How many cells of 1..n are in the sample at the level: a sum in a loop, as the plain count is. A
    // chain of iterators over the cells took longer, and so it did in `first_of`.
    fn count(&self, level: u32) -> usize
        ensures { result ≡ length (sample self.now.settings (cells_of self.now) level) }
    {
        let mut many: usize = 0;
        for x in 1..=self.settings.n {
            if self.samples(level, x) {
                many += 1;
            }
        }
        many
    }

    // The first level from this one on at which the sample fits: at the top one cell passes at most.
    // So this ends there, and the code doesn't look for the top.
    #[tactic(auto, using(settle::proofs::Searches::raise_start, settle::proofs::Searches::raise_room, settle::proofs::Searches::raise_on, settle::proofs::Searches::raise_end, crate::proofs::Sampling::too_many, crate::proofs::Sampling::few_enough, rule::proofs::Passing::top_small))]
    fn first_level(&self, level: u32) -> u32
        requires { Good self.now.settings × (level ≤ top self.now.settings) }
        ensures { result ≡ lowest self.now.settings (cells_of self.now) level }
    {
        let mut l = level;
        while (self.settings.capacity as usize) < self.count(l) {
            l += 1;
        }
        l
    }

    // Stores the sample at the level in a row, from its first place on, and answers how many cells it has.
    // Only a cell of the sample takes a place, so the places are counted.
    fn gather(&self, level: u32, out: &mut [u32]) -> usize
        requires { length (sample self.now.settings (cells_of self.now) level) ≤ length out.old }
        ensures { Stored out.old 0 (sample self.now.settings (cells_of self.now) level) result out.new }
    {
        let mut many: usize = 0;
        for x in 1..=self.settings.n {
            if self.samples(level, x) {
                out[many] = x;
                many += 1;
            }
        }
        many
    }
}

// The sample at the first level at which it fits, from the present level on. `kept` has that level, and
// says how many of the row's cells are kept; the sample goes into a row of zeros.
pub fn fill(
    out: &mut [u32],
    settings: Settings,
    kept: Kept,
    cells: &[u32],
    lo: u32,
    hi: u32,
) -> Kept
    requires { KeptIn settings kept cells.now × (settings.n ≤ limit) × (out.old ≡ replicate 504 0) }
    ensures { Keeps settings (listed (kept_in kept cells.now) ∪ interval lo hi) kept.level 504 result.level result.count out.new }
{
    let adding = Adding {
        settings,
        kept: &cells[..kept.count as usize],
        lo,
        hi,
    };
    let level = adding.first_level(kept.level);
    let count = adding.gather(level, out) as u32;
    Kept { level, count }
}

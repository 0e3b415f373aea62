// What adding and merging come down to: cells kept at a level, and a range. No sketch is known here:
// the cells are lent. Adding works on their row; what a merge keeps goes into a row lent as well.
#![tactic(auto)]

ghost use Rattle.std.specs.Prelude.{◌≡◌, ◌+◌, ◌-◌, ◌≤◌, max, length, take, replicate, true};
ghost use Rattle.lists.specs.Lists.{listed, filter};
ghost use Rattle.lists.specs.Rows.{Stored};
ghost use Rattle.find.specs.Finding.{in_range};
ghost use Rattle.rule.specs.Cells.{◌∪◌, interval};
ghost use Rattle.rule.specs.Rule.{Good, passes};
ghost use Rattle.rule.specs.Samples.{sample, fits, range_count};
ghost use Rattle.settle.specs.Settling.{cells_of, PresentParts, GathersParts, Alone, Thins, KeptAt, Keeps, kept_in, KeptIn, KeptRow};

mod levels;
mod parts;

use parts::Parts;
use rows::sieve::Sieve;
use rule::Settings;

// The places of the row that cells are kept in.
pub const PLACES: usize = rule::GREATEST_CAPACITY as usize;

// A level, and how many cells are kept at it: they stand in the first places of a row, which is lent
// beside it. This is also what adding and merging answer, of a row that they fill, so the row isn't in
// the struct.
#[derive(Clone, Copy)]
pub struct Kept {
    pub level: u32,
    pub count: u32,
}

// Stores those of a row's cells that pass at the level, from place `at` on, and answers the place
// after them. All of them pass at the level `own`: there none is hashed.
// Each call makes its sieve: one made for both rows of `gathered`, and lacking at `own`, was slower.
fn store_at(
    out: &mut [u32],
    at: usize,
    settings: Settings,
    own: u32,
    level: u32,
    cells: &[u32],
) -> usize
    requires { Good settings × (filter (passes settings own) cells.now ≡ cells.now)
        × (at + length (filter (passes settings level) cells.now) ≤ length out.old) }
    ensures { Stored out.old at (filter (passes settings level) cells.now) result out.new }
{
    if own == level {
        return stores::store(out, at, cells);
    }
    stores::store_passing(out, at, Sieve::of(settings, level), cells)
}

impl<'a> Parts<'a> {
    // The same for the cells of two rows and the `hits` cells of lo..hi between them.
    fn gathered(&self, out: &mut [u32], own: u32, level: u32, hits: usize) -> usize
        requires { GathersParts own level self.now hits out.old }
        ensures { Stored out.old 0 (sample self.now.settings (cells_of self.now) level) result out.new }
    {
        let first = store_at(out, 0, self.settings, own, level, self.front);
        let second = stores::store_hits(out, first, self.settings, level, self.lo, self.hi, hits);
        store_at(out, second, self.settings, own, level, self.back)
    }

    // What is kept of two rows, all of whose cells pass at the level, and of lo..hi between them, of
    // which `hits` pass there. At this level no cell need be hashed; only for a higher one are they.
    fn settled(&self, out: &mut [u32], level: u32, hits: usize) -> Kept
        requires { PresentParts level self.now × (hits ≡ range_count self.now.settings level self.now.lo self.now.hi) × (out.old ≡ replicate 504 0) }
        ensures { Keeps self.now.settings (cells_of self.now) level 504 result.level result.count out.new }
    {
        let capacity = self.settings.capacity as usize;
        let many = hits + self.front.len() + self.back.len();
        if many <= capacity {
            let count = self.gathered(out, level, level, hits) as u32;
            return Kept { level, count };
        }
        let l = self.above(level, many);
        let left = find::count_in(self.settings, l, self.lo, self.hi) as usize;
        let count = self.gathered(out, level, l, left) as u32;
        Kept { level: l, count }
    }
}

// Adds lo..hi to what is kept in a row, in place. Where none of lo..hi passes nothing changes, and the
// row isn't searched. The cells kept in lo..hi pass, so nothing changes either where as many of lo..hi
// pass as are kept there.
pub fn add_to(cells: &mut [u32], settings: Settings, kept: Kept, lo: u32, hi: u32) -> Kept
    requires { KeptRow settings kept cells.old × (in_range settings lo hi ≡ true) }
    ensures { Keeps settings (listed (kept_in kept cells.old) ∪ interval lo hi) kept.level 504 result.level result.count cells.new }
{
    let hits = find::count_in(settings, kept.level, lo, hi) as usize;
    if hits == 0 {
        return kept;
    }
    let held = &cells[..kept.count as usize];
    let i = rows::below(held, lo);
    let j = rows::below(held, hi + 1);
    if i + hits == j {
        return kept;
    }
    let mut out = [0u32; PLACES];
    let parts = Parts {
        settings,
        front: &held[..i],
        lo,
        hi,
        back: &held[j..],
    };
    let next = parts.settled(&mut out, kept.level, hits);
    stores::store(cells, 0, &out);
    next
}

// Of the first `many` cells of a row, all of which pass at the level, keeps what fits, in place.
fn thinned(out: &mut [u32], settings: Settings, level: u32, many: usize) -> Kept
    requires { Alone settings level (take many out.old) × (many ≤ length out.old) }
    ensures { Thins settings level many out.old result.level result.count out.new }
{
    if many <= settings.capacity as usize {
        return Kept {
            level,
            count: many as u32,
        };
    }
    // No range: it lies after every cell.
    let end = settings.n;
    let parts = Parts {
        settings,
        front: &out[..many],
        lo: end + 1,
        hi: end,
        back: &[],
    };
    let l = parts.above(level, many);
    let sieve = Sieve::of(settings, l);
    let count = stores::keep_passing(out, many, sieve) as u32;
    Kept { level: l, count }
}

// Merges the cells kept at a level with others, kept at this level or a lower one. The row lent has
// room for all of both: the others stand in its second half until the two are united in its first.
fn merge_down(
    out: &mut [u32],
    settings: Settings,
    level: u32,
    cells: &[u32],
    own: u32,
    others: &[u32],
) -> Kept
    requires { KeptAt settings level cells.now × KeptAt settings own others.now × (own ≤ level) × (length out.old ≡ 1008) }
    ensures { Keeps settings (listed cells.now ∪ listed others.now) level 1008 result.level result.count out.new }
{
    let end = store_at(out, PLACES, settings, own, level, others);
    let many = stores::unite(out, PLACES, end, cells);
    let kept = thinned(out, settings, level, many);
    stores::clear(out, kept.count as usize, 2 * PLACES);
    kept
}

// Merges what is kept in two rows, into a row of twice the places: down from the higher level.
pub fn merge_to(
    out: &mut [u32],
    settings: Settings,
    mine: Kept,
    row: &[u32],
    its: Kept,
    other: &[u32],
) -> Kept
    requires { KeptIn settings mine row.now × KeptIn settings its other.now × (length out.old ≡ 1008) }
    ensures { Keeps settings (listed (kept_in mine row.now) ∪ listed (kept_in its other.now)) (max mine.level its.level) 1008
        result.level result.count out.new }
{
    let n = mine.count as usize;
    let m = its.count as usize;
    if mine.level < its.level {
        return merge_down(out, settings, its.level, &other[..m], mine.level, &row[..n]);
    }
    merge_down(out, settings, mine.level, &row[..n], its.level, &other[..m])
}

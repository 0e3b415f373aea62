// Cells stored in a row. A row is lent whole, and what stands after what is stored stays. Each function
// takes the place to store at and answers the place after it: contracts speak of the row before and
// after, which std's writers don't.
#![tactic(auto)]

ghost use Rattle.std.specs.Prelude.{◌≡◌, true, ◌+◌, ◌-◌, ◌≤◌, length, take, replicate};
ghost use Rattle.std.proofs.Math.Seq.{slice};
ghost use Rattle.lists.specs.Lists.{filter, range};
ghost use Rattle.lists.specs.Rows.{union, Stored};
ghost use Rattle.rule.specs.Rule.{passes};
ghost use Rattle.rule.specs.Samples.{range_count};
ghost use Rattle.rows.specs.Sieves.{sifted};
ghost use Rattle.find.specs.Finding.{Within};

use rows::sieve::Sieve;
use rule::Settings;
use strides::{Hit, Strides};

// Stores the row's cells in `out` from place `at` on; answers the place after them.
pub fn store(out: &mut [u32], at: usize, row: &[u32]) -> usize
    requires { at + length row.now ≤ length out.old }
    ensures { Stored out.old at row.now result out.new }
{
    // `copy_from_slice` calls memmove, and the library asks for memcpy and memset alone.
    for i in 0..row.len() {
        out[at + i] = row[i];
    }
    at + row.len()
}

// The same for those that pass the sieve. Only a cell that passes takes a place, so the places are
// counted.
pub fn store_passing(out: &mut [u32], at: usize, sieve: Sieve, row: &[u32]) -> usize
    requires { at + length (filter (sifted sieve) row.now) ≤ length out.old }
    ensures { Stored out.old at (filter (sifted sieve) row.now) result out.new }
{
    let mut next = at;
    for &x in row {
        if sieve.passes(x) {
            out[next] = x;
            next = next + 1;
        }
    }
    next
}

// The same for the cells of first..hi that pass at the level, of which `first` is one: from each hit
// by its distance to the next, with no search.
fn store_along(
    out: &mut [u32],
    at: usize,
    settings: Settings,
    level: u32,
    first: u32,
    hi: u32,
) -> usize
    requires { Within settings first hi × (first ≤ hi) × (passes settings level first ≡ true)
        × (at + range_count settings level first hi ≤ length out.old) }
    ensures { Stored out.old at (filter (passes settings level) (range first hi)) result out.new }
{
    let far = hi - first;
    let strides = Strides::of(settings, level, far);
    let mut hit = Hit {
        cell: first,
        hash: settings.hash(first) as u32,
    };
    let mut next = at;
    // From hit to hit: no range or slice has these steps.
    while hit.cell <= hi {
        out[next] = hit.cell;
        next = next + 1;
        hit = strides.next(settings, level, far, hit);
    }
    next
}

// The same for the cells of lo..hi that pass at the level; the caller has counted them. The four numbers
// of a range stay parameters, as in `find`.
pub fn store_hits(
    out: &mut [u32],
    at: usize,
    settings: Settings,
    level: u32,
    lo: u32,
    hi: u32,
    many: usize,
) -> usize
    requires { Within settings lo hi × (many ≡ range_count settings level lo hi) × (at + many ≤ length out.old) }
    ensures { Stored out.old at (filter (passes settings level) (range lo hi)) result out.new }
{
    if many == 0 {
        return at;
    }
    match find::first_in(settings, level, lo, hi) {
        Some(x) => {
            if many == 1 {
                out[at] = x;
                return at + 1;
            }
            store_along(out, at, settings, level, x, hi)
        }
        // There is a first one.
        None => at,
    }
}

// Moves the cells from place `from` up to `end` down to place `at`; answers the place after them. Of
// std's copies this one is a loop, and no memmove.
fn slide(out: &mut [u32], at: usize, from: usize, end: usize) -> usize
    requires { (at ≤ from) × (from ≤ end) × (end ≤ length out.old) }
    ensures { Stored out.old at (slice from end out.old) result out.new }
{
    out.copy_within(from..end, at);
    at + (end - from)
}

// Stores at the start of `out` the union, rising, of a rising row and of the rising cells that stand
// in `out` from place `at` up to `end`; answers how many cells it has. No cell is overwritten before
// it is read, since the row has no more cells than `at`. A turn stores the lesser of the two next
// cells, and each side that has it there moves on: which of them can't be foretold, so a turn has no
// branch, and is no `for` over one of the two.
pub fn unite(out: &mut [u32], at: usize, end: usize, row: &[u32]) -> usize
    requires { (length row.now ≤ at) × (at ≤ end) × (end ≤ length out.old) }
    ensures { Stored out.old 0 (union row.now (slice at end out.old)) result out.new }
{
    let mut next: usize = 0;
    let mut i: usize = 0;
    let mut j = at;
    while i < row.len() && j < end {
        let x = row[i];
        let y = out[j];
        out[next] = x.min(y);
        next = next + 1;
        i = i + usize::from(x <= y);
        j = j + usize::from(y <= x);
    }
    let m = store(out, next, &row[i..]);
    slide(out, m, j, end)
}

// Keeps, of the row's first `many` cells, those that pass the sieve, at its start; answers how many.
// In place: a cell is read before anything is stored there. The row is lent whole, since what stands
// after those cells stays.
pub fn keep_passing(out: &mut [u32], many: usize, sieve: Sieve) -> usize
    requires { many ≤ length out.old }
    ensures { Stored out.old 0 (filter (sifted sieve) (take many out.old)) result out.new }
{
    let mut kept: usize = 0;
    for i in 0..many {
        let x = out[i];
        if sieve.passes(x) {
            out[kept] = x;
            kept = kept + 1;
        }
    }
    kept
}

// Clears the places from `from` up to `end`.
pub fn clear(out: &mut [u32], from: usize, end: usize)
    requires { (from ≤ end) × (end ≤ length out.old) }
    ensures { Stored out.old from (replicate (end - from) 0) end out.new }
{
    out[from..end].fill(0);
}

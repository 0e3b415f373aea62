// The first level at which the cells of two rows and of a range between them fit.
ghost use Rattle.std.specs.Prelude.{◌≡◌, ◌+◌, ◌-◌, ◌≤◌, min};
ghost use Rattle.std.specs.Int.Count.{count_leading_zeros};
ghost use Rattle.rule.specs.Rule.{top};
ghost use Rattle.rule.specs.Samples.{fits, lowest};
ghost use Rattle.settle.specs.Settling.{cells_of};

use crate::parts::Parts;
use rows::sieve::Sieve;

// A level for so many cells, of which each level keeps about half: by the length of the numbers.
fn guessed(level: u32, many: usize, capacity: usize, top: u32) -> u32
    requires { (level ≤ top) × (top ≤ 32) }
    ensures { result ≡ min top (level + (count_leading_zeros 64 capacity - count_leading_zeros 64 many - 1)) }
{
    let short = usize::leading_zeros(capacity);
    let long = usize::leading_zeros(many);
    if short <= long {
        return level;
    }
    top.min(level + (short - long - 1))
}

impl<'a> Parts<'a> {
    // Do the cells that pass at the level fit? The range is counted first: where it alone is too
    // much, no row is walked.
    fn fits_at(&self, level: u32) -> bool
        ensures { result ≡ fits self.now.settings (cells_of self.now) level }
    {
        let capacity = self.settings.capacity as usize;
        let hits = find::count_in(self.settings, level, self.lo, self.hi) as usize;
        if capacity < hits {
            return false;
        }
        let sieve = Sieve::of(self.settings, level);
        let before = rows::count_passing(sieve, self.front);
        let after = rows::count_passing(sieve, self.back);
        hits + before + after <= capacity
    }

    // The first level from this one on at which they fit: at the top they do.
    fn climbed(&self, level: u32) -> u32
        requires { level ≤ top self.now.settings }
        ensures { result ≡ lowest self.now.settings (cells_of self.now) level }
    {
        let top = self.settings.top();
        for l in level..top {
            if self.fits_at(l) {
                return l;
            }
        }
        top
    }

    // The same, from a guess: each level about halves what passes, so two tests are enough as a
    // rule. What fits at a level fits at every higher one.
    fn raised(&self, level: u32, guess: u32) -> u32
        requires { (level ≤ guess) × (guess ≤ top self.now.settings) }
        ensures { result ≡ lowest self.now.settings (cells_of self.now) level }
    {
        let found = self.climbed(guess);
        if guess < found {
            return found;
        }
        for l in (level..guess).rev() {
            if !self.fits_at(l) {
                return l + 1;
            }
        }
        level
    }

    // The first level above this one at which they fit; `many` is how many cells pass at this one.
    pub fn above(&self, level: u32, many: usize) -> u32
        requires { level + 1 ≤ top self.now.settings }
        ensures { result ≡ lowest self.now.settings (cells_of self.now) (level + 1) }
    {
        let next = level + 1;
        let guess = guessed(
            next,
            many,
            self.settings.capacity as usize,
            self.settings.top(),
        );
        self.raised(next, guess)
    }
}

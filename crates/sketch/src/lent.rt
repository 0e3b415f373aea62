// A sketch lent by its parts, to be looked at where it stands: its row isn't copied. The count stands
// beside the whole row, since the places after the cells are looked at too.
ghost use Rattle.std.proofs.Props.{props};
ghost use Rattle.std.specs.Prelude.{◌≡◌, length};

use crate::estimates::Estimate;
use crate::{PLACES, float_at};
use rule::Settings;
use rule::refusals::Refusal;

#[derive(Clone, Copy)]
pub struct Lent<'a> {
    pub settings: Settings,
    pub level: u32,
    pub count: u32,
    pub cells: &'a [u32],
    ghost places: { length cells.now ≡ 504 } by { Prim.hlevel props },
}

impl Lent<'_> {
    ghost use Rattle.sketch.specs.Sketches.{held_of, is_sketch};
    ghost use Rattle.sketch.specs.Estimates.{Estimates};

    // The unused places are looked at first, as the processor goes through them while it works on the
    // divisor.
    pub fn good(self) -> bool
        ensures { result ≡ is_sketch (held_of self.entry) }
    {
        let n = self.count as usize;
        if PLACES < n {
            return false;
        }
        let unused = rows::zeros(&self.cells[n..]);
        if !self.settings.good() {
            return false;
        }
        let rises = rows::rises(self.settings, self.level, &self.cells[..n]);
        (self.count <= self.settings.capacity)
            & (self.settings.has_level(self.level) & (rises & unused))
    }

    pub fn estimate(self) -> Estimate
        ensures { Estimates (held_of self.entry) result }
    {
        if !self.good() {
            return Estimate::Refused(Refusal::NotOne.into());
        }
        if self.level == 0 {
            return Estimate::Exact(self.count);
        }
        Estimate::About(float_at(self.settings, self.level, self.count))
    }
}

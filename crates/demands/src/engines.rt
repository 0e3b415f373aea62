// The calls of `plain`, tied to their promises, beside those of the first engine: up to the limit the
// two answer the same, on every input.
ghost use Rattle.std.specs.Prelude.{◌≡◌, ◌≤◌};
ghost use Rattle.rule.specs.Refusals.{of_counted, of_found};
ghost use Rattle.find.specs.Finding.{count_on, next_on};
ghost use Rattle.sketch.specs.Sketches.{add};
ghost use Rattle.sketch.specs.Calls.{add_on, Hands};
ghost use Rattle.plain.specs.Plain.{limit, plain_count_on, plain_next_on, plain_add_on};

use rule::Settings;
use rule::refusals::Refusal;
use sketch::{Changed, Sketch};

// What the two engines answer to one call.
#[derive(Clone, Copy)]
pub struct Two<T> {
    pub first: T,
    pub plain: T,
}

pub fn counts(s: Settings, level: u32, lo: u32, hi: u32) -> Two<Result<u32, Refusal>>
    ensures { (of_counted result.first ≡ count_on s level lo hi) × (of_counted result.plain ≡ plain_count_on s level lo hi)
        × (s.n ≤ limit → result.plain ≡ result.first) }
{
    Two {
        first: find::count(s, level, lo, hi),
        plain: plain::count(s, level, lo, hi),
    }
}

pub fn finds(s: Settings, level: u32, from: u32) -> Two<Result<Option<u32>, Refusal>>
    ensures { (of_found result.first ≡ next_on s level from) × (of_found result.plain ≡ plain_next_on s level from)
        × (s.n ≤ limit → result.plain ≡ result.first) }
{
    Two {
        first: find::next_hit(s, level, from),
        plain: plain::next_hit(s, level, from),
    }
}

pub fn adds(k: Sketch, lo: u32, hi: u32) -> Two<Changed<Refusal>>
    ensures { Hands (add_on k lo hi) (add k lo hi) k result.first × Hands (plain_add_on k lo hi) (add k lo hi) k result.plain
        × (k.settings.n ≤ limit → result.plain ≡ result.first) }
{
    Two {
        first: k.add(lo, hi),
        plain: plain::add(k, lo, hi),
    }
}

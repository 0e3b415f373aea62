// The walker, lent: it is moved on where it stands.
//
// Both functions are thin: `next` makes a step by value and stores what changed, and `moved_on` is
// for callers that have no walker to lend.
#![tactic(auto)]

ghost use Rattle.find.specs.Walking.{Steps};
ghost use Rattle.lent.specs.Lending.{Lends};

use find::{Stepped, Walker};
use rule::refusals::Refusal;

// The next passing cell. A step changes nothing but the position, so only that is stored.
#[tactic(auto, using(crate::proofs::Lendings::lends_step))]
pub fn next(walker: &mut Walker) -> Result<Option<u32>, Refusal>
    ensures { Lends walker.old result walker.new }
{
    let m = walker.step();
    walker.at = m.walker.at;
    m.found
}

// The same for a walker that comes by value: it is lent here, and handed back as `next` left it.
pub fn moved_on(mut walker: Walker) -> Stepped
    ensures { Steps walker result }
{
    let found = next(&mut walker);
    Stepped { found, walker }
}

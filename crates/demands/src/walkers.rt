// The lent walker is tied to the promise of a step by value, which is not its own crate's, so that neither its contracts nor
// the definition that they cite can be changed unseen.
ghost use Rattle.find.specs.Walking.{Steps};

use find::{Stepped, Walker};
use rule::refusals::Refusal;

// The answer with the walker as it is left is what a step hands back.
pub fn lends(walker: &mut Walker) -> Result<Option<u32>, Refusal>
    ensures { Steps walker.old (record { found = result; walker = walker.new }) }
{
    lent::next(walker)
}

pub fn moves_on(walker: Walker) -> Stepped
    ensures { Steps walker result }
{
    lent::moved_on(walker)
}

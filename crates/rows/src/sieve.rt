// The test of many cells at a level.
ghost use Rattle.std.proofs.Props.{props};
ghost use Rattle.rule.specs.Rule.{Good, Ready};

use rule::{Hasher, Settings};

// A hasher and the size of the level's region: at hand, so that a walk over cells computes neither.
#[derive(Clone, Copy)]
pub struct Sieve {
    hasher: Hasher,
    size: u32,
    ghost ready: { Ready hasher } by { Prim.hlevel props },
}

impl Sieve {
    ghost use Rattle.std.specs.Prelude.{◌≡◌};
    ghost use Rattle.rows.specs.Sieves.{Sifts, sifted};

    // Good settings are asked for here, once for all that a sieve tests.
    pub fn of(settings: Settings, level: u32) -> Sieve
        requires { Good settings }
        ensures { Sifts settings level result }
    {
        Sieve {
            hasher: settings.hasher(),
            size: settings.region(level),
        }
    }

    pub fn passes(self, x: u32) -> bool
        ensures { result ≡ sifted self x }
    {
        self.hasher.hash(x) < self.size
    }
}

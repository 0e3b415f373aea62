// The calls of `rule`, tied to their promises.
ghost use Rattle.std.specs.Prelude.{◌≡◌, leb};
ghost use Rattle.rule.specs.Rule.{common_divisor, is_good, hash, region, passes, top};

use rule::Settings;

pub fn divides(a: u32, p: u32) -> u32
    ensures { result ≡ common_divisor a p }
{
    rule::common_divisor(a, p)
}

pub fn is_good(s: Settings) -> bool
    ensures { result ≡ is_good s }
{
    s.good()
}

pub fn hashes(s: Settings, x: u32) -> u64
    ensures { result ≡ hash s x }
{
    s.hash(x)
}

pub fn region_of(s: Settings, level: u32) -> u32
    ensures { result ≡ region s level }
{
    s.region(level)
}

pub fn lets_pass(s: Settings, level: u32, x: u32) -> bool
    ensures { result ≡ passes s level x }
{
    s.passes(level, x)
}

pub fn top_of(s: Settings) -> u32
    ensures { result ≡ top s }
{
    s.top()
}

pub fn reaches(s: Settings, level: u32) -> bool
    ensures { result ≡ leb level (top s) }
{
    s.has_level(level)
}

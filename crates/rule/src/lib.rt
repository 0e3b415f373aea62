// The rule of a sketch: its settings, the hash, the regions of the levels, and which cells pass.
#![tactic(auto)]

ghost use Rattle.std.specs.Prelude.{◌≡◌, ℕ, ◌+◌, ◌-◌, ◌^◌, ◌%◌, ◌<◌, ◌≤◌, min, leb};
ghost use Rattle.rule.specs.Rule.{no_settings, Good, common_divisor, is_good, hash, Ready, hasher_of, region, passes, top};

pub mod refusals;

// The greatest n, and the greatest capacity, which is how many places a sketch has. Contracts and
// definitions write the numbers out.
pub const GREATEST_N: u32 = 200000000;

pub const GREATEST_CAPACITY: u32 = 504;

// A rounded fraction has 32 binary places.
const ONE: u64 = 4294967296;

#[derive(Clone, Copy, PartialEq, Eq)]
pub struct Settings {
    pub n: u32,
    pub p: u32,
    pub a: u32,
    pub b: u32,
    pub capacity: u32,
}

// The settings with a / p and b / p in parts of 2^32, rounded down: with these two at hand a hash is
// found by products and shifts, without a division.
#[derive(Clone, Copy)]
pub struct Hasher {
    pub settings: Settings,
    pub slope: u32,
    pub start: u32,
}

// The greatest common divisor of two odd numbers, without a division. A common divisor is odd, so
// it divides the difference with its halvings taken out. There are as many of these as x and y
// have equal lowest bits, so they are counted beside the subtraction, not after it. The loop counts no
// turns: it ends where the two are equal.
fn odd_divisor(a: u32, p: u32) -> u32
    requires { (a % 2 ≡ 1) × (p % 2 ≡ 1) }
    ensures { result ≡ common_divisor a p }
{
    let mut x = a;
    let mut y = p;
    while x != y {
        let equal = u32::trailing_zeros(x ^ y);
        let low = x.min(y);
        x = x.abs_diff(y) >> equal;
        y = low;
    }
    x
}

// The greatest common divisor: of the odd parts, doubled as often as both numbers can be halved.
pub fn common_divisor(a: u32, p: u32) -> u32
    ensures { result ≡ common_divisor a p }
{
    if a == 0 {
        p
    } else if p == 0 {
        a
    } else {
        let i = u32::trailing_zeros(a);
        let j = u32::trailing_zeros(p);
        odd_divisor(a >> i, p >> j) << i.min(j)
    }
}

// The settings of all zeros, which aren't good.
pub fn no_settings() -> Settings
    ensures { result ≡ no_settings }
{
    Settings {
        n: 0,
        p: 0,
        a: 0,
        b: 0,
        capacity: 0,
    }
}

impl Settings {
    // All five rules, as tests without a branch.
    pub fn good(self) -> bool
        ensures { result ≡ is_good self }
    {
        let n = u64::from(self.n);
        let p = u64::from(self.p);
        (1 <= self.n)
            & ((self.n <= GREATEST_N)
                & ((10 * n <= p)
                    & ((p <= 20 * n)
                        & ((1 <= self.a)
                            & ((self.a < self.p)
                                & ((common_divisor(self.a, self.p) == 1)
                                    & ((self.b < self.p)
                                        & ((1 <= self.capacity)
                                            & (self.capacity <= GREATEST_CAPACITY)))))))))
    }

    // The product of two numbers of 32 bits and a third fit 64 bits: so does the hash where p is 0,
    // which takes nothing off.
    pub fn hash(self, x: u32) -> u64
        ensures { result ≡ hash self x }
    {
        let a = u64::from(self.a);
        let b = u64::from(self.b);
        let p = u64::from(self.p);
        let y = u64::from(x);
        let whole = a * y + b;
        if p == 0 {
            return whole;
        }
        whole % p
    }

    // For the hashes of many cells. Any settings may come to a call, which tests them before it makes
    // something of them: so good ones are asked for here. To fewer bits by `as`, here and elsewhere: std
    // has no `From` for it, and each number is proved to fit.
    pub fn hasher(self) -> Hasher
        requires { Good self }
        ensures { result ≡ hasher_of self }
    {
        let p = u64::from(self.p);
        let slope = u64::from(self.a) * ONE / p;
        let start = u64::from(self.b) * ONE / p;
        Hasher {
            settings: self,
            slope: slope as u32,
            start: start as u32,
        }
    }

    // The size of a level's region; from level 32 on nothing is left of a p of 32 bits.
    pub fn region(self, level: u32) -> u32
        ensures { result ≡ region self level }
    {
        if level < 32 { self.p >> level } else { 0 }
    }

    pub fn passes(self, level: u32, x: u32) -> bool
        ensures { result ≡ passes self level x }
    {
        self.hash(x) < u64::from(self.region(level))
    }

    // The top: the place of the highest bit of p that is set.
    pub fn top(self) -> u32
        ensures { result ≡ top self }
    {
        let p = self.p;
        if p == 0 {
            return 0;
        }
        31 - u32::leading_zeros(p)
    }

    // Is the level no higher than the top?
    pub fn has_level(self, level: u32) -> bool
        ensures { result ≡ leb level (top self) }
    {
        level <= self.top()
    }
}

impl Hasher {
    // The rounded fractions give the quotient, or one less, so what is left of a·x + b is below 2p.
    // Whether p is in it is bit 33 of a sum, and not a test: a loop over cells runs on vectors then.
    pub fn hash(self, x: u32) -> u32
        requires { Ready self }
        ensures { result ≡ hash self.settings x }
    {
        let cell = u64::from(x);
        let p = u64::from(self.settings.p);
        let q = (u64::from(self.slope) * cell + u64::from(self.start)) >> 32;
        let left = u64::from(self.settings.a) * cell + u64::from(self.settings.b) - q * p;
        let over = (left + (8589934592 - p)) >> 33;
        (left - over * p) as u32
    }
}

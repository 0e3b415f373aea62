// A block of 512 bytes: 254 words of 16 bits, and two words that check them.
#![tactic(auto)]

ghost use Rattle.std.specs.Prelude.{◌≡◌, ◌++◌, ◌+◌, ◌%◌, ◌<◌, ◌≤◌, length, take, drop};
ghost use Rattle.block.specs.Little.{Bytes, bytes_of, number_at};
ghost use Rattle.block.specs.Sums.{plain_of, weighted_of, block_good, sealed};
ghost use Rattle.block.specs.Folds.{folded};

// How many words are summed, modulo what, and where the two sums stand: the plain one follows the words.
const WORDS: u16 = 254;

const MODULUS: u64 = 65535;

pub const PLAIN: usize = 508;

const WEIGHTED: usize = 510;

// The two sums, each below 65535.
#[derive(Clone, Copy, PartialEq, Eq)]
pub struct Sums {
    pub plain: u16,
    pub weighted: u16,
}

// The word in the two bytes at `at`.
#[tactic(auto, using(crate::proofs::Numbers::number_two))]
pub fn word_at(s: &[u8], at: usize) -> u16
    requires { at + 2 ≤ length s.now }
    ensures { (result ≡ number_at 2 at s.now) × Bytes s.now }
{
    u16::from_le_bytes([s[at], s[at + 1]])
}

// Stores the word `x` in the two bytes at `at`.
#[tactic(auto, using(crate::proofs::Numbers::word_over))]
pub fn put_word(s: &mut [u8], at: usize, x: u16)
    requires { at + 2 ≤ length s.old }
    ensures { s.new ≡ take at s.old ++ bytes_of 2 x ++ drop (at + 2) s.old }
{
    s[at..at + 2].copy_from_slice(&x.to_le_bytes());
}

// What stands above the low 16 bits, added to them: 65536 leaves 1 when divided by 65535, so the remainder stays.
fn folded(x: u64) -> u64
    ensures { result ≡ folded x }
{
    let high = x >> 16;
    let low = x & 0xffff;
    high + low
}

// By folds and no division, since the link's chip divides slowly: two folds bring any number of 32 bits to 65535 or below,
// and 65535 itself leaves 0. The folds are of 64 bits: of 32, the compiler would lay the two sums of a block side by side
// in a vector, which takes longer. A function of its own, so that another way to reduce moves nothing else.
fn reduced(x: u32) -> u16
    ensures { result ≡ x % 65535 }
{
    let unfolded = u64::from(x);
    let once = folded(unfolded);
    let twice = folded(once);
    if twice == MODULUS { 0 } else { twice as u16 }
}

// Both sums fit 32 bits before they are reduced: no turn of the loop divides or branches, and it runs on whole vectors,
// in which the weights are counted down from 254 to 1.
// Bytes past 508 aren't read, so that a writer can fill the sums in afterwards.
pub fn sums_of(s: &[u8]) -> Sums
    requires { 508 ≤ length s.now }
    ensures { (result.plain ≡ plain_of s.now) × (result.weighted ≡ weighted_of s.now) }
{
    let mut plain: u32 = 0;
    let mut weighted: u32 = 0;
    let (words, _) = s[..PLAIN].as_chunks::<2>();
    for (word, weight) in words.iter().zip((1..=WORDS).rev()) {
        let w = u32::from(u16::from_le_bytes(*word));
        plain += w;
        weighted += u32::from(weight) * w;
    }
    Sums {
        plain: reduced(plain),
        weighted: reduced(weighted),
    }
}

// Whether the block's two stored words are its sums. A block is lent as a part of an image: as an array
// of 512 bytes it would have to be cut out of it at each call, and no writer could be promised the rest.
#[tactic(auto, unfolding(crate::specs::Sums::block_good))]
pub fn good(s: &[u8]) -> bool
    requires { length s.now ≡ 512 }
    ensures { result ≡ block_good s.now }
{
    let stored = Sums {
        plain: word_at(s, PLAIN),
        weighted: word_at(s, WEIGHTED),
    };
    stored == sums_of(s)
}

// Writes the sums of the first 508 bytes behind them.
pub fn seal(s: &mut [u8])
    requires { length s.old ≡ 512 }
    ensures { s.new ≡ sealed (take 508 s.old) }
{
    let t = sums_of(s);
    put_word(s, PLAIN, t.plain);
    put_word(s, WEIGHTED, t.weighted);
}

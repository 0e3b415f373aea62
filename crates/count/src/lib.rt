// The range count of Pavan and Tirthapura: how many of the first n elements of an arithmetic
// progression with difference d, taken modulo m, lie below l. Each call is on modulus d with a
// difference of at most half of d, so there are no more calls than d has bits. The two functions that
// call each other are a form that the rules name, though all but their first lines is the same; their
// five numbers are the paper's, and a call has other ones, so they stand as parameters.
#![tactic(auto)]

ghost use Rattle.std.specs.Prelude.{◌≡◌, ℕ, ◌+◌, ◌-◌, ◌*◌, ◌/◌, ◌%◌, ◌<◌, ◌≤◌, min};
ghost use Rattle.count.specs.Hits.{hit, hits_up, hits_down, Takes};
ghost use Rattle.count.specs.Cuts.{Cut};

// An upward progression cut into rounds: a new round starts where the elements pass the modulus. A
// round's foot is its first element, which is less than d; the first round's foot may lie before the
// progression's start. From round to round the feet go down by m % d or, modulo d, up by the rest of
// d: the smaller job counts those of the whole rounds that lie below `bound`.
#[derive(Clone, Copy)]
struct Rounds {
    // the first foot
    foot: u64,
    // the feet's difference, at most half of d, and whether they go down by it: a sign of it
    step: u64,
    down: bool,
    // a whole round has one element more below l where its foot is below this
    bound: u64,
    // the rounds' elements below l, but for those
    sure: u64,
    // the elements below l that the first round has before the progression's start
    before: u64,
}

// Of the first t elements of a round whose foot is f, those below l, which is q * d + r with r < d. The
// comparison is added as a number, as a branch on it could not be foretold.
#[tactic(auto, unfolding(crate::specs::Hits::hit))]
fn part(q: u64, r: u64, f: u64, t: u64) -> u64
    requires { q ≤ 4000000000 }
    ensures { result ≡ min t (q + hit f r) }
{
    (q + u64::from(f < r)).min(t)
}

// The last of n elements, not yet reduced modulo m.
fn end(m: u64, d: u64, u: u64, n: u64) -> u64
    requires m_bound { m ≤ 4000000000 }
    requires d_le_m { d ≤ m }
    requires u_lt_m { u < m }
    requires n_nonzero { 0 < n }
    requires n_bound { n ≤ 200000000 }
    ensures { result ≡ u + (n - 1) * d }
{
    u + (n - 1) * d
}

// The count where the difference is 0: all are at u.
#[tactic(auto, unfolding(crate::specs::Hits::hit))]
fn still(u: u64, n: u64, l: u64) -> u64
    ensures { result ≡ n * hit u l }
{
    if u < l { n } else { 0 }
}

// The rounds from u to x, which lies k rounds further on. Each number is divided by d once.
fn cut(m: u64, d: u64, u: u64, k: u64, x: u64, l: u64) -> Rounds
    requires d_nonzero { 0 < d }
    requires k_bound { k ≤ 200000000 }
    requires x_bound { x ≤ 4000000000 }
    requires l_bound { l ≤ 4000000000 }
    ensures { Cut m d u k x l result }
{
    // first, as the next call waits for it
    let s = m % d;
    let down = s <= d - s;
    let q = l / d;
    let r = l % d;
    let f = u % d;
    let sure = q * k + part(q, r, x % d, x / d + 1);
    let before = part(q, r, f, u / d);
    let step = if down { s } else { d - s };
    Rounds {
        foot: f,
        step: step,
        down: down,
        bound: r,
        sure: sure,
        before: before,
    }
}

// The upward count: how many of the first n elements of u, u + d, u + 2d, .. modulo m lie below l.
#[cycle(count_down_count_up)]
pub fn count_up(m: u64, d: u64, u: u64, n: u64, l: u64) -> u64
    requires { Takes m d u n l }
    ensures { result ≡ hits_up m d u n l }
{
    if n == 0 {
        0
    } else if d == 0 {
        still(u, n, l)
    } else {
        let e = end(m, d, u, n);
        let k = e / m;
        let c = cut(m, d, u, k, e % m, l);
        // without a whole round, or where no foot can be below, there is no smaller job
        let low = if (k == 0) | (c.bound == 0) {
            0
        } else if c.down {
            count_down(d, c.step, c.foot, k, c.bound)
        } else {
            count_up(d, c.step, c.foot, k, c.bound)
        };
        c.sure + low - c.before
    }
}

// The downward count: how many of the first n elements of u, u - d, u - 2d, .. modulo m lie below l.
// Read from its end the progression goes up and stops at u, so that the same rounds count it. Of its
// n - 1 steps, those up by m - d that pass m are the ones down by d that do not.
#[cycle(count_down_count_up)]
pub fn count_down(m: u64, d: u64, u: u64, n: u64, l: u64) -> u64
    requires { Takes m d u n l }
    ensures { result ≡ hits_down m d u n l }
{
    if n == 0 {
        0
    } else if d == 0 {
        still(u, n, l)
    } else {
        let e = end(m, m - d, u, n);
        let k = n - 1 - e / m;
        let c = cut(m, d, e % m, k, u, l);
        // without a whole round, or where no foot can be below, there is no smaller job
        let low = if (k == 0) | (c.bound == 0) {
            0
        } else if c.down {
            count_down(d, c.step, c.foot, k, c.bound)
        } else {
            count_up(d, c.step, c.foot, k, c.bound)
        };
        c.sure + low - c.before
    }
}

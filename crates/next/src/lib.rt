// The next hit of Xu: the first element of an arithmetic progression that lies below l, taken by the
// modulus p, in as many calls as Euclid's algorithm has steps. Round k has the elements from k * p to
// (k + 1) * p, before the modulus is taken.
#![tactic(auto)]

ghost use Rattle.std.specs.Prelude.{◌≤◌};
ghost use Rattle.next.specs.Hit.{Finds, Progression};
ghost use Rattle.next.specs.Rounds.{Searched, Least};

// The index of a hit and the round that it lies in: round 0 says that there is none. Two numbers stay
// in registers; an Option of them goes through memory at each call of the search, which was slower.
#[derive(Clone, Copy)]
struct Hit {
    index: u64,
    round: u64,
}

const NO_HIT: Hit = Hit { index: 0, round: 0 };

// The least hit, where the first element is none, so that round 0 has none. Where a round has a hit,
// its first element is one. Modulo a, the first elements from round 1 on are a progression with the
// difference a - r. As y is below l where l - 1 - y is, its mirror with the difference r has the same
// hits. The lesser difference is taken, so that the modulus at least halves from the next call on.
// Only a hit at an index i with i * w < b is asked for. An element here stands for at least w elements
// of the first call, so that this cuts the search to that call's n elements without a division. The
// six numbers stay in registers: a struct of them goes through memory at each call, which was slower.
fn search(p: u64, a: u64, u: u64, l: u64, w: u64, b: u64) -> Hit
    requires { Searched p a u l w }
    ensures { Least p a u l w b result.index result.round }
{
    if a == 0 {
        return NO_HIT;
    }
    // First, as the next call waits for them: one division gives both.
    let q = p / a;
    let r = p % a;
    // Round 1 starts at the index s, with f. Before it the elements rise from u.
    let s = (p - u + (a - 1)) / a;
    let x = s * w;
    if b <= x {
        return NO_HIT;
    }
    let f = u + s * a - p;
    if f < l {
        return Hit { index: s, round: 1 };
    }
    if r <= a - r {
        let h = search(a, r, a - f + l - 1, l, w * q, b - x);
        if 0 < h.round {
            return Hit {
                index: s + h.index * q + h.round - 1,
                round: h.index + 1,
            };
        }
    } else {
        let h = search(a, a - r, f, l, w * q, b - x);
        if 0 < h.round {
            return Hit {
                index: s + h.index * (q + 1) - h.round,
                round: h.index + 1,
            };
        }
    }
    NO_HIT
}

// The least i below n for which u + i * a, modulo p, lies below l, where there is one. The five numbers
// are the paper's.
pub fn next_hit(p: u64, a: u64, u: u64, l: u64, n: u64) -> Option<u64>
    requires progression { Progression p a u }
    requires n_bound { n ≤ 4000000000 }
    ensures { Finds p a u l n result }
{
    if n == 0 {
        return None;
    }
    if l == 0 {
        return None;
    }
    if u < l {
        return Some(0);
    }
    let h = search(p, a, u, l, 1, n);
    if h.round == 0 {
        return None;
    }
    let i = h.index;
    if i < n { Some(i) } else { None }
}

// Walks over rows of cells that test, count and search.
#![tactic(auto)]

ghost use Rattle.std.specs.Prelude.{◌≡◌, true, ◌+◌, ◌-◌, length};
ghost use Rattle.lists.specs.Lists.{filter};
ghost use Rattle.lists.specs.Rows.{all_zero};
ghost use Rattle.rule.specs.Rule.{Good};
ghost use Rattle.rows.specs.Sieves.{sifted};
ghost use Rattle.rows.specs.Walked.{cells_below, Ascending, all_in, in_order, rises_from};

pub mod sieve;

use rule::Settings;
use sieve::Sieve;

// The cells of the row rise strictly from above 0, and each is at most n and passes at the level.
// At level 0 every cell passes, and no hash is asked for. Good settings are asked for, as by `hasher`.
pub fn rises(settings: Settings, level: u32, row: &[u32]) -> bool
    requires { Good settings }
    ensures { result ≡ rises_from settings level 0 row.now }
{
    let ordered = in_order(settings.n, row);
    if level == 0 {
        return ordered;
    }
    ordered & all_pass(Sieve::of(settings, level), row)
}

// The three tests below leave no loop early, so that each turn is alike and the loop runs on vectors.

// The cells of the row rise strictly from above 0, and each is at most n.
fn in_order(n: u32, row: &[u32]) -> bool
    ensures { result ≡ in_order n 0 row.now }
{
    let mut all = true;
    let mut low: u32 = 0;
    for &x in row {
        all = all & ((low < x) & (x <= n));
        low = x;
    }
    all
}

// Every cell of the row passes the sieve.
fn all_pass(sieve: Sieve, row: &[u32]) -> bool
    ensures { result ≡ all_in (sifted sieve) row.now }
{
    let mut all = true;
    for &x in row {
        all = all & sieve.passes(x);
    }
    all
}

pub fn zeros(row: &[u32]) -> bool
    ensures { result ≡ all_zero row.now }
{
    let mut seen: u32 = 0;
    for &x in row {
        seen = seen | x;
    }
    seen == 0
}

// How many cells of a rising row are below x, by halving.
pub fn below(row: &[u32], x: u32) -> usize
    requires { Ascending row.now }
    ensures { result ≡ length (filter (cells_below x) row.now) }
{
    row.partition_point(|&y| y < x)
}

// How many cells of the row pass the sieve: a sum in a loop, as the three tests above are, each of whose
// turns is alike.
pub fn count_passing(sieve: Sieve, row: &[u32]) -> usize
    ensures { result ≡ length (filter (sifted sieve) row.now) }
{
    let mut many: usize = 0;
    for &x in row {
        if sieve.passes(x) {
            many = many + 1;
        }
    }
    many
}

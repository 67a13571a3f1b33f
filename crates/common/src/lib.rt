// What every crate uses and no crate is about: small arithmetic here, tests, questions, lists and loops in specs/.
#![tactic(auto)]

ghost use Rattle.std.specs.Prelude.{◌≡◌, ◌*◌, min as lesser, leb};
ghost use Rattle.common.specs.Tests.{within as is_within, pick as picked};
ghost use Rattle.common.specs.Rounding.{ceil_div};

// The lesser of two, as a function whose contract names that of the specs.
pub fn min(a: usize, b: usize) -> usize
    ensures { result ≡ lesser a b }
{
    a.min(b)
}

// The first where the test is true, else the second.
#[tactic(auto, unfolding(crate::specs::Tests::pick))]
pub fn pick(test: bool, a: usize, b: usize) -> usize
    ensures { result ≡ picked test a b }
{
    if test { a } else { b }
}

// Is n × m at most `most`?
pub fn product_fits(n: usize, m: usize, most: usize) -> bool
    ensures { result ≡ leb (n * m) most }
{
    n.checked_mul(m).is_some_and(|product| product <= most)
}

// Is x from `lo` to `hi`?
#[tactic(auto, unfolding(crate::specs::Tests::within, crate::specs::Tests::every))]
pub fn within(lo: u32, hi: u32, x: u32) -> bool
    ensures { result ≡ is_within lo hi x }
{
    (lo..=hi).contains(&x)
}

// a / b, rounded up; 0 where b is 0.
pub fn ceil_div(a: u32, b: u32) -> u32
    ensures { result ≡ ceil_div a b }
{
    if b == 0 { 0 } else { a.div_ceil(b) }
}

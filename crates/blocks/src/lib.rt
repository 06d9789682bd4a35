// Blocks of data symbols in a row: whether they make up the data, what one sums to, and the next that does not sum to 0.
#![tactic(auto)]

ghost use Rattle.std.specs.Prelude.{◌≡◌, ◌-◌, ◌*◌, ◌%◌, ◌<◌, ◌≤◌, eqb, leb, length, get_or};
ghost use Rattle.model.specs.Symbols.{choose, Below, sum_of_first};
ghost use Rattle.theory.specs.InBlocks.{length_of};
ghost use Rattle.blocks.specs.Blocks.{Doubled, WholeFrom, BrokenFrom};

// The first of q, 2 q, 4 q and so on that is above n.
#[tactic(auto, using(crate::specs::Blocks::doubled_none, crate::specs::Blocks::doubled_more))]
fn above(q: u32, n: u32) -> u32
    requires { (1 ≤ q) × (n ≤ 1048576) }
    ensures doubled { Doubled q result }
    ensures high { n < result }
{
    let mut m = q;
    // kept: m is doubled, so that no range says how many turns there are
    while m <= n {
        m += m;
    }
    m
}

// n, less m where it is not below. As a test of the two it would be compiled into a branch that goes either way; so the test is
// arithmetic, 1 or 0 by the carry of a difference.
#[tactic(auto, using(crate::specs::Blocks::by_carry))]
fn less(n: u32, m: u32) -> u32
    ensures { result ≡ choose (leb m n) (n - m) n }
{
    let above = (n as u64) + 4294967296 - (m as u64);
    n - m * ((above / 4294967296) as u32)
}

// What a division of n by q leaves, n being below a bound: halves of the bound, down to q, are taken off. No division, and the same way
// whatever n is.
#[tactic(auto, using(crate::specs::Blocks::doubled_half))]
fn rest_of(q: u32, bound: u32, n: u32) -> u32
    requires { (1 ≤ q) × Doubled q bound × (n < bound) }
    ensures { result ≡ n % q }
{
    let mut m = bound;
    let mut rest = n;
    // kept: m is halved, so that no range says how many turns there are
    while q < m {
        m = m / 2;
        rest = less(rest, m);
    }
    rest
}

// The length with which decode in blocks of so many symbols is made: blocks of 1 are those of decode, and a caller's 1, which test 12
// refuses, is 0.
#[tactic(auto, unfolding(theory::specs::InBlocks::length_of))]
pub fn length_of(block: u32) -> usize
    ensures { result ≡ length_of block }
{
    if block == 1 { 0 } else { block as usize }
}

// Whether blocks of so many symbols make up n data symbols.
pub fn divides(block: usize, n: usize) -> bool
    requires { (2 ≤ block) × (n ≤ 4096) }
    ensures { result ≡ eqb (n % block) 0 }
{
    if n < block {
        return n == 0;
    }
    let size = block as u32;
    let symbols = n as u32;
    rest_of(size, above(size, symbols), symbols) == 0
}

// One of q, 2 q, 4 q and so on that the sum of a block's symbols does not reach.
pub fn bound_of(q: u32, block: usize) -> u32
    requires { (1 ≤ q) × (q ≤ 256) × (block ≤ 4096) }
    ensures doubled { Doubled q result }
    ensures high { block * q ≤ result }
{
    above(q, (block as u32) * q)
}

// The sum of symbols, not yet modulo q: a straight pass.
#[tactic(auto, using(crate::specs::Blocks::sum_turn), unfolding(model::specs::Symbols::sum_of_first))]
fn total_of(s: &[u8]) -> u32
    requires { (length s.now ≤ 4096) × Below 256 s.now }
    ensures { result ≡ sum_of_first (length s.now) (λ p. get_or s.now p 0) }
{
    let mut total: u32 = 0;
    for x in s {
        total += *x as u32;
    }
    total
}

// What symbols sum to, modulo q, with a bound that they do not reach.
pub fn sum_of(q: u32, bound: u32, s: &[u8]) -> u8
    requires { (1 ≤ q)
        × (q ≤ 256)
        × Below q s.now
        × (length s.now ≤ 4096)
        × Doubled q bound
        × (length s.now * q ≤ bound) }
    ensures { result ≡ sum_of_first (length s.now) (λ p. get_or s.now p 0) % q }
{
    rest_of(q, bound, total_of(s)) as u8
}

// The start of the first block, from one on, whose symbols do not sum to 0 modulo q, or the end.
pub fn first_broken(q: u32, bound: u32, block: usize, s: &[u8], from: usize) -> usize
    requires { (1 ≤ q)
        × (q ≤ 256)
        × Below q s.now
        × (length s.now ≤ 4096)
        × (1 ≤ block)
        × Doubled q bound
        × (block * q ≤ bound)
        × WholeFrom block (length s.now) from }
    ensures { BrokenFrom q block s.now from result }
{
    let mut at = from;
    // kept: the start of a block is the answer, which `chunks` does not give, and `step_by` may divide
    while at < s.len() {
        let end = at + block;
        if sum_of(q, bound, &s[at..end]) != 0 {
            return at;
        }
        at = end;
    }
    at
}

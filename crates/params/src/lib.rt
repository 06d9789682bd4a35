// The parameters of a code: its numbers, which with a table of positions make the code, and the sizes that they give.
#![tactic(auto)]

ghost use Rattle.std.specs.Prelude.{◌≡◌, ◌*◌, ◌/◌, ◌%◌, ◌≤◌};

// "q is the alphabet size"; "b data branches of k symbols each, with k checks for all of them"; and whether the profile is that of bit pages.
#[derive(Clone, Copy)]
pub struct Params {
    pub q: u32,
    pub k: usize,
    pub b: usize,
    pub bits: bool,
}

// A term where a number is odd, else 0.
fn odd_term(n: usize, term: usize) -> usize
    ensures { result ≡ n % 2 * term }
{
    if n % 2 == 1 { term } else { 0 }
}

// b times n, by sums: some processors have no product of 64 bits. b is halved and n doubled; where b is odd, what n has become
// is added. With one branch it is n.
#[tactic(auto, using(crate::specs::Sizes::halved))]
pub fn times(b: usize, n: usize) -> usize
    requires { b * n ≤ 18446744073709551615 }
    ensures { result ≡ b * n }
{
    if b == 1 {
        return n;
    }
    let mut sum: usize = 0;
    let mut term = n;
    let mut rest = b;
    // kept: what is left is halved, so that no range or slice says how many turns there are
    while 1 < rest {
        sum += odd_term(rest, term);
        term += term;
        rest /= 2;
    }
    sum + odd_term(rest, term)
}

// The number of data symbols.
pub fn data_count(code: Params) -> usize
    requires { code.b * code.k ≤ 18446744073709551615 }
    ensures { result ≡ code.b * code.k }
{
    times(code.b, code.k)
}

// J, the number of positions in a run, of a table with this many positions, by differences: some processors have no quotient.
// With one branch it is all of them.
pub fn checks_each(code: Params, positions: usize) -> usize
    requires { 1 ≤ code.b }
    ensures { result ≡ positions / code.b }
{
    if code.b == 1 {
        return positions;
    }
    let mut each: usize = 0;
    let mut rest = positions;
    // kept: the number of turns is the quotient that is looked for
    while code.b <= rest {
        rest -= code.b;
        each += 1;
    }
    each
}

// The margin of a data symbol, which tells how firmly it stands: zeros among its estimates less the largest count of any one other value.
#![tactic(auto)]

ghost use Rattle.std.specs.Prelude.{◌≡◌, ◌+◌, ◌<◌, ◌≤◌, pos, ◌-ℤ◌};
ghost use Rattle.model.specs.Code.{checks_by};
ghost use Rattle.model.specs.Symbols.{same, count, symbols_at};
ghost use Rattle.model.specs.Vote.{margin};
ghost use Rattle.vote.specs.Others.{others};
ghost use Rattle.checks.specs.Checks.{AtChecks, estimates_by};
ghost use Rattle.ones.specs.Pages.{InBits};

use params::Params;

// The margin by its two terms, each at most 33: exact at both ends. Reliabilities too are such differences.
pub fn margin_of(zeros: u8, most: u8) -> i32
    requires { (zeros ≤ 33) × (most ≤ 33) }
    ensures { result ≡ pos zeros -ℤ pos most }
{
    (zeros as i32) - (most as i32)
}

// The zeros among the estimates of a data symbol: those at its checks, and its own difference where that is 0.
pub fn zeros_with(own: u8, others: u8) -> u8
    requires { others ≤ 32 }
    ensures { result ≡ others + same 0 own }
{
    others + symbols::equal(0, own)
}

// The largest count of a value other than 0 among the estimates of symbol j of a branch, whose run of positions is lent and whose own
// difference is given, pair by pair.
fn most_other_pairs(code: Params, positions: &[u16], j: usize, own: u8, s: &[u8]) -> u8
    requires { AtChecks code.k positions.now s.now × (j < code.k) }
    ensures { result ≡ others (estimates_by code.k positions.now j own s.now) }
{
    let n = positions.len() + 1;
    let mut found = [0u8; 33];
    checks::gather(code, positions, j, own, s, &mut found[..n]);
    vote::most_other(&found[..n])
}

// The same: on bit pages by the ones of the word that the estimates are gathered in.
fn most_other_at(bits: bool, code: Params, positions: &[u16], j: usize, own: u8, s: &[u8]) -> u8
    requires { AtChecks code.k positions.now s.now × (j < code.k) × InBits bits own s.now }
    ensures { result ≡ others (estimates_by code.k positions.now j own s.now) }
{
    if bits {
        return ones::ones_at(code, positions, j, own, s);
    }
    most_other_pairs(code, positions, j, own, s)
}

// The margin of symbol j of a branch, whose run of positions is lent and whose own difference and zeros among its estimates are given: the
// other values are counted.
pub fn margin_counted(
    bits: bool,
    code: Params,
    positions: &[u16],
    j: usize,
    own: u8,
    zeros: u8,
    s: &[u8],
) -> i32
    requires { AtChecks code.k positions.now s.now
        × (j < code.k)
        × (zeros ≡ count 0 (estimates_by code.k positions.now j own s.now))
        × InBits bits own s.now }
    ensures { result ≡ margin (estimates_by code.k positions.now j own s.now) }
{
    margin_of(zeros, most_other_at(bits, code, positions, j, own, s))
}

// The same by the zeros at its checks. Where at most one estimate is not 0, the zeros settle it.
pub fn margin_at(
    bits: bool,
    code: Params,
    positions: &[u16],
    j: usize,
    own: u8,
    counted: u8,
    s: &[u8],
) -> i32
    requires { AtChecks code.k positions.now s.now
        × (j < code.k)
        × (counted ≡ count 0 (symbols_at s.now (checks_by code.k positions.now j)))
        × InBits bits own s.now }
    ensures { result ≡ margin (estimates_by code.k positions.now j own s.now) }
{
    let zeros = zeros_with(own, counted);
    let n = positions.len() + 1;
    if (zeros as usize) == n {
        return margin_of(zeros, 0);
    }
    if (zeros as usize) + 1 == n {
        return margin_of(zeros, 1);
    }
    margin_counted(bits, code, positions, j, own, zeros, s)
}

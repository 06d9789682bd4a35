// The reliability of a data symbol against a block's sum e, as i32: the zeros among its estimates less those that equal e.
#![tactic(auto)]

ghost use Rattle.std.specs.Prelude.{◌≡◌, ◌<◌, ◌≤◌, length, get_or};
ghost use Rattle.model.specs.Code.{data_count};
ghost use Rattle.model.specs.Outer.{reliability};
ghost use Rattle.params.specs.Codes.{code_by};
ghost use Rattle.checks.specs.Checks.{AtChecks, estimates_by};
ghost use Rattle.checks.specs.Places.{AtTable};
ghost use Rattle.checks.specs.Estimates.{estimates_at};

use params::Params;

// Of estimates.
fn reliability_of(es: &[u8], e: u8) -> i32
    requires { length es.now ≤ 33 }
    ensures { result ≡ reliability e es.now }
{
    let zeros = vote::count_equal(es, 0);
    margins::margin_of(zeros, vote::count_equal(es, e))
}

// Of symbol j of a branch, whose run of positions is lent and whose own difference is given.
fn reliability_in(code: Params, positions: &[u16], j: usize, own: u8, e: u8, s: &[u8]) -> i32
    requires { AtChecks code.k positions.now s.now × (j < code.k) }
    ensures { result ≡ reliability e (estimates_by code.k positions.now j own s.now) }
{
    let n = positions.len() + 1;
    let mut es = [0u8; 33];
    checks::gather(code, positions, j, own, s, &mut es[..n]);
    reliability_of(&es[..n], e)
}

// Of a data symbol, from S and D.
pub fn reliability_at(
    code: Params,
    positions: &[u16],
    symbol: usize,
    e: u8,
    s: &[u8],
    d: &[u8],
) -> i32
    requires { AtTable (code_by code positions.now) s.now
        × (length d.now ≡ data_count (code_by code positions.now))
        × (symbol < data_count (code_by code positions.now)) }
    ensures { result ≡ reliability e (estimates_at (code_by code positions.now) symbol (get_or d.now symbol 0) s.now) }
{
    let place = checks::place_of(code, params::checks_each(code, positions.len()), symbol);
    let first = place.first;
    let last = place.last;
    let index = symbol - place.start;
    reliability_in(code, &positions[first..last], index, d[symbol], e, s)
}

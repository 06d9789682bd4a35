// Why a wide data symbol is left or would be changed.
#![tactic(auto)]

ghost use Rattle.std.specs.Prelude.{◌≡◌, ◌<◌, length, get_or};
ghost use Rattle.model.specs.Code.{data_count};
ghost use Rattle.checks.specs.Checks.{AtChecks, estimates_by};
ghost use Rattle.checks.specs.Places.{AtTable};
ghost use Rattle.checks.specs.Estimates.{estimates_at};
ghost use Rattle.grounds.specs.Told.{told_of};
ghost use Rattle.wide_symbols.specs.Codes.{wide_code_by};

use grounds::Told;
use params::Params;
use wide_symbols::WideSymbol;

// What explain tells of symbol j of a branch, whose run of positions is lent and whose own difference is given.
fn tell<S: WideSymbol>(
    code: Params,
    positions: &[u16],
    j: usize,
    own: S,
    threshold: u32,
    s: &[S],
) -> Told
    requires { AtChecks code.k positions.now (S.numbers s.now) × (j < code.k) }
    ensures { result ≡ told_of threshold (estimates_by code.k positions.now j (S.number own) (S.numbers s.now)) }
{
    let n = positions.len() + 1;
    let mut found = [0u32; 33];
    wide_visits::gather(code, positions, j, own, s, &mut found[..n]);
    wide_vote::tell(&found[..n], threshold)
}

// What explain tells of a data symbol, from S and D.
pub fn tell_symbol<S: WideSymbol>(
    code: Params,
    positions: &[u16],
    symbol: usize,
    threshold: u32,
    s: &[S],
    d: &[S],
) -> Told
    requires { AtTable (wide_code_by S.profile code positions.now) (S.numbers s.now)
        × (length d.now ≡ data_count (wide_code_by S.profile code positions.now))
        × (symbol < data_count (wide_code_by S.profile code positions.now)) }
    ensures { result ≡ told_of threshold (estimates_at (wide_code_by S.profile code positions.now) symbol (get_or (S.numbers d.now) symbol 0) (S.numbers s.now)) }
{
    let place = checks::place_of(code, params::checks_each(code, positions.len()), symbol);
    let index = symbol - place.start;
    tell(
        code,
        &positions[place.first..place.last],
        index,
        d[symbol],
        threshold,
        s,
    )
}

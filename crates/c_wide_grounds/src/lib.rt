// Why a wide data symbol is left or would be changed, from S and D in bytes: only the estimates are read, so that no buffer is as long as the code.
#![tactic(auto)]

ghost use Rattle.std.specs.Prelude.{◌≡◌, ◌+◌, ◌*◌, ◌<◌, length, get_or};
ghost use Rattle.model.specs.Code.{data_count, check_count};
ghost use Rattle.model.specs.Bytes.{symbol_size, symbols_of};
ghost use Rattle.checks.specs.Checks.{AtChecks, estimates_by};
ghost use Rattle.checks.specs.Places.{AtTable};
ghost use Rattle.checks.specs.Estimates.{estimates_at};
ghost use Rattle.grounds.specs.Told.{told_of};
ghost use Rattle.wide_symbols.specs.Codes.{wide_code_by};

use grounds::Told;
use params::Params;
use wide_symbols::WideSymbol;

// The estimates of data symbol j: its own difference, and the syndrome at each of its checks.
fn gather<S: WideSymbol>(
    code: Params,
    positions: &[u16],
    j: usize,
    own: S,
    s: &[u8],
    es: &mut [u32],
)
    requires { AtChecks code.k positions.now (symbols_of (symbol_size S.profile) s.now)
        × (length s.now ≡ code.k * symbol_size S.profile)
        × (j < code.k)
        × (length es.old ≡ length positions.now + 1) }
    ensures { es.new ≡ estimates_by code.k positions.now j (S.number own) (symbols_of (symbol_size S.profile) s.now) }
{
    let size = S::SIZE;
    es[0] = own.widened();
    for (i, p) in positions.iter().enumerate() {
        let c = checks::check_of(code.k, j, *p);
        es[i + 1] = S::get(s, c * size).widened();
    }
}

// What explain tells of symbol j of a branch, whose run of positions is lent and whose own difference is given.
fn tell<S: WideSymbol>(
    code: Params,
    positions: &[u16],
    j: usize,
    own: S,
    threshold: u32,
    s: &[u8],
) -> Told
    requires { AtChecks code.k positions.now (symbols_of (symbol_size S.profile) s.now)
        × (length s.now ≡ code.k * symbol_size S.profile)
        × (j < code.k) }
    ensures { result ≡ told_of threshold (estimates_by code.k positions.now j (S.number own) (symbols_of (symbol_size S.profile) s.now)) }
{
    let n = positions.len() + 1;
    let mut found = [0u32; 33];
    gather(code, positions, j, own, s, &mut found[..n]);
    wide_vote::tell(&found[..n], threshold)
}

// What explain tells of a data symbol, from S and D.
pub fn tell_symbol<S: WideSymbol>(
    code: Params,
    positions: &[u16],
    symbol: usize,
    threshold: u32,
    s: &[u8],
    d: &[u8],
) -> Told
    requires { AtTable (wide_code_by S.profile code positions.now) (symbols_of (symbol_size S.profile) s.now)
        × (length s.now ≡ check_count (wide_code_by S.profile code positions.now) * symbol_size S.profile)
        × (length d.now ≡ data_count (wide_code_by S.profile code positions.now) * symbol_size S.profile)
        × (symbol < data_count (wide_code_by S.profile code positions.now)) }
    ensures { result ≡ told_of threshold (estimates_at (wide_code_by S.profile code positions.now) symbol
        (get_or (symbols_of (symbol_size S.profile) d.now) symbol 0) (symbols_of (symbol_size S.profile) s.now)) }
{
    let place = checks::place_of(code, params::checks_each(code, positions.len()), symbol);
    let index = symbol - place.start;
    let own = S::get(d, symbol * S::SIZE);
    tell(
        code,
        &positions[place.first..place.last],
        index,
        own,
        threshold,
        s,
    )
}

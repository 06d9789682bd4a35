// A subtraction from the syndrome at the checks of a data symbol, which keeps the zeros at the checks of every data symbol exact.
#![tactic(auto)]

ghost use Rattle.std.specs.Prelude.{◌≡◌, ◌<◌, ◌≤◌, set};
ghost use Rattle.model.specs.Code.{check_count, checks_each, checks_of};
ghost use Rattle.model.specs.Symbols.{Below, subtract_at};
ghost use Rattle.params.specs.Codes.{code_by};
ghost use Rattle.checks.specs.Places.{AtTable, Placed};
ghost use Rattle.zeros.specs.Counts.{zero_counts};
ghost use Rattle.recount.specs.Recount.{Recounts, recounted};

use checks::Place;
use params::Params;

// What each symbol of a branch gains and loses where check c is one of its checks.
fn recount_run(code: Params, positions: &[u16], c: usize, gained: u8, lost: u8, zeros: &mut [u8])
    requires { Recounts code.k positions.now c gained lost zeros.old }
    ensures { zeros.new ≡ recounted code.k positions.now c gained lost zeros.old }
{
    for p in positions {
        let x = checks::symbol_of(code.k, c, *p);
        zeros[x] = zeros[x] + gained - lost;
    }
}

// v written at check c of the syndrome. Where that makes or ends a zero, the count of each data symbol in that check follows,
// branch by branch; a run has `each` positions.
pub fn write_check(
    code: Params,
    positions: &[u16],
    each: usize,
    c: usize,
    v: u8,
    s: &mut [u8],
    zeros: &mut [u8],
)
    requires { AtTable (code_by code positions.now) s.old
        × (each ≡ checks_each (code_by code positions.now))
        × (c < check_count (code_by code positions.now))
        × (zeros.old ≡ zero_counts (code_by code positions.now) s.old) }
    ensures { (s.new ≡ set s.old c v)
        × (zeros.new ≡ zero_counts (code_by code positions.now) (set s.old c v)) }
{
    let lost = symbols::equal(0, s[c]);
    let gained = symbols::equal(0, v);
    s[c] = v;
    if gained == lost {
        return;
    }
    let k = code.k;
    let mut from = 0;
    let mut at = 0;
    for _r in 0..code.b {
        recount_run(
            code,
            &positions[from..from + each],
            c,
            gained,
            lost,
            &mut zeros[at..at + k],
        );
        from += each;
        at += k;
    }
}

// h subtracted from the syndrome at each check of a data symbol, and the zeros counted again.
pub fn subtract_checks(
    code: Params,
    positions: &[u16],
    place: Place,
    h: u8,
    s: &mut [u8],
    zeros: &mut [u8],
)
    requires { AtTable (code_by code positions.now) s.old
        × Placed (code_by code positions.now) place
        × (code.q ≤ 256)
        × (h < code.q)
        × Below code.q s.old
        × (zeros.old ≡ zero_counts (code_by code positions.now) s.old) }
    ensures { (s.new ≡ subtract_at code.q h (checks_of (code_by code positions.now) place.symbol) s.old)
        × (zeros.new ≡ zero_counts (code_by code positions.now) s.new) }
{
    let run = &positions[place.first..place.last];
    let index = place.symbol - place.start;
    for p in run {
        let c = checks::check_of(code.k, index, *p);
        let v = symbols::sub_mod(code.q, s[c], h);
        write_check(code, positions, run.len(), c, v, s, zeros);
    }
}

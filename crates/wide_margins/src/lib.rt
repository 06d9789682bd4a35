// The margins of wide data symbols.
#![tactic(auto)]

ghost use Rattle.std.specs.Prelude.{◌≡◌, List, ℕ, ◌<◌, length};
ghost use Rattle.model.specs.Code.{data_count, checks_by};
ghost use Rattle.model.specs.Decoder.{state_by, margins_of};
ghost use Rattle.model.specs.Symbols.{count, symbols_at};
ghost use Rattle.model.specs.Vote.{margin};
ghost use Rattle.vote.specs.Others.{others};
ghost use Rattle.checks.specs.Checks.{AtChecks, estimates_by};
ghost use Rattle.checks.specs.Places.{AtTable};
ghost use Rattle.zeros.specs.Counts.{zero_counts};
ghost use Rattle.margins.specs.Margins.{Left};
ghost use Rattle.wide_symbols.specs.Codes.{wide_code_by};

use checks::Place;
use params::Params;
use wide_symbols::WideSymbol;

// The largest count of a value other than 0 among the estimates of symbol j of a branch.
fn most_other_at<S: WideSymbol>(code: Params, positions: &[u16], j: usize, own: S, s: &[S]) -> u8
    requires { AtChecks code.k positions.now (S.numbers s.now) × (j < code.k) }
    ensures { result ≡ others (estimates_by code.k positions.now j (S.number own) (S.numbers s.now)) }
{
    let n = positions.len() + 1;
    let mut found = [0u32; 33];
    wide_visits::gather(code, positions, j, own, s, &mut found[..n]);
    wide_vote::most_other(&found[..n])
}

// The margin of symbol j of a branch, whose run of positions is lent and whose own difference and zeros among its estimates are given: the
// other values are counted.
pub fn margin_counted<S: WideSymbol>(
    code: Params,
    positions: &[u16],
    j: usize,
    own: S,
    zeros: u8,
    s: &[S],
) -> i32
    requires { AtChecks code.k positions.now (S.numbers s.now)
        × (j < code.k)
        × (zeros ≡ count 0 (estimates_by code.k positions.now j (S.number own) (S.numbers s.now))) }
    ensures { result ≡ margin (estimates_by code.k positions.now j (S.number own) (S.numbers s.now)) }
{
    margins::margin_of(zeros, most_other_at(code, positions, j, own, s))
}

// The same by the zeros at its checks. Where at most one estimate is not 0, the zeros settle it.
pub fn margin_at<S: WideSymbol>(
    code: Params,
    positions: &[u16],
    j: usize,
    own: S,
    others: u8,
    s: &[S],
) -> i32
    requires { AtChecks code.k positions.now (S.numbers s.now)
        × (j < code.k)
        × (others ≡ count 0 (symbols_at (S.numbers s.now) (checks_by code.k positions.now j))) }
    ensures { result ≡ margin (estimates_by code.k positions.now j (S.number own) (S.numbers s.now)) }
{
    let zeros = others + wide_symbols::zeros_of(own);
    let n = positions.len() + 1;
    if (zeros as usize) == n {
        return margins::margin_of(zeros, 0);
    }
    if (zeros as usize) + 1 == n {
        return margins::margin_of(zeros, 1);
    }
    margin_counted(code, positions, j, own, zeros, s)
}

// The margin of every data symbol, branch by branch, from S and D and the zeros at the checks of each.
fn write_margins<S: WideSymbol>(
    code: Params,
    positions: &[u16],
    zeros: &[u8],
    s: &[S],
    d: &[S],
    margins: &mut [i32],
)
    requires { AtTable (wide_code_by S.profile code positions.now) (S.numbers s.now)
        × (zeros.now ≡ zero_counts (wide_code_by S.profile code positions.now) (S.numbers s.now))
        × (length d.now ≡ data_count (wide_code_by S.profile code positions.now))
        × (length margins.old ≡ data_count (wide_code_by S.profile code positions.now)) }
    ensures { (r : List ℕ) → margins.new ≡ margins_of (wide_code_by S.profile code positions.now) (state_by r (S.numbers s.now) (S.numbers d.now)) }
{
    let mut place = Place::opening(code.k, params::checks_each(code, positions.len()));
    // Kept: a place goes from branch to branch; a `for` over branches would carry it along all the same.
    while place.symbol < d.len() {
        let run = &positions[place.first..place.last];
        for j in place.symbol..place.end {
            let index = j - place.start;
            margins[j] = margin_at(code, run, index, d[j], zeros[j], s);
        }
        place = place.at(place.end).onward(code.k);
    }
}

// The margins that a decode hands back, from what it leaves: `end` is the distance at its end.
pub fn fill<S: WideSymbol>(
    code: Params,
    positions: &[u16],
    end: u32,
    zeros: &[u8],
    s: &[S],
    d: &[S],
    margins: &mut [i32],
)
    requires { Left (wide_code_by S.profile code positions.now) (S.numbers s.now) (S.numbers d.now) zeros.now end × (length margins.old ≡ data_count (wide_code_by S.profile code positions.now)) }
    ensures { (r : List ℕ) → margins.new ≡ margins_of (wide_code_by S.profile code positions.now) (state_by r (S.numbers s.now) (S.numbers d.now)) }
{
    if end == 0 {
        page_margins::write_firm(
            (params::checks_each(code, positions.len()) + 1) as u8,
            margins,
        );
    } else {
        let n = params::data_count(code);
        write_margins(code, positions, &zeros[..n], s, d, margins);
    }
}

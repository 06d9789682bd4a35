// A visit to a wide data symbol: the vote over its estimates, and the change that the vote decides. The zeros at the checks of every
// data symbol are kept, as for bytes: by marks, a byte for each symbol of the syndrome, 0 where it is 0 and else 1.
#![tactic(auto)]

ghost use Rattle.std.specs.Prelude.{◌≡◌, ◌+◌, ◌<◌, ◌≤◌, length, get_or, set};
ghost use Rattle.model.specs.Code.{checks_each, checks_of, highest};
ghost use Rattle.model.specs.Decoder.{state_by};
ghost use Rattle.model.specs.Symbols.{sub, count, subtract_at};
ghost use Rattle.checks.specs.Checks.{AtChecks, estimates_by};
ghost use Rattle.checks.specs.Places.{AtTable, Placed};
ghost use Rattle.zeros.specs.Counts.{zero_counts};
ghost use Rattle.open_symbols.specs.Settled.{Open};
ghost use Rattle.visits.specs.Decisions.{to_subtract};
ghost use Rattle.visits.specs.Progress.{progress, ReadyIn, visit_of};
ghost use Rattle.wide.specs.Marks.{marks_of};
ghost use Rattle.wide_symbols.specs.Codes.{wide_code_by};

use checks::Place;
use params::Params;
use tally::Tally;
use wide_symbols::WideSymbol;

// The estimates of data symbol j: its own difference, and the syndrome at each of its checks.
pub fn gather<S: WideSymbol>(
    code: Params,
    positions: &[u16],
    j: usize,
    own: S,
    s: &[S],
    es: &mut [u32],
)
    requires { AtChecks code.k positions.now (S.numbers s.now)
        × (j < code.k)
        × (length es.old ≡ length positions.now + 1) }
    ensures { es.new ≡ estimates_by code.k positions.now j (S.number own) (S.numbers s.now) }
{
    es[0] = own.widened();
    for (i, p) in positions.iter().enumerate() {
        let c = checks::check_of(code.k, j, *p);
        es[i + 1] = s[c].widened();
    }
}

// h subtracted from symbol j of the result and of the difference.
fn subtract_symbol<S: WideSymbol>(j: usize, h: S, res: &mut [S], difference: &mut [S])
    requires { (j < length res.old) × (j < length difference.old) }
    ensures { (S.numbers res.new ≡ set (S.numbers res.old) j (sub (highest S.profile) (get_or (S.numbers res.old) j 0) (S.number h)))
        × (S.numbers difference.new ≡ set (S.numbers difference.old) j (sub (highest S.profile) (get_or (S.numbers difference.old) j 0) (S.number h))) }
{
    res[j] = res[j].sub_wrap(h);
    difference[j] = difference[j].sub_wrap(h);
}

// h subtracted from the syndrome at each check of a data symbol; the marks and the zeros follow.
fn subtract_checks<S: WideSymbol>(
    code: Params,
    positions: &[u16],
    place: Place,
    h: S,
    s: &mut [S],
    zeros: &mut [u8],
    marks: &mut [u8],
)
    requires { AtTable (wide_code_by S.profile code positions.now) (S.numbers s.old)
        × Placed (wide_code_by S.profile code positions.now) place
        × (zeros.old ≡ zero_counts (wide_code_by S.profile code positions.now) (S.numbers s.old))
        × (marks.old ≡ marks_of (S.numbers s.old)) }
    ensures { (S.numbers s.new ≡ subtract_at (highest S.profile) (S.number h) (checks_of (wide_code_by S.profile code positions.now) place.symbol) (S.numbers s.old))
        × (zeros.new ≡ zero_counts (wide_code_by S.profile code positions.now) (S.numbers s.new))
        × (marks.new ≡ marks_of (S.numbers s.new)) }
{
    let each = place.last - place.first;
    let index = place.symbol - place.start;
    for p in &positions[place.first..place.last] {
        let c = checks::check_of(code.k, index, *p);
        let v = s[c].sub_wrap(h);
        s[c] = v;
        recount::write_check(
            code,
            positions,
            each,
            c,
            wide_symbols::mark(v),
            marks,
            zeros,
        );
    }
}

// What is subtracted at symbol j of a branch, whose run of positions is lent and whose own difference and zeros are given: h0, or 0.
fn full_vote<S: WideSymbol>(
    code: Params,
    positions: &[u16],
    j: usize,
    threshold: u8,
    own: S,
    zeros: u8,
    syndrome: &[S],
) -> u32
    requires { AtChecks code.k positions.now (S.numbers syndrome.now)
        × (j < code.k)
        × (zeros ≡ count 0 (estimates_by code.k positions.now j (S.number own) (S.numbers syndrome.now)))
        × (zeros + threshold ≤ 255) }
    ensures { result ≡ to_subtract threshold (estimates_by code.k positions.now j (S.number own) (S.numbers syndrome.now)) }
{
    let n = positions.len() + 1;
    let mut es = [0u32; 33];
    gather(code, positions, j, own, syndrome, &mut es[..n]);
    wide_vote::decided(&es[..n], threshold, zeros)
}

// A visit to a data symbol, which the zeros do not settle, with one threshold. zeros has the zeros at the checks of each data
// symbol, and marks the marks of the syndrome, before and after.
pub fn visit<S: WideSymbol>(
    code: Params,
    positions: &[u16],
    place: Place,
    threshold: u8,
    res: &mut [S],
    syndrome: &mut [S],
    difference: &mut [S],
    zeros: &mut [u8],
    marks: &mut [u8],
    tally: Tally,
) -> Tally
    requires { ReadyIn (highest S.profile) (wide_code_by S.profile code positions.now) (state_by (S.numbers res.old) (S.numbers syndrome.old) (S.numbers difference.old))
        × Placed (wide_code_by S.profile code positions.now) place
        × (tally.changes < 4294967295)
        × (zeros.old ≡ zero_counts (wide_code_by S.profile code positions.now) (S.numbers syndrome.old))
        × (marks.old ≡ marks_of (S.numbers syndrome.old))
        × Open (checks_each (wide_code_by S.profile code positions.now)) threshold (S.numbers difference.old) zeros.old place.symbol }
    ensures step { progress (S.numbers res.new) (S.numbers syndrome.new) (S.numbers difference.new) result
        ≡ visit_of (wide_code_by S.profile code positions.now) (record { symbol = place.symbol; threshold = threshold })
        (progress (S.numbers res.old) (S.numbers syndrome.old) (S.numbers difference.old) tally) }
    ensures counted { zeros.new ≡ zero_counts (wide_code_by S.profile code positions.now) (S.numbers syndrome.new) }
    ensures marked { marks.new ≡ marks_of (S.numbers syndrome.new) }
{
    let j = place.symbol;
    let index = j - place.start;
    let own = difference[j];
    let all = zeros[j] + wide_symbols::zeros_of(own);
    let found = full_vote(
        code,
        &positions[place.first..place.last],
        index,
        threshold,
        own,
        all,
        syndrome,
    );
    if found == 0 {
        return tally;
    }
    let h = S::narrowed(found);
    subtract_symbol(j, h, res, difference);
    subtract_checks(code, positions, place, h, syndrome, zeros, marks);
    tally.changed()
}

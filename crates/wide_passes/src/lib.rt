// The run of passes over wide data symbols.
#![tactic(auto)]

ghost use Rattle.std.specs.Prelude.{◌≡◌, ◌≤◌, ◌+◌, length};
ghost use Rattle.model.specs.Code.{data_count, check_count, checks_each, highest};
ghost use Rattle.model.specs.Decoder.{state_by};
ghost use Rattle.theory.specs.Counters.{Clear};
ghost use Rattle.zeros.specs.Counts.{zero_counts};
ghost use Rattle.visits.specs.Progress.{progress, ReadyIn};
ghost use Rattle.passes.specs.Runs.{visits, run_of};
ghost use Rattle.wide.specs.Marks.{marks_of};
ghost use Rattle.wide_symbols.specs.Codes.{wide_code_by};

use checks::Place;
use params::Params;
use tally::Tally;
use wide_symbols::WideSymbol;

// A pass: branch by branch, from one data symbol that the zeros do not settle to the next.
fn pass<S: WideSymbol>(
    code: Params,
    positions: &[u16],
    each: usize,
    threshold: u8,
    res: &mut [S],
    syndrome: &mut [S],
    difference: &mut [S],
    zeros: &mut [u8],
    marks: &mut [u8],
    opened: Tally,
) -> Tally
    requires { ReadyIn (highest S.profile) (wide_code_by S.profile code positions.now) (state_by (S.numbers res.old) (S.numbers syndrome.old) (S.numbers difference.old))
        × (each ≡ checks_each (wide_code_by S.profile code positions.now))
        × (opened.changes + 4096 ≤ 4294967295)
        × (zeros.old ≡ zero_counts (wide_code_by S.profile code positions.now) (S.numbers syndrome.old))
        × (marks.old ≡ marks_of (S.numbers syndrome.old)) }
    ensures made { progress (S.numbers res.new) (S.numbers syndrome.new) (S.numbers difference.new) result
        ≡ visits (wide_code_by S.profile code positions.now) threshold (data_count (wide_code_by S.profile code positions.now))
        (progress (S.numbers res.old) (S.numbers syndrome.old) (S.numbers difference.old) opened) }
    ensures counted { zeros.new ≡ zero_counts (wide_code_by S.profile code positions.now) (S.numbers syndrome.new) }
    ensures marked { marks.new ≡ marks_of (S.numbers syndrome.new) }
{
    let mut tally = opened;
    let mut place = Place::opening(code.k, each);
    for _branch in 0..code.b {
        // kept: which symbol is next depends on the zeros
        loop {
            place = open_symbols::open_from(place, each, threshold, difference, zeros);
            if place.end <= place.symbol {
                break;
            }
            tally = wide_visits::visit(
                code, positions, place, threshold, res, syndrome, difference, zeros, marks, tally,
            );
            place = place.along();
        }
        place = place.onward(code.k);
    }
    tally
}

// Passes with the thresholds in order. An idle pass is followed by the first later one whose threshold is smaller; if there is none, they end.
fn run_counted<S: WideSymbol>(
    code: Params,
    positions: &[u16],
    thresholds: &[u8],
    res: &mut [S],
    syndrome: &mut [S],
    difference: &mut [S],
    zeros: &mut [u8],
    marks: &mut [u8],
    opened: Tally,
) -> Tally
    requires { ReadyIn (highest S.profile) (wide_code_by S.profile code positions.now) (state_by (S.numbers res.old) (S.numbers syndrome.old) (S.numbers difference.old))
        × (length thresholds.now ≤ 64)
        × (opened.changes ≡ 0)
        × (zeros.old ≡ zero_counts (wide_code_by S.profile code positions.now) (S.numbers syndrome.old))
        × (marks.old ≡ marks_of (S.numbers syndrome.old)) }
    ensures ran { progress (S.numbers res.new) (S.numbers syndrome.new) (S.numbers difference.new) result
        ≡ run_of (wide_code_by S.profile code positions.now) thresholds.now
        (progress (S.numbers res.old) (S.numbers syndrome.old) (S.numbers difference.old) opened) }
    ensures counted { zeros.new ≡ zero_counts (wide_code_by S.profile code positions.now) (S.numbers syndrome.new) }
    ensures marked { marks.new ≡ marks_of (S.numbers syndrome.new) }
{
    let n = thresholds.len();
    let each = params::checks_each(code, positions.len());
    let mut tally = opened;
    let mut p: usize = 0;
    let mut count: u32 = 0;
    // kept: document 01 names this form, a loop that yields the passes run by `break`
    let passes = loop {
        if n <= p {
            break count;
        }
        let before = tally.changes;
        let threshold = thresholds[p];
        tally = pass(
            code, positions, each, threshold, res, syndrome, difference, zeros, marks, tally,
        );
        count += 1;
        p += 1;
        if tally.changes == before {
            p = schedule::next_smaller(thresholds, p, threshold);
        }
    };
    tally.passed(passes)
}

// The passes of a decode, from an opened page. The zeros at the checks of every data symbol are counted first, into a lent buffer of
// one byte a data symbol, all zero before, which afterwards has those of the syndrome that is left; marks is a byte a check.
pub fn run<S: WideSymbol>(
    code: Params,
    positions: &[u16],
    thresholds: &[u8],
    res: &mut [S],
    syndrome: &mut [S],
    difference: &mut [S],
    zeros: &mut [u8],
    marks: &mut [u8],
    opened: Tally,
) -> Tally
    requires { ReadyIn (highest S.profile) (wide_code_by S.profile code positions.now) (state_by (S.numbers res.old) (S.numbers syndrome.old) (S.numbers difference.old))
        × (length thresholds.now ≤ 64)
        × (opened.changes ≡ 0)
        × (length zeros.old ≡ data_count (wide_code_by S.profile code positions.now))
        × Clear zeros.old
        × (length marks.old ≡ check_count (wide_code_by S.profile code positions.now)) }
    ensures ran { progress (S.numbers res.new) (S.numbers syndrome.new) (S.numbers difference.new) result
        ≡ run_of (wide_code_by S.profile code positions.now) thresholds.now
        (progress (S.numbers res.old) (S.numbers syndrome.old) (S.numbers difference.old) opened) }
    ensures counted { zeros.new ≡ zero_counts (wide_code_by S.profile code positions.now) (S.numbers syndrome.new) }
    ensures marked { marks.new ≡ marks_of (S.numbers syndrome.new) }
{
    wide_symbols::mark_into(marks, syndrome);
    zeros::count_zeros(code, positions, marks, zeros);
    run_counted(
        code, positions, thresholds, res, syndrome, difference, zeros, marks, opened,
    )
}

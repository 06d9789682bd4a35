// The run of passes over the data symbols.
#![tactic(auto)]

ghost use Rattle.std.specs.Prelude.{◌≡◌, true, ◌≤◌, ◌+◌, length};
ghost use Rattle.model.specs.Code.{data_count, checks_each};
ghost use Rattle.model.specs.Decoder.{state_by};
ghost use Rattle.params.specs.Codes.{code_by};
ghost use Rattle.theory.specs.Counters.{Clear};
ghost use Rattle.zeros.specs.Counts.{zero_counts};
ghost use Rattle.visits.specs.Progress.{progress, Ready};
ghost use Rattle.passes.specs.Runs.{visits, run_of};

use checks::Place;
use params::Params;
use tally::Tally;

// A pass: branch by branch, from one data symbol that the zeros do not settle to the next.
fn pass(
    bits: bool,
    code: Params,
    positions: &[u16],
    each: usize,
    threshold: u8,
    res: &mut [u8],
    syndrome: &mut [u8],
    difference: &mut [u8],
    zeros: &mut [u8],
    counters: &mut [u8],
    opened: Tally,
) -> Tally
    requires { Ready (code_by code positions.now) (state_by res.old syndrome.old difference.old)
        × (each ≡ checks_each (code_by code positions.now))
        × (opened.changes + 4096 ≤ 4294967295)
        × (zeros.old ≡ zero_counts (code_by code positions.now) syndrome.old)
        × Clear counters.old
        × (bits ≡ true → code.q ≤ 2) }
    ensures made { progress res.new syndrome.new difference.new result
        ≡ visits (code_by code positions.now) threshold (data_count (code_by code positions.now))
        (progress res.old syndrome.old difference.old opened) }
    ensures counted { zeros.new ≡ zero_counts (code_by code positions.now) syndrome.new }
    ensures kept { counters.new ≡ counters.old }
{
    let mut tally = opened;
    let mut place = Place::opening(code.k, each);
    for _branch in 0..code.b {
        // kept: which symbol is next depends on the zeros
        loop {
            place = open_symbols::open_from(place, each, threshold, difference, zeros);
            if place.end <= place.symbol {
                break;
            }
            tally = visits::visit(
                bits, code, positions, place, threshold, res, syndrome, difference, zeros,
                counters, tally,
            );
            place = place.along();
        }
        place = place.onward(code.k);
    }
    tally
}

// Passes with the thresholds in order. An idle pass is followed by the first later one whose threshold is smaller; if there is none, they end.
fn run_counted(
    bits: bool,
    code: Params,
    positions: &[u16],
    thresholds: &[u8],
    res: &mut [u8],
    syndrome: &mut [u8],
    difference: &mut [u8],
    zeros: &mut [u8],
    counters: &mut [u8],
    opened: Tally,
) -> Tally
    requires { Ready (code_by code positions.now) (state_by res.old syndrome.old difference.old)
        × (length thresholds.now ≤ 64)
        × (opened.changes ≡ 0)
        × (zeros.old ≡ zero_counts (code_by code positions.now) syndrome.old)
        × Clear counters.old
        × (bits ≡ true → code.q ≤ 2) }
    ensures ran { progress res.new syndrome.new difference.new result
        ≡ run_of (code_by code positions.now) thresholds.now (progress res.old syndrome.old difference.old opened) }
    ensures counted { zeros.new ≡ zero_counts (code_by code positions.now) syndrome.new }
    ensures kept { counters.new ≡ counters.old }
{
    let n = thresholds.len();
    let each = params::checks_each(code, positions.len());
    let mut tally = opened;
    let mut p: usize = 0;
    let mut count: u32 = 0;
    // kept: document 01 names this form, a loop that yields the passes run by `break`
    let passes = loop {
        if n <= p {
            break count;
        }
        let before = tally.changes;
        let threshold = thresholds[p];
        tally = pass(
            bits, code, positions, each, threshold, res, syndrome, difference, zeros, counters,
            tally,
        );
        count += 1;
        p += 1;
        if tally.changes == before {
            p = schedule::next_smaller(thresholds, p, threshold);
        }
    };
    tally.passed(passes)
}

// The passes of a decode, from an opened page. The zeros at the checks of every data symbol are counted first, into a lent buffer of
// one byte a data symbol, all zero before, which afterwards has those of the syndrome that is left. The visits vote by the counters, where 256 are lent;
// `bits` as in `visit`.
pub fn run(
    bits: bool,
    code: Params,
    positions: &[u16],
    thresholds: &[u8],
    res: &mut [u8],
    syndrome: &mut [u8],
    difference: &mut [u8],
    zeros: &mut [u8],
    counters: &mut [u8],
    opened: Tally,
) -> Tally
    requires { Ready (code_by code positions.now) (state_by res.old syndrome.old difference.old)
        × (length thresholds.now ≤ 64)
        × (opened.changes ≡ 0)
        × (length zeros.old ≡ data_count (code_by code positions.now))
        × Clear zeros.old
        × Clear counters.old
        × (bits ≡ true → code.q ≤ 2) }
    ensures ran { progress res.new syndrome.new difference.new result
        ≡ run_of (code_by code positions.now) thresholds.now (progress res.old syndrome.old difference.old opened) }
    ensures counted { zeros.new ≡ zero_counts (code_by code positions.now) syndrome.new }
    ensures kept { counters.new ≡ counters.old }
{
    zeros::count_zeros(code, positions, syndrome, zeros);
    run_counted(
        bits, code, positions, thresholds, res, syndrome, difference, zeros, counters, opened,
    )
}

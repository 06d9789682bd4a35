// A visit to a data symbol: the vote over its estimates, and the change that the vote decides.
#![tactic(auto)]

ghost use Rattle.std.specs.Prelude.{◌≡◌, true, ◌+◌, ◌<◌, ◌≤◌, length, get_or, set};
ghost use Rattle.model.specs.Code.{checks_each, checks_of};
ghost use Rattle.model.specs.Decoder.{state_by, change};
ghost use Rattle.model.specs.Symbols.{sub, count};
ghost use Rattle.params.specs.Codes.{code_by};
ghost use Rattle.theory.specs.Counters.{Clear};
ghost use Rattle.vote.specs.Leading.{vote_of};
ghost use Rattle.checks.specs.Checks.{AtChecks, estimates_by};
ghost use Rattle.checks.specs.Places.{Placed};
ghost use Rattle.ones.specs.Pages.{InBits};
ghost use Rattle.zeros.specs.Counts.{zero_counts};
ghost use Rattle.open_symbols.specs.Settled.{Open};
ghost use Rattle.visits.specs.Decisions.{to_subtract};
ghost use Rattle.visits.specs.Progress.{progress, Ready, visit_of};

use checks::Place;
use params::Params;
use tally::Tally;
use vote::Vote;

// h subtracted from symbol j of the result and of the difference.
fn subtract_symbol(code: Params, j: usize, h: u8, res: &mut [u8], difference: &mut [u8])
    requires { (code.q ≤ 256)
        × (h < code.q)
        × (j < length res.old)
        × (j < length difference.old)
        × (get_or res.old j 0 < code.q)
        × (get_or difference.old j 0 < code.q) }
    ensures { (res.new ≡ set res.old j (sub code.q (get_or res.old j 0) h))
        × (difference.new ≡ set difference.old j (sub code.q (get_or difference.old j 0) h)) }
{
    res[j] = symbols::sub_mod(code.q, res[j], h);
    difference[j] = symbols::sub_mod(code.q, difference[j], h);
}

// The change of a data symbol by h.
pub fn change_at(
    code: Params,
    positions: &[u16],
    place: Place,
    h: u8,
    res: &mut [u8],
    syndrome: &mut [u8],
    difference: &mut [u8],
)
    requires { Ready (code_by code positions.now) (state_by res.old syndrome.old difference.old)
        × Placed (code_by code positions.now) place
        × (h < code.q) }
    ensures { state_by res.new syndrome.new difference.new
        ≡ change code.q (checks_of (code_by code positions.now) place.symbol) place.symbol h (state_by res.old syndrome.old difference.old) }
{
    let j = place.symbol;
    let first = place.first;
    let last = place.last;
    let index = j - place.start;
    subtract_symbol(code, j, h, res, difference);
    checks::subtract_at(code, &positions[first..last], index, h, syndrome);
}

// The vote over estimates: by the counters, where 256 are lent, and else pair by pair.
fn vote_by(es: &[u8], counters: &mut [u8]) -> Vote<u8>
    requires { (2 ≤ length es.now) × (length es.now ≤ 33) × Clear counters.old }
    ensures told { result ≡ vote_of es.now }
    ensures kept { counters.new ≡ counters.old }
{
    if counters.len() == 256 {
        return counters::vote_counted(es, counters);
    }
    vote::vote_over(es)
}

// h0 where estimates are a change at a threshold, else 0.
pub fn decided(es: &[u8], threshold: u8, counters: &mut [u8]) -> u8
    requires { (2 ≤ length es.now) × (length es.now ≤ 33) × Clear counters.old }
    ensures subtracts { result ≡ to_subtract threshold es.now }
    ensures kept { counters.new ≡ counters.old }
{
    let v = vote_by(es, counters);
    if v.lead - v.next <= threshold {
        return 0;
    }
    v.leader
}

// The same for the estimates of symbol j of a branch. On bits, where `bits` says so, their ones decide. Else a change needs a leader that stands more often
// among them than their zeros and the threshold together, which a quick test tells before they are gathered.
fn full_vote(
    bits: bool,
    code: Params,
    positions: &[u16],
    j: usize,
    threshold: u8,
    own: u8,
    zeros: u8,
    syndrome: &[u8],
    counters: &mut [u8],
) -> u8
    requires { AtChecks code.k positions.now syndrome.now
        × (j < code.k)
        × (zeros ≡ count 0 (estimates_by code.k positions.now j own syndrome.now))
        × (zeros + threshold ≤ 255)
        × Clear counters.old
        × InBits bits own syndrome.now }
    ensures subtracts { result ≡ to_subtract threshold (estimates_by code.k positions.now j own syndrome.now) }
    ensures kept { counters.new ≡ counters.old }
{
    if bits {
        return ones::decided_at(code, positions, j, threshold, own, syndrome);
    }
    if !quick_tests::lead_above(code, positions, j, own, syndrome, zeros + threshold) {
        return 0;
    }
    let n = positions.len() + 1;
    let mut es = [0u8; 33];
    checks::gather(code, positions, j, own, syndrome, &mut es[..n]);
    decided(&es[..n], threshold, counters)
}

// A visit to a data symbol, which the zeros do not settle, with one threshold. zeros has the zeros at the checks of each data
// symbol, before and after; counters are 256 for a vote by them, or none, and all zero. `bits` says whether the vote is by ones; it is
// handed down by itself, not in the code's numbers, so that it is a constant where the call's is.
pub fn visit(
    bits: bool,
    code: Params,
    positions: &[u16],
    place: Place,
    threshold: u8,
    res: &mut [u8],
    syndrome: &mut [u8],
    difference: &mut [u8],
    zeros: &mut [u8],
    counters: &mut [u8],
    tally: Tally,
) -> Tally
    requires { Ready (code_by code positions.now) (state_by res.old syndrome.old difference.old)
        × Placed (code_by code positions.now) place
        × (tally.changes < 4294967295)
        × (zeros.old ≡ zero_counts (code_by code positions.now) syndrome.old)
        × Clear counters.old
        × Open (checks_each (code_by code positions.now)) threshold difference.old zeros.old place.symbol
        × (bits ≡ true → code.q ≤ 2) }
    ensures step { progress res.new syndrome.new difference.new result
        ≡ visit_of (code_by code positions.now) (record { symbol = place.symbol; threshold = threshold })
        (progress res.old syndrome.old difference.old tally) }
    ensures counted { zeros.new ≡ zero_counts (code_by code positions.now) syndrome.new }
    ensures kept { counters.new ≡ counters.old }
{
    let j = place.symbol;
    let first = place.first;
    let last = place.last;
    let index = j - place.start;
    let own = difference[j];
    let all = zeros[j] + symbols::equal(0, own);
    let h = full_vote(
        bits,
        code,
        &positions[first..last],
        index,
        threshold,
        own,
        all,
        syndrome,
        counters,
    );
    if h == 0 {
        return tally;
    }
    subtract_symbol(code, j, h, res, difference);
    recount::subtract_checks(code, positions, place, h, syndrome, zeros);
    tally.changed()
}

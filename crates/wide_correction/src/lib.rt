// The correction of a page of wide symbols that was tested: the page is opened, the passes are run, and the distance at the end is counted.
#![tactic(auto)]

ghost use Rattle.std.specs.Prelude.{◌≡◌, ◌≢◌, ◌+◌, ◌≤◌, ◌++◌, length};
ghost use Rattle.model.specs.Symbols.{weight};
ghost use Rattle.model.specs.Code.{data_count, check_count};
ghost use Rattle.model.specs.Decoder.{state_by, opened, distance_to};
ghost use Rattle.theory.specs.Answers.{Opens, Taken};
ghost use Rattle.theory.specs.Counters.{Clear};
ghost use Rattle.visits.specs.Progress.{progress};
ghost use Rattle.zeros.specs.Counts.{zero_counts};
ghost use Rattle.correction.specs.Decoded.{decoded};
ghost use Rattle.wide_symbols.specs.Codes.{wide_code_by};

use params::Params;
use tally::Tally;
use wide_symbols::WideSymbol;

// A page written over the result and S, its data and its checks, as opening takes it.
pub fn load_page<S: WideSymbol>(page: &[S], res: &mut [S], s: &mut [S])
    requires { length page.now ≡ length res.old + length s.old }
    ensures { S.numbers res.new ++ S.numbers s.new ≡ S.numbers page.now }
{
    let n = res.len();
    wide_symbols::copy_into(res, &page[..n]);
    wide_symbols::copy_into(s, &page[n..]);
}

// Opens a page, whose data stands in the result and whose checks stand in S: S becomes the syndrome, D zeros. Hands back the distance at the start.
pub fn open_state<S: WideSymbol>(
    code: Params,
    positions: &[u16],
    res: &[S],
    s: &mut [S],
    d: &mut [S],
) -> u32
    requires { Opens (wide_code_by S.profile code positions.now) (S.numbers res.now ++ S.numbers s.old) (state_by (S.numbers res.now) (S.numbers s.old) (S.numbers d.old)) }
    ensures state { state_by (S.numbers res.now) (S.numbers s.new) (S.numbers d.new)
        ≡ opened (wide_code_by S.profile code positions.now) (S.numbers res.now ++ S.numbers s.old) }
    ensures distance { result
        ≡ distance_to (wide_code_by S.profile code positions.now) (S.numbers res.now ++ S.numbers s.old)
        (opened (wide_code_by S.profile code positions.now) (S.numbers res.now ++ S.numbers s.old)) }
{
    wide_codeword::write_syndrome(code, positions, res, s);
    wide_symbols::clear(d);
    wide_symbols::weight_of(s)
}

// The number of nonzero symbols of D and S together.
fn state_weight<S: WideSymbol>(d: &[S], s: &[S]) -> u32
    requires { (length d.now ≤ 4096) × (length s.now ≤ 4096) }
    ensures { result ≡ weight (S.numbers d.now) + weight (S.numbers s.now) }
{
    wide_symbols::weight_of(d) + wide_symbols::weight_of(s)
}

// Decodes a page that was tested, whose data stands in the result and whose checks stand in S. A page at distance 0 needs no visit to know that
// its passes are idle. zeros has one byte a data symbol, all zero, and marks one a check; afterwards, where the distance at the end is not 0,
// zeros has the zeros at the checks of each.
pub fn decode_state<S: WideSymbol>(
    code: Params,
    positions: &[u16],
    thresholds: &[u8],
    zeros: &mut [u8],
    marks: &mut [u8],
    res: &mut [S],
    s: &mut [S],
    d: &mut [S],
) -> Tally
    requires { Taken (wide_code_by S.profile code positions.now) (S.numbers res.old ++ S.numbers s.old) thresholds.now (state_by (S.numbers res.old) (S.numbers s.old) (S.numbers d.old))
        × (length zeros.old ≡ data_count (wide_code_by S.profile code positions.now))
        × Clear zeros.old
        × (length marks.old ≡ check_count (wide_code_by S.profile code positions.now)) }
    ensures done { progress (S.numbers res.new) (S.numbers s.new) (S.numbers d.new) result
        ≡ decoded (wide_code_by S.profile code positions.now) thresholds.now (S.numbers res.old ++ S.numbers s.old) }
    ensures counted { result.end ≢ 0 → zeros.new ≡ zero_counts (wide_code_by S.profile code positions.now) (S.numbers s.new) }
{
    let start = open_state(code, positions, res, s, d);
    if start == 0 {
        let idle = schedule::idle_passes(thresholds);
        return Tally::opened(0).passed(idle);
    }
    let opened = Tally::opened(start);
    let ran = wide_passes::run(code, positions, thresholds, res, s, d, zeros, marks, opened);
    ran.ended(state_weight(d, s))
}

// The C form of a pass on wide symbols, with the buffers for its symbols lent: the tests, the pass on the symbols that the bytes stand for, and
// what it leaves, written as bytes.
#![tactic(auto)]

ghost use Rattle.std.specs.Prelude.{◌≡◌, ◌*◌, ◌≤◌, length};
ghost use Rattle.model.specs.Calls.{passed_state, passed_changes};
ghost use Rattle.model.specs.Code.{data_count, check_count};
ghost use Rattle.model.specs.Decoder.{state_by};
ghost use Rattle.model.specs.Bytes.{symbol_size, state_read, state_written};
ghost use Rattle.theory.specs.Counters.{Clear};
ghost use Rattle.refusals.specs.Numbers.{answer};
ghost use Rattle.wide_symbols.specs.Codes.{wide_code_by};
ghost use Rattle.c_wide.specs.Decodes.{pass_number, PassTakes};

use params::Params;
use refusals::Refusal;
use tally::Tally;
use wide_symbols::WideSymbol;

// The tests, by the numbers of symbols that the bytes stand for.
pub fn pass_answer<S: WideSymbol>(
    code: Params,
    positions: &[u16],
    threshold: u32,
    res: &[u8],
    syndrome: &[u8],
    difference: &[u8],
    changes: &[u8],
) -> Result<(), Refusal>
    requires { (code.k ≤ 4294967295) × (code.b ≤ 4294967295) }
    ensures { answer result ≡ pass_number (symbol_size S.profile) (wide_code_by S.profile code positions.now) threshold
        (state_by res.now syndrome.now difference.now) changes.now }
{
    let n = params::data_count(code);
    let fits = lengths::state_fits(
        changes.len() == 4,
        n,
        code.k,
        wide_bytes::count::<S>(res),
        wide_bytes::count::<S>(syndrome),
        wide_bytes::count::<S>(difference),
    );
    wide_answers::pass_answer::<S>(code, positions, fits, threshold)
}

// One pass that was tested, in buffers of the lengths that its symbols need, the zeros all zero. Hands back the changes.
pub fn pass_once<S: WideSymbol>(
    code: Params,
    positions: &[u16],
    threshold: u32,
    res: &[u8],
    syndrome: &[u8],
    difference: &[u8],
    changes: &[u8],
    zeros: &mut [u8],
    marks: &mut [u8],
    r: &mut [S],
    s: &mut [S],
    d: &mut [S],
) -> u32
    requires { PassTakes (symbol_size S.profile) (wide_code_by S.profile code positions.now) threshold (state_by res.now syndrome.now difference.now) changes.now
        × (length zeros.old ≡ data_count (wide_code_by S.profile code positions.now))
        × Clear zeros.old
        × (length marks.old ≡ check_count (wide_code_by S.profile code positions.now))
        × (length r.old ≡ data_count (wide_code_by S.profile code positions.now))
        × (length s.old ≡ check_count (wide_code_by S.profile code positions.now))
        × (length d.old ≡ data_count (wide_code_by S.profile code positions.now)) }
    ensures state { state_by (S.numbers r.new) (S.numbers s.new) (S.numbers d.new)
        ≡ passed_state (wide_code_by S.profile code positions.now) threshold
        (state_read (symbol_size S.profile) (state_by res.now syndrome.now difference.now)) }
    ensures changed { result
        ≡ passed_changes (wide_code_by S.profile code positions.now) threshold
        (state_read (symbol_size S.profile) (state_by res.now syndrome.now difference.now)) }
{
    wide_bytes::read_symbols(res, r);
    wide_bytes::read_symbols(syndrome, s);
    wide_bytes::read_symbols(difference, d);
    let thresholds = [threshold as u8];
    let opened = Tally::opened(0);
    let tally = wide_passes::run(code, positions, &thresholds, r, s, d, zeros, marks, opened);
    tally.changes
}

// The result, S and D written as bytes.
pub fn write_state<S: WideSymbol>(
    r: &[S],
    s: &[S],
    d: &[S],
    res: &mut [u8],
    syndrome: &mut [u8],
    difference: &mut [u8],
)
    requires { (length res.old ≡ length r.now * symbol_size S.profile)
        × (length syndrome.old ≡ length s.now * symbol_size S.profile)
        × (length difference.old ≡ length d.now * symbol_size S.profile)
        × (length r.now ≤ 8192)
        × (length s.now ≤ 8192)
        × (length d.now ≤ 8192) }
    ensures { state_by res.new syndrome.new difference.new
        ≡ state_written (symbol_size S.profile) (state_by (S.numbers r.now) (S.numbers s.now) (S.numbers d.now)) }
{
    wide_bytes::write_symbols(res, r);
    wide_bytes::write_symbols(syndrome, s);
    wide_bytes::write_symbols(difference, d);
}

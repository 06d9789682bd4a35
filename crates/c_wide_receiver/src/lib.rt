// The C form of decode on wide symbols, with the buffers for its symbols lent: the tests, the decoding of a page that was tested, and
// what it leaves, written as bytes.
#![tactic(auto)]

ghost use Rattle.std.specs.Prelude.{◌≡◌, ◌≢◌, ◌*◌, ◌≤◌, length};
ghost use Rattle.model.specs.Code.{data_count, check_count};
ghost use Rattle.model.specs.Decoder.{state_by};
ghost use Rattle.model.specs.Bytes.{symbol_size, symbols_of};
ghost use Rattle.theory.specs.Answers.{Taken};
ghost use Rattle.theory.specs.Counters.{Clear};
ghost use Rattle.visits.specs.Progress.{progress};
ghost use Rattle.zeros.specs.Counts.{zero_counts};
ghost use Rattle.margins.specs.Margins.{Left};
ghost use Rattle.correction.specs.Decoded.{decoded};
ghost use Rattle.refusals.specs.Numbers.{answer};
ghost use Rattle.wide_symbols.specs.Codes.{wide_code_by};
ghost use Rattle.c_wide.specs.Decodes.{decode_number, left_bytes};

use params::Params;
use refusals::Refusal;
use tally::Tally;
use wide_symbols::WideSymbol;

// The tests, by the numbers of symbols that the bytes stand for.
pub fn decode_answer<S: WideSymbol>(
    code: Params,
    positions: &[u16],
    page: &[u8],
    thresholds: &[u8],
    res: &[u8],
    syndrome: &[u8],
    difference: &[u8],
    margins: &[u8],
    counts: &[u8],
) -> Result<(), Refusal>
    requires { (code.k ≤ 4294967295) × (code.b ≤ 4294967295) }
    ensures { answer result ≡ decode_number (symbol_size S.profile) (wide_code_by S.profile code positions.now) page.now thresholds.now
        (state_by res.now syndrome.now difference.now) margins.now counts.now }
{
    let n = params::data_count(code);
    let others = lengths::bytes_fit(margins.len(), n, counts.len());
    let fits = lengths::decode_fits(
        others,
        n,
        code.k,
        wide_bytes::count::<S>(page),
        wide_bytes::count::<S>(res),
        wide_bytes::count::<S>(syndrome),
        wide_bytes::count::<S>(difference),
    );
    wide_answers::decode_answer::<S>(code, positions, fits, thresholds)
}

// Decodes a page that was tested, in buffers of the lengths that its symbols need, the zeros all zero. Its data is read into r and its checks
// into s, where it is opened.
pub fn receive<S: WideSymbol>(
    code: Params,
    positions: &[u16],
    page: &[u8],
    thresholds: &[u8],
    zeros: &mut [u8],
    marks: &mut [u8],
    r: &mut [S],
    s: &mut [S],
    d: &mut [S],
) -> Tally
    requires { Taken (wide_code_by S.profile code positions.now) (symbols_of (symbol_size S.profile) page.now) thresholds.now (state_by (S.numbers r.old) (S.numbers s.old) (S.numbers d.old))
        × (length zeros.old ≡ data_count (wide_code_by S.profile code positions.now))
        × Clear zeros.old
        × (length marks.old ≡ data_count (wide_code_by S.profile code positions.now)) }
    ensures done { progress (S.numbers r.new) (S.numbers s.new) (S.numbers d.new) result
        ≡ decoded (wide_code_by S.profile code positions.now) thresholds.now (symbols_of (symbol_size S.profile) page.now) }
    ensures counted { result.end ≢ 0 → zeros.new ≡ zero_counts (wide_code_by S.profile code positions.now) (S.numbers s.new) }
{
    let n = r.len() * S::SIZE;
    let m = s.len();
    wide_bytes::read_symbols(&page[..n], r);
    wide_bytes::read_symbols(&page[n..], s);
    wide_correction::decode_state(code, positions, thresholds, zeros, &mut marks[..m], r, s, d)
}

// Writes what a decode leaves as bytes: the symbols, the margins and the counts.
pub fn hand_back<S: WideSymbol>(
    code: Params,
    positions: &[u16],
    tally: Tally,
    zeros: &[u8],
    marks: &mut [u8],
    r: &[S],
    s: &[S],
    d: &[S],
    res: &mut [u8],
    syndrome: &mut [u8],
    difference: &mut [u8],
    margins: &mut [u8],
    counts: &mut [u8],
)
    requires { Left (wide_code_by S.profile code positions.now) (S.numbers s.now) (S.numbers d.now) zeros.now tally.end
        × (length r.now ≡ data_count (wide_code_by S.profile code positions.now))
        × (length marks.old ≡ data_count (wide_code_by S.profile code positions.now))
        × (length res.old ≡ data_count (wide_code_by S.profile code positions.now) * symbol_size S.profile)
        × (length syndrome.old ≡ check_count (wide_code_by S.profile code positions.now) * symbol_size S.profile)
        × (length difference.old ≡ data_count (wide_code_by S.profile code positions.now) * symbol_size S.profile)
        × (length margins.old ≡ 4 * data_count (wide_code_by S.profile code positions.now))
        × (length counts.old ≡ 16) }
    ensures { record {
      state = state_by res.new syndrome.new difference.new;
      margins = margins.new;
      counts = counts.new;
    } ≡ left_bytes (symbol_size S.profile) (wide_code_by S.profile code positions.now) (state_by (S.numbers r.now) (S.numbers s.now) (S.numbers d.now))
        (record { passes = tally.passes; changes = tally.changes; start = tally.start; end = tally.end }) }
{
    wide_margin_bytes::put_margins(code, positions, tally.end, zeros, marks, s, d, margins);
    wide_bytes::write_symbols(res, r);
    wide_bytes::write_symbols(syndrome, s);
    wide_bytes::write_symbols(difference, d);
    number_bytes::put_counts(counts, tally.passes, tally.changes, tally.start, tally.end);
}

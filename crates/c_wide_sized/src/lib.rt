// The C form of decode on wide symbols with the positions read, which has the buffers for the symbols. They come in three sizes, each in
// a function of its own that is never inlined, so that a call takes no more stack than the size of its code needs.
#![tactic(auto)]

ghost use Rattle.std.specs.Prelude.{◌≡◌, ◌*◌, ◌≤◌, length};
ghost use Rattle.model.specs.Code.{data_count, check_count};
ghost use Rattle.model.specs.Decoder.{state_by};
ghost use Rattle.model.specs.Bytes.{symbol_size};
ghost use Rattle.theory.specs.Counters.{Clear};
ghost use Rattle.wide_symbols.specs.Codes.{wide_code_by};
ghost use Rattle.c_wide.specs.Decodes.{DecodeTakes, decoded_bytes};

use params::Params;
use wide_buffers::SmallSymbol;
use wide_symbols::WideSymbol;

// Decodes a page that was tested, in buffers of n and of k symbols, and writes what it leaves as bytes.
fn decode_in<S: WideSymbol>(
    code: Params,
    positions: &[u16],
    page: &[u8],
    thresholds: &[u8],
    zeros: &mut [u8],
    marks: &mut [u8],
    r: &mut [S],
    s: &mut [S],
    d: &mut [S],
    res: &mut [u8],
    syndrome: &mut [u8],
    difference: &mut [u8],
    margins: &mut [u8],
    counts: &mut [u8],
)
    requires { DecodeTakes (symbol_size S.profile) (wide_code_by S.profile code positions.now) page.now thresholds.now
        (state_by res.old syndrome.old difference.old) margins.old counts.old
        × (length zeros.old ≡ data_count (wide_code_by S.profile code positions.now))
        × Clear zeros.old
        × (length marks.old ≡ data_count (wide_code_by S.profile code positions.now))
        × (length r.old ≡ data_count (wide_code_by S.profile code positions.now))
        × (length s.old ≡ check_count (wide_code_by S.profile code positions.now))
        × (length d.old ≡ data_count (wide_code_by S.profile code positions.now)) }
    ensures { record {
      state = state_by res.new syndrome.new difference.new;
      margins = margins.new;
      counts = counts.new;
    } ≡ decoded_bytes (symbol_size S.profile) (wide_code_by S.profile code positions.now) thresholds.now page.now }
{
    let tally = c_wide_receiver::receive(code, positions, page, thresholds, zeros, marks, r, s, d);
    c_wide_receiver::hand_back(
        code, positions, tally, zeros, marks, r, s, d, res, syndrome, difference, margins, counts,
    );
}

// Decodes a page that was tested, of a code of at most N data symbols.
#[inline(never)]
pub fn decode_within<S: SmallSymbol, const N: usize>(
    code: Params,
    positions: &[u16],
    page: &[u8],
    thresholds: &[u8],
    res: &mut [u8],
    syndrome: &mut [u8],
    difference: &mut [u8],
    margins: &mut [u8],
    counts: &mut [u8],
)
    requires { (N ≤ 4096)
        × DecodeTakes (symbol_size S.profile) (wide_code_by S.profile code positions.now) page.now thresholds.now
        (state_by res.old syndrome.old difference.old) margins.old counts.old
        × (code.b * code.k ≤ N) }
    ensures { record {
      state = state_by res.new syndrome.new difference.new;
      margins = margins.new;
      counts = counts.new;
    } ≡ decoded_bytes (symbol_size S.profile) (wide_code_by S.profile code positions.now) thresholds.now page.now }
{
    S::takes_few_bytes();
    let n = params::data_count(code);
    let m = code.k;
    let mut zeros = [0u8; N];
    let mut marks = [0u8; N];
    let mut r = [S::narrowed(0); N];
    let mut s = [S::narrowed(0); N];
    let mut d = [S::narrowed(0); N];
    decode_in(
        code,
        positions,
        page,
        thresholds,
        &mut zeros[..n],
        &mut marks[..n],
        &mut r[..n],
        &mut s[..m],
        &mut d[..n],
        res,
        syndrome,
        difference,
        margins,
        counts,
    );
}

// The checks of a page of wide symbols in bytes: the syndrome, worked out in symbols on the stack and written over the checks. The symbols have
// buffers of three sizes, each in a function of its own that is never inlined, so that a small code takes a small part of the stack.
#![tactic(auto)]

ghost use Rattle.std.specs.Prelude.{◌≡◌, ◌++◌, ◌*◌, ◌+◌, ◌≤◌, length};
ghost use Rattle.model.specs.Code.{data_count, check_count, page_length, code_word, syndrome};
ghost use Rattle.model.specs.Decoder.{state_by, opened};
ghost use Rattle.model.specs.Bytes.{symbol_size, symbols_of, symbol_bytes, state_written};
ghost use Rattle.theory.specs.Codes.{Usable};
ghost use Rattle.wide_symbols.specs.Codes.{wide_code_by};
ghost use Rattle.c_wide.specs.Calls.{StateBytes};

use params::Params;
use wide_buffers::SmallSymbol;
use wide_symbols::WideSymbol;

// The syndrome of data and checks in bytes, read into buffers of n and of k symbols, and written over the checks.
fn over<S: WideSymbol>(
    code: Params,
    positions: &[u16],
    data: &[u8],
    s: &mut [u8],
    sent: &mut [S],
    checks: &mut [S],
)
    requires { Usable (wide_code_by S.profile code positions.now)
        × (length «data».now ≡ data_count (wide_code_by S.profile code positions.now) * symbol_size S.profile)
        × (length s.old ≡ check_count (wide_code_by S.profile code positions.now) * symbol_size S.profile)
        × (length sent.old ≡ data_count (wide_code_by S.profile code positions.now))
        × (length checks.old ≡ check_count (wide_code_by S.profile code positions.now)) }
    ensures { s.new ≡ symbol_bytes (symbol_size S.profile)
        (syndrome (wide_code_by S.profile code positions.now) (symbols_of (symbol_size S.profile) «data».now ++ symbols_of (symbol_size S.profile) s.old)) }
{
    wide_bytes::read_symbols(data, sent);
    wide_bytes::read_symbols(s, checks);
    wide_codeword::write_syndrome(code, positions, sent, checks);
    wide_bytes::write_symbols(s, checks);
}

// By buffers of N, of at most N data symbols.
#[inline(never)]
fn within<S: SmallSymbol, const N: usize>(
    code: Params,
    positions: &[u16],
    data: &[u8],
    s: &mut [u8],
)
    requires { (N ≤ 4096)
        × Usable (wide_code_by S.profile code positions.now)
        × (length «data».now ≡ data_count (wide_code_by S.profile code positions.now) * symbol_size S.profile)
        × (length s.old ≡ check_count (wide_code_by S.profile code positions.now) * symbol_size S.profile)
        × (data_count (wide_code_by S.profile code positions.now) ≤ N) }
    ensures { s.new ≡ symbol_bytes (symbol_size S.profile)
        (syndrome (wide_code_by S.profile code positions.now) (symbols_of (symbol_size S.profile) «data».now ++ symbols_of (symbol_size S.profile) s.old)) }
{
    S::takes_few_bytes();
    let n = params::data_count(code);
    let mut u = [S::narrowed(0); N];
    let mut v = [S::narrowed(0); N];
    over(code, positions, data, s, &mut u[..n], &mut v[..code.k]);
}

// By the smallest buffers that hold the data.
fn over_checks<S: SmallSymbol>(code: Params, positions: &[u16], data: &[u8], s: &mut [u8])
    requires { Usable (wide_code_by S.profile code positions.now)
        × (length «data».now ≡ data_count (wide_code_by S.profile code positions.now) * symbol_size S.profile)
        × (length s.old ≡ check_count (wide_code_by S.profile code positions.now) * symbol_size S.profile) }
    ensures { s.new ≡ symbol_bytes (symbol_size S.profile)
        (syndrome (wide_code_by S.profile code positions.now) (symbols_of (symbol_size S.profile) «data».now ++ symbols_of (symbol_size S.profile) s.old)) }
{
    let n = params::data_count(code);
    if n <= 128 {
        within::<S, 128>(code, positions, data, s);
    } else if n <= 1024 {
        within::<S, 1024>(code, positions, data, s);
    } else {
        within::<S, 4096>(code, positions, data, s);
    }
}

// Encodes data that was tested: its bytes in front, and behind them the syndrome that is worked out where zeros stand, which is the checks.
pub fn encode_into<S: SmallSymbol>(code: Params, positions: &[u16], data: &[u8], page: &mut [u8])
    requires { Usable (wide_code_by S.profile code positions.now)
        × (length «data».now ≡ data_count (wide_code_by S.profile code positions.now) * symbol_size S.profile)
        × (length page.old ≡ page_length (wide_code_by S.profile code positions.now) * symbol_size S.profile) }
    ensures { page.new ≡ symbol_bytes (symbol_size S.profile) (code_word (wide_code_by S.profile code positions.now) (symbols_of (symbol_size S.profile) «data».now)) }
{
    let n = data.len();
    slices::copy_into(&mut page[..n], data);
    let checks = &mut page[n..];
    slices::clear(checks);
    over_checks::<S>(code, positions, data, checks);
}

// The syndrome of a page that was tested, worked out over its checks.
pub fn syndrome_into<S: SmallSymbol>(code: Params, positions: &[u16], page: &[u8], s: &mut [u8])
    requires { Usable (wide_code_by S.profile code positions.now)
        × (length page.now ≡ page_length (wide_code_by S.profile code positions.now) * symbol_size S.profile)
        × (length s.old ≡ check_count (wide_code_by S.profile code positions.now) * symbol_size S.profile) }
    ensures { s.new ≡ symbol_bytes (symbol_size S.profile) (syndrome (wide_code_by S.profile code positions.now) (symbols_of (symbol_size S.profile) page.now)) }
{
    let n = page.len() - s.len();
    slices::copy_into(s, &page[n..]);
    over_checks::<S>(code, positions, &page[..n], s);
}

// Opens a page that was tested: its data in the result, the syndrome in S, zeros in D.
pub fn open_into<S: SmallSymbol>(
    code: Params,
    positions: &[u16],
    page: &[u8],
    res: &mut [u8],
    s: &mut [u8],
    d: &mut [u8],
)
    requires { Usable (wide_code_by S.profile code positions.now)
        × (length page.now ≡ page_length (wide_code_by S.profile code positions.now) * symbol_size S.profile)
        × StateBytes (wide_code_by S.profile code positions.now) (symbol_size S.profile) (state_by res.old s.old d.old) }
    ensures { state_by res.new s.new d.new
        ≡ state_written (symbol_size S.profile) (opened (wide_code_by S.profile code positions.now) (symbols_of (symbol_size S.profile) page.now)) }
{
    let n = res.len();
    slices::copy_into(res, &page[..n]);
    slices::clear(d);
    syndrome_into::<S>(code, positions, page, s);
}

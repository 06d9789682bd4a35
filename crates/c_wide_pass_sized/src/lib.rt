// The C form of a pass on wide symbols with the positions read, which has the buffers for the symbols, in sizes as those of decode.
#![tactic(auto)]

ghost use Rattle.std.specs.Prelude.{◌≡◌, ◌*◌, ◌≤◌};
ghost use Rattle.model.specs.Decoder.{state_by};
ghost use Rattle.model.specs.Bytes.{symbol_size};
ghost use Rattle.wide_symbols.specs.Codes.{wide_code_by};
ghost use Rattle.c_wide.specs.Decodes.{PassTakes, passed_bytes};

use params::Params;
use wide_buffers::SmallSymbol;

// One pass that was tested, with a code of at most N data symbols. Each size is a function of its own that is never inlined, so that a call takes no
// more stack than the size of its code needs.
#[inline(never)]
pub fn pass_within<S: SmallSymbol, const N: usize>(
    code: Params,
    positions: &[u16],
    threshold: u32,
    res: &mut [u8],
    syndrome: &mut [u8],
    difference: &mut [u8],
    changes: &mut [u8],
)
    requires { PassTakes (symbol_size S.profile) (wide_code_by S.profile code positions.now) threshold (state_by res.old syndrome.old difference.old) changes.old
        × (code.b * code.k ≤ N)
        × (N ≤ 4096) }
    ensures { record {
      state = state_by res.new syndrome.new difference.new;
      changes = changes.new;
    } ≡ passed_bytes (symbol_size S.profile) (wide_code_by S.profile code positions.now) threshold
        (state_by res.old syndrome.old difference.old) }
{
    S::takes_few_bytes();
    let n = params::data_count(code);
    let m = code.k;
    let mut few = [0u8; N];
    let mut fewer = [0u8; N];
    let mut first = [S::narrowed(0); N];
    let mut second = [S::narrowed(0); N];
    let mut third = [S::narrowed(0); N];
    let zeros = &mut few[..n];
    let marks = &mut fewer[..m];
    let r = &mut first[..n];
    let s = &mut second[..m];
    let d = &mut third[..n];
    let changed = c_wide_passes::pass_once(
        code, positions, threshold, res, syndrome, difference, changes, zeros, marks, r, s, d,
    );
    c_wide_passes::write_state(r, s, d, res, syndrome, difference);
    number_bytes::put_changes(changes, changed);
}

// The C form of a pass on wide symbols, which reads the positions of the table.
#![tactic(auto)]

ghost use Rattle.std.specs.Prelude.{◌≡◌, ◌+◌, ◌≤◌, length};
ghost use Rattle.model.specs.Code.{wide_code};
ghost use Rattle.model.specs.Decoder.{state_by};
ghost use Rattle.model.specs.Bytes.{symbol_size, state_read, positions_of, wide_pass_outcome};
ghost use Rattle.model.specs.Demand.{PassFalls};
ghost use Rattle.refusals.specs.Numbers.{answer};
ghost use Rattle.wide_symbols.specs.Codes.{wide_code_by};

use params::Params;
use refusals::Refusal;
use wide_buffers::SmallSymbol;

// One pass, with a buffer for the N positions that the table may have.
fn pass_by<S: SmallSymbol, const N: usize>(
    code: Params,
    table: &[u8],
    threshold: u32,
    res: &mut [u8],
    syndrome: &mut [u8],
    difference: &mut [u8],
    changes: &mut [u8],
) -> Result<(), Refusal>
    requires { (code.k ≤ 4294967295) × (code.b ≤ 4294967295) × (length table.now ≤ 512 → length table.now ≤ N + N) × (N ≤ 256) }
    ensures { record {
      number = answer result;
      left = record { state = state_by res.new syndrome.new difference.new; changes = changes.new };
    } ≡ wide_pass_outcome (wide_code_by S.profile code (positions_of table.now)) threshold
        (state_by res.old syndrome.old difference.old) changes.old }
{
    let mut places = [0u16; N];
    let count = position_bytes::read_positions(table, &mut places);
    let positions = &places[..count];
    c_wide_passes::pass_answer::<S>(
        code, positions, threshold, res, syndrome, difference, changes,
    )?;
    let n = params::data_count(code);
    if n <= 128 {
        c_wide_pass_sized::pass_within::<S, 128>(
            code, positions, threshold, res, syndrome, difference, changes,
        );
        return Ok(());
    }
    if n <= 1024 {
        c_wide_pass_sized::pass_within::<S, 1024>(
            code, positions, threshold, res, syndrome, difference, changes,
        );
        return Ok(());
    }
    c_wide_pass_sized::pass_within::<S, 4096>(
        code, positions, threshold, res, syndrome, difference, changes,
    );
    Ok(())
}

// One pass. A small table is read into a small buffer, which costs less to clear.
pub fn pass<S: SmallSymbol>(
    k: u32,
    b: u32,
    table: &[u8],
    threshold: u32,
    res: &mut [u8],
    syndrome: &mut [u8],
    difference: &mut [u8],
    changes: &mut [u8],
) -> Result<(), Refusal>
    ensures outcome { record {
      number = answer result;
      left = record { state = state_by res.new syndrome.new difference.new; changes = changes.new };
    } ≡ wide_pass_outcome (wide_code S.profile k b (positions_of table.now)) threshold
        (state_by res.old syndrome.old difference.old) changes.old }
    ensures falling { answer result ≡ 0 → PassFalls (wide_code S.profile k b (positions_of table.now)) threshold
        (state_read (symbol_size S.profile) (state_by res.old syndrome.old difference.old)) }
{
    let code = Params {
        q: 256,
        k: k as usize,
        b: b as usize,
        bits: false,
    };
    if table.len() <= 64 {
        return pass_by::<S, 32>(code, table, threshold, res, syndrome, difference, changes);
    }
    pass_by::<S, 256>(code, table, threshold, res, syndrome, difference, changes)
}

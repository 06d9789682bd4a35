// The C form of decode on wide symbols, which reads the positions of the table.
#![tactic(auto)]

ghost use Rattle.std.specs.Prelude.{◌≡◌, ◌+◌, ◌≤◌, length};
ghost use Rattle.model.specs.Code.{wide_code};
ghost use Rattle.model.specs.Decoder.{state_by, decoded_counts};
ghost use Rattle.model.specs.Bytes.{symbol_size, symbols_of, positions_of, wide_decode_outcome};
ghost use Rattle.model.specs.Demand.{DecodeFalls, DecodeRecovers};
ghost use Rattle.refusals.specs.Numbers.{answer};
ghost use Rattle.wide_symbols.specs.Codes.{wide_code_by};

use params::Params;
use refusals::Refusal;
use wide_buffers::SmallSymbol;

// Decodes a page, with a table whose positions a buffer of M holds.
fn decode_with<S: SmallSymbol, const M: usize>(
    code: Params,
    table: &[u8],
    page: &[u8],
    thresholds: &[u8],
    res: &mut [u8],
    syndrome: &mut [u8],
    difference: &mut [u8],
    margins: &mut [u8],
    counts: &mut [u8],
) -> Result<(), Refusal>
    requires { (code.k ≤ 4294967295) × (code.b ≤ 4294967295)
        × (length table.now ≤ 512 → length table.now ≤ M + M)
        × (M ≤ 256) }
    ensures { record {
      number = answer result;
      left = record {
        state = state_by res.new syndrome.new difference.new;
        margins = margins.new;
        counts = counts.new;
      };
    } ≡ wide_decode_outcome (wide_code_by S.profile code (positions_of table.now)) page.now thresholds.now
        (state_by res.old syndrome.old difference.old) margins.old counts.old }
{
    let mut read = [0u16; M];
    let count = position_bytes::read_positions(table, &mut read);
    let positions = &read[..count];
    c_wide_receiver::decode_answer::<S>(
        code, positions, page, thresholds, res, syndrome, difference, margins, counts,
    )?;
    let n = params::data_count(code);
    if n <= 128 {
        c_wide_sized::decode_within::<S, 128>(
            code, positions, page, thresholds, res, syndrome, difference, margins, counts,
        );
        return Ok(());
    }
    if n <= 1024 {
        c_wide_sized::decode_within::<S, 1024>(
            code, positions, page, thresholds, res, syndrome, difference, margins, counts,
        );
        return Ok(());
    }
    c_wide_sized::decode_within::<S, 4096>(
        code, positions, page, thresholds, res, syndrome, difference, margins, counts,
    );
    Ok(())
}

// Decodes a page. A small table is read into a small buffer, which costs less to clear.
pub fn decode<S: SmallSymbol>(
    k: u32,
    b: u32,
    table: &[u8],
    page: &[u8],
    thresholds: &[u8],
    res: &mut [u8],
    syndrome: &mut [u8],
    difference: &mut [u8],
    margins: &mut [u8],
    counts: &mut [u8],
) -> Result<(), Refusal>
    ensures outcome { record {
      number = answer result;
      left = record {
        state = state_by res.new syndrome.new difference.new;
        margins = margins.new;
        counts = counts.new;
      };
    } ≡ wide_decode_outcome (wide_code S.profile k b (positions_of table.now)) page.now thresholds.now
        (state_by res.old syndrome.old difference.old) margins.old counts.old }
    ensures falling { answer result ≡ 0 → DecodeFalls (wide_code S.profile k b (positions_of table.now)) thresholds.now (symbols_of (symbol_size S.profile) page.now)
        (decoded_counts (wide_code S.profile k b (positions_of table.now)) thresholds.now (symbols_of (symbol_size S.profile) page.now)) }
    ensures recovery { answer result ≡ 0 → DecodeRecovers (wide_code S.profile k b (positions_of table.now)) thresholds.now (symbols_of (symbol_size S.profile) page.now)
        (symbols_of (symbol_size S.profile) res.new) }
{
    let code = Params {
        q: 256,
        k: k as usize,
        b: b as usize,
        bits: false,
    };
    if table.len() <= 64 {
        return decode_with::<S, 32>(
            code, table, page, thresholds, res, syndrome, difference, margins, counts,
        );
    }
    decode_with::<S, 256>(
        code, table, page, thresholds, res, syndrome, difference, margins, counts,
    )
}

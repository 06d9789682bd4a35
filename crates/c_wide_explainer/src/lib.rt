// The C form of explain on wide symbols, which reads the positions of the table and writes the explanation as bytes.
#![tactic(auto)]

ghost use Rattle.std.specs.Prelude.{◌≡◌, ◌≤◌};
ghost use Rattle.model.specs.Code.{wide_code};
ghost use Rattle.model.specs.Decoder.{state_by};
ghost use Rattle.model.specs.Bytes.{positions_of, wide_explain_outcome};
ghost use Rattle.refusals.specs.Numbers.{answer};
ghost use Rattle.wide_symbols.specs.Codes.{wide_code_by};

use params::Params;
use refusals::Refusal;
use wide_symbols::WideSymbol;

// Explains a data symbol, with the positions read. The explanation is written only when the call is done.
fn explain_with<S: WideSymbol>(
    code: Params,
    positions: &[u16],
    threshold: u32,
    symbol: u32,
    res: &[u8],
    syndrome: &[u8],
    difference: &[u8],
    explanation: &mut [u8],
) -> Result<(), Refusal>
    requires { (code.k ≤ 4294967295) × (code.b ≤ 4294967295) }
    ensures { record { number = answer result; left = explanation.new }
        ≡ wide_explain_outcome (wide_code_by S.profile code positions.now) threshold symbol
        (state_by res.now syndrome.now difference.now) explanation.old }
{
    let n = params::data_count(code);
    let others = explanation.len() == 24;
    let sent = wide_bytes::count::<S>(res);
    let checks = wide_bytes::count::<S>(syndrome);
    let differences = wide_bytes::count::<S>(difference);
    let fits = lengths::state_fits(others, n, code.k, sent, checks, differences);
    wide_answers::explain_answer::<S>(code, positions, fits, threshold, symbol)?;
    let told = c_wide_grounds::tell_symbol::<S>(
        code,
        positions,
        symbol as usize,
        threshold,
        syndrome,
        difference,
    );
    number_bytes::put_answer(
        explanation,
        told.ground_number,
        told.leader,
        told.lead,
        told.next,
        told.bits,
    );
    Ok(())
}

// Explains a data symbol. A small table is read into a small buffer, which costs less to clear.
pub fn explain<S: WideSymbol>(
    k: u32,
    b: u32,
    table: &[u8],
    threshold: u32,
    symbol: u32,
    res: &[u8],
    syndrome: &[u8],
    difference: &[u8],
    explanation: &mut [u8],
) -> Result<(), Refusal>
    ensures { record { number = answer result; left = explanation.new }
        ≡ wide_explain_outcome (wide_code S.profile k b (positions_of table.now)) threshold symbol
        (state_by res.now syndrome.now difference.now) explanation.old }
{
    let code = Params {
        q: 256,
        k: k as usize,
        b: b as usize,
        bits: false,
    };
    if table.len() <= 64 {
        let mut few = [0u16; 32];
        let n = position_bytes::read_positions(table, &mut few);
        return explain_with::<S>(
            code,
            &few[..n],
            threshold,
            symbol,
            res,
            syndrome,
            difference,
            explanation,
        );
    }
    let mut positions = [0u16; 256];
    let n = position_bytes::read_positions(table, &mut positions);
    explain_with::<S>(
        code,
        &positions[..n],
        threshold,
        symbol,
        res,
        syndrome,
        difference,
        explanation,
    )
}

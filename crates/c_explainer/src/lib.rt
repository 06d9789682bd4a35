// The C form of explain, which reads the positions of the table and writes the explanation as bytes.
#![tactic(auto)]

ghost use Rattle.std.specs.Prelude.{◌≡◌, ◌≤◌};
ghost use Rattle.model.specs.Code.{code_in};
ghost use Rattle.model.specs.Decoder.{state_by};
ghost use Rattle.model.specs.Bytes.{positions_of, c_explain_outcome};
ghost use Rattle.params.specs.Codes.{profile_of, code_by};
ghost use Rattle.refusals.specs.Numbers.{answer};

use params::Params;
use refusals::Refusal;

// Explains a data symbol, with the positions read. The explanation is written only when the call is done.
// The code's numbers are handed on one by one, as by `c_passing::pass_into`.
fn explain_into(
    code: Params,
    positions: &[u16],
    threshold: u32,
    symbol: u32,
    res: &[u8],
    syndrome: &[u8],
    difference: &[u8],
    explanation: &mut [u8],
) -> Result<(), Refusal>
    requires { (code.k ≤ 4294967295) × (code.b ≤ 4294967295) }
    ensures { record { number = answer result; left = explanation.new }
        ≡ c_explain_outcome (code_by code positions.now) threshold symbol
        (state_by res.now syndrome.now difference.now) explanation.old }
{
    let numbers = Params {
        q: code.q,
        k: code.k,
        b: code.b,
        bits: code.bits,
    };
    let others = explanation.len() == 24;
    let told = explainer::explain_with(
        others, numbers, positions, threshold, symbol, res, syndrome, difference,
    )?;
    number_bytes::put_answer(
        explanation,
        told.ground_number,
        told.leader,
        told.lead,
        told.next,
        told.bits,
    );
    Ok(())
}

// Explains a data symbol, in the profile of bit pages or of bytes. A small table is read into a small buffer, which costs less to clear.
pub fn explain(
    bits: bool,
    q: u32,
    k: u32,
    b: u32,
    table: &[u8],
    threshold: u32,
    symbol: u32,
    res: &[u8],
    syndrome: &[u8],
    difference: &[u8],
    explanation: &mut [u8],
) -> Result<(), Refusal>
    ensures { record { number = answer result; left = explanation.new }
        ≡ c_explain_outcome (code_in (profile_of bits) q k b (positions_of table.now)) threshold symbol
        (state_by res.now syndrome.now difference.now) explanation.old }
{
    let code = Params {
        q,
        k: k as usize,
        b: b as usize,
        bits,
    };
    if table.len() <= 64 {
        let mut few = [0u16; 32];
        let n = position_bytes::read_positions(table, &mut few);
        return explain_into(
            code,
            &few[..n],
            threshold,
            symbol,
            res,
            syndrome,
            difference,
            explanation,
        );
    }
    let mut positions = [0u16; 256];
    let n = position_bytes::read_positions(table, &mut positions);
    explain_into(
        code,
        &positions[..n],
        threshold,
        symbol,
        res,
        syndrome,
        difference,
        explanation,
    )
}

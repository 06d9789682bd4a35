// The C form of a pass, which reads the positions of the table, has the buffer for the zeros and writes the changes as bytes.
#![tactic(auto)]

ghost use Rattle.std.specs.Prelude.{◌≡◌, ◌*◌, ◌≤◌, length, OnOk};
ghost use Rattle.model.specs.Code.{code_in};
ghost use Rattle.model.specs.Decoder.{state_by};
ghost use Rattle.model.specs.Bytes.{positions_of, c_pass_outcome};
ghost use Rattle.model.specs.Demand.{PassFalls};
ghost use Rattle.theory.specs.Counters.{Clear};
ghost use Rattle.params.specs.Codes.{profile_of, code_by};
ghost use Rattle.refusals.specs.Numbers.{answer};

use params::Params;
use refusals::Refusal;

// One pass, with the positions read and a buffer for the zeros; `bits`, the code's, is handed down by itself. The changes are written only
// when the call is done.
// The code's numbers are handed on one by one: a struct copied whole would be compiled into a call of memcpy for Cortex-M0, which the
// archive is not to need.
fn pass_into(
    bits: bool,
    code: Params,
    positions: &[u16],
    threshold: u32,
    zeros: &mut [u8],
    res: &mut [u8],
    syndrome: &mut [u8],
    difference: &mut [u8],
    changes: &mut [u8],
) -> Result<(), Refusal>
    requires { (code.k ≤ 4294967295) × (code.b ≤ 4294967295) × (code.b * code.k ≤ 4096 → code.b * code.k ≤ length zeros.old)
        × Clear zeros.old
        × (bits ≡ code.bits) }
    ensures { record {
      number = answer result;
      left = record { state = state_by res.new syndrome.new difference.new; changes = changes.new };
    } ≡ c_pass_outcome (code_by code positions.now) threshold
        (state_by res.old syndrome.old difference.old) changes.old }
{
    let numbers = Params {
        q: code.q,
        k: code.k,
        b: code.b,
        bits: code.bits,
    };
    let others = changes.len() == 4;
    let count = passing::pass_with(
        others, bits, numbers, positions, threshold, zeros, res, syndrome, difference,
    )?;
    number_bytes::put_changes(changes, count);
    Ok(())
}

// One pass, with the positions read. A small code clears a small buffer for the zeros.
fn pass_sized(
    bits: bool,
    code: Params,
    positions: &[u16],
    threshold: u32,
    res: &mut [u8],
    syndrome: &mut [u8],
    difference: &mut [u8],
    changes: &mut [u8],
) -> Result<(), Refusal>
    requires { (code.k ≤ 4294967295) × (code.b ≤ 4294967295) × (bits ≡ code.bits) }
    ensures { record {
      number = answer result;
      left = record { state = state_by res.new syndrome.new difference.new; changes = changes.new };
    } ≡ c_pass_outcome (code_by code positions.now) threshold
        (state_by res.old syndrome.old difference.old) changes.old }
{
    if params::data_count(code) <= 128 {
        let mut few = [0u8; 128];
        return pass_into(
            bits, code, positions, threshold, &mut few, res, syndrome, difference, changes,
        );
    }
    let mut zeros = [0u8; 4096];
    pass_into(
        bits, code, positions, threshold, &mut zeros, res, syndrome, difference, changes,
    )
}

// One pass, in the profile of bit pages or of bytes. A small table is read into a small buffer, which costs less to clear.
pub fn pass(
    bits: bool,
    q: u32,
    k: u32,
    b: u32,
    table: &[u8],
    threshold: u32,
    res: &mut [u8],
    syndrome: &mut [u8],
    difference: &mut [u8],
    changes: &mut [u8],
) -> Result<(), Refusal>
    ensures outcome { record {
      number = answer result;
      left = record { state = state_by res.new syndrome.new difference.new; changes = changes.new };
    } ≡ c_pass_outcome (code_in (profile_of bits) q k b (positions_of table.now)) threshold
        (state_by res.old syndrome.old difference.old) changes.old }
    ensures falling { OnOk result (PassFalls (code_in (profile_of bits) q k b (positions_of table.now)) threshold
        (state_by res.old syndrome.old difference.old)) }
{
    let code = Params {
        q,
        k: k as usize,
        b: b as usize,
        bits,
    };
    if table.len() <= 64 {
        let mut few = [0u16; 32];
        let n = position_bytes::read_positions(table, &mut few);
        return pass_sized(
            bits,
            code,
            &few[..n],
            threshold,
            res,
            syndrome,
            difference,
            changes,
        );
    }
    let mut positions = [0u16; 256];
    let n = position_bytes::read_positions(table, &mut positions);
    pass_sized(
        bits,
        code,
        &positions[..n],
        threshold,
        res,
        syndrome,
        difference,
        changes,
    )
}

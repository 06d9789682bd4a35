// The call pass: one pass with one threshold on the result, S and D, for every form of the call, and the Rattle form.
#![tactic(auto)]

ghost use Rattle.std.specs.Prelude.{◌≡◌, true, ◌*◌, ◌≤◌, length, OnOk};
ghost use Rattle.std.specs.Result.{result_unwrap_or};
ghost use Rattle.model.specs.Code.{code_in, code_of};
ghost use Rattle.model.specs.Decoder.{state_by};
ghost use Rattle.model.specs.Calls.{pass_outcome};
ghost use Rattle.model.specs.Demand.{PassFalls};
ghost use Rattle.theory.specs.Counters.{Clear};
ghost use Rattle.params.specs.Codes.{profile_of, code_by};
ghost use Rattle.refusals.specs.Numbers.{answer};

use params::Params;
use refusals::Refusal;
use tally::Tally;

// One pass, for every form of the call: `others` says whether the buffers that only one form lends fit. zeros, which the form keeps on its
// stack, has one byte a data symbol; `bits`, the code's, is handed down by itself.
#[tactic(auto, using(refusals::specs::Numbers::not_zero), unfolding(model::specs::Calls::pass_outcome, model::specs::Calls::outcome))]
pub fn pass_with(
    others: bool,
    bits: bool,
    code: Params,
    positions: &[u16],
    threshold: u32,
    zeros: &mut [u8],
    res: &mut [u8],
    syndrome: &mut [u8],
    difference: &mut [u8],
) -> Result<u32, Refusal>
    requires { (code.k ≤ 4294967295) × (code.b ≤ 4294967295) × (code.b * code.k ≤ 4096 → code.b * code.k ≤ length zeros.old)
        × Clear zeros.old
        × (bits ≡ code.bits) }
    ensures outcome { record {
      number = answer result;
      left = record { state = state_by res.new syndrome.new difference.new; changes = result_unwrap_or result 0 };
    } ≡ pass_outcome (code_by code positions.now) others threshold
        (state_by res.old syndrome.old difference.old) }
    ensures falling { OnOk result (PassFalls (code_by code positions.now) threshold
        (state_by res.old syndrome.old difference.old)) }
{
    let n = params::data_count(code);
    let fits = lengths::state_fits(
        others,
        n,
        code.k,
        res.len(),
        syndrome.len(),
        difference.len(),
    );
    answers::pass_answer(code, positions, fits, threshold, res, syndrome, difference)?;
    let mut none = [0u8; 0];
    let tally = passes::run(
        bits,
        code,
        positions,
        &[threshold as u8],
        res,
        syndrome,
        difference,
        &mut zeros[..n],
        &mut none,
        Tally::opened(0),
    );
    Ok(tally.changes)
}

// One pass with one threshold on the result, S and D, in the profile of bit pages or of bytes. A small code clears a small buffer for the zeros.
pub fn pass_in(
    bits: bool,
    q: u32,
    k: u32,
    b: u32,
    positions: &[u16],
    threshold: u32,
    res: &mut [u8],
    syndrome: &mut [u8],
    difference: &mut [u8],
) -> Result<u32, Refusal>
    ensures outcome { record {
      number = answer result;
      left = record { state = state_by res.new syndrome.new difference.new; changes = result_unwrap_or result 0 };
    } ≡ pass_outcome (code_in (profile_of bits) q k b positions.now) true threshold
        (state_by res.old syndrome.old difference.old) }
    ensures falling { OnOk result (PassFalls (code_in (profile_of bits) q k b positions.now) threshold
        (state_by res.old syndrome.old difference.old)) }
{
    let code = Params {
        q,
        k: k as usize,
        b: b as usize,
        bits,
    };
    if params::data_count(code) <= 128 {
        let mut few = [0u8; 128];
        return pass_with(
            true, bits, code, positions, threshold, &mut few, res, syndrome, difference,
        );
    }
    let mut zeros = [0u8; 4096];
    pass_with(
        true, bits, code, positions, threshold, &mut zeros, res, syndrome, difference,
    )
}

// One pass with one threshold on the result, S and D.
pub fn pass(
    q: u32,
    k: u32,
    b: u32,
    positions: &[u16],
    threshold: u32,
    res: &mut [u8],
    syndrome: &mut [u8],
    difference: &mut [u8],
) -> Result<u32, Refusal>
    ensures outcome { record {
      number = answer result;
      left = record { state = state_by res.new syndrome.new difference.new; changes = result_unwrap_or result 0 };
    } ≡ pass_outcome (code_of q k b positions.now) true threshold
        (state_by res.old syndrome.old difference.old) }
    ensures falling { OnOk result (PassFalls (code_of q k b positions.now) threshold
        (state_by res.old syndrome.old difference.old)) }
{
    pass_in(
        false, q, k, b, positions, threshold, res, syndrome, difference,
    )
}

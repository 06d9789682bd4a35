// The call pass on wide symbols. It takes no q, and that of `Params` is not read.
#![tactic(auto)]

ghost use Rattle.std.specs.Prelude.{◌≡◌, true, ◌*◌, ◌≤◌, OnOk};
ghost use Rattle.std.specs.Result.{result_unwrap_or};
ghost use Rattle.model.specs.Code.{wide_code};
ghost use Rattle.model.specs.Decoder.{state_by};
ghost use Rattle.model.specs.Calls.{pass_outcome};
ghost use Rattle.model.specs.Demand.{PassFalls};
ghost use Rattle.refusals.specs.Numbers.{answer};
ghost use Rattle.wide_symbols.specs.Codes.{wide_code_by};

use params::Params;
use refusals::Refusal;
use tally::Tally;
use wide_symbols::WideSymbol;

// One pass with buffers for the zeros and the marks of N data symbols.
fn pass_within<S: WideSymbol, const N: usize>(
    code: Params,
    positions: &[u16],
    threshold: u32,
    res: &mut [S],
    syndrome: &mut [S],
    difference: &mut [S],
) -> Result<u32, Refusal>
    requires { (code.k ≤ 4294967295) × (code.b ≤ 4294967295) × (code.b * code.k ≤ 4096 → code.b * code.k ≤ N) × (N ≤ 4096) }
    ensures outcome { record {
      number = answer result;
      left = record { state = state_by (S.numbers res.new) (S.numbers syndrome.new) (S.numbers difference.new); changes = result_unwrap_or result 0 };
    } ≡ pass_outcome (wide_code_by S.profile code positions.now) true threshold
        (state_by (S.numbers res.old) (S.numbers syndrome.old) (S.numbers difference.old)) }
    ensures falling { OnOk result (PassFalls (wide_code_by S.profile code positions.now) threshold
        (state_by (S.numbers res.old) (S.numbers syndrome.old) (S.numbers difference.old))) }
{
    let n = params::data_count(code);
    let fits = lengths::state_fits(true, n, code.k, res.len(), syndrome.len(), difference.len());
    S::all_below(res);
    S::all_below(syndrome);
    S::all_below(difference);
    wide_answers::pass_answer::<S>(code, positions, fits, threshold)?;
    let k = code.k;
    let mut zeros = [0u8; N];
    let mut marks = [0u8; N];
    let thresholds = [threshold as u8];
    let opened = Tally::opened(0);
    let tally = wide_passes::run(
        code,
        positions,
        &thresholds,
        res,
        syndrome,
        difference,
        &mut zeros[..n],
        &mut marks[..k],
        opened,
    );
    Ok(tally.changes)
}

// One pass with one threshold on the result, S and D. A small code clears small buffers.
pub fn pass<S: WideSymbol>(
    k: u32,
    b: u32,
    positions: &[u16],
    threshold: u32,
    res: &mut [S],
    syndrome: &mut [S],
    difference: &mut [S],
) -> Result<u32, Refusal>
    ensures outcome { record {
      number = answer result;
      left = record { state = state_by (S.numbers res.new) (S.numbers syndrome.new) (S.numbers difference.new); changes = result_unwrap_or result 0 };
    } ≡ pass_outcome (wide_code S.profile k b positions.now) true threshold
        (state_by (S.numbers res.old) (S.numbers syndrome.old) (S.numbers difference.old)) }
    ensures falling { OnOk result (PassFalls (wide_code S.profile k b positions.now) threshold
        (state_by (S.numbers res.old) (S.numbers syndrome.old) (S.numbers difference.old))) }
{
    let code = Params {
        q: 256,
        k: k as usize,
        b: b as usize,
        bits: false,
    };
    if params::data_count(code) <= 128 {
        return pass_within::<S, 128>(code, positions, threshold, res, syndrome, difference);
    }
    pass_within::<S, 4096>(code, positions, threshold, res, syndrome, difference)
}

// The call explain: why a data symbol of an opened page is left or would be changed, for every form of the call, and the Rattle form.
#![tactic(auto)]

ghost use Rattle.std.specs.Prelude.{◌≡◌, true, ◌≤◌};
ghost use Rattle.model.specs.Code.{code_of};
ghost use Rattle.model.specs.Decoder.{state_by};
ghost use Rattle.model.specs.Calls.{explain_outcome};
ghost use Rattle.params.specs.Codes.{code_by};
ghost use Rattle.refusals.specs.Numbers.{answer};
ghost use Rattle.explainer.specs.Explained.{explained_of};

pub use grounds::Told;
use params::Params;
use refusals::Refusal;

// Explains a data symbol, for every form of the call: `others` says whether the buffers that only one form lends fit.
#[tactic(auto, using(refusals::specs::Numbers::not_zero), unfolding(model::specs::Calls::explain_outcome, model::specs::Calls::outcome))]
pub fn explain_with(
    others: bool,
    code: Params,
    positions: &[u16],
    threshold: u32,
    symbol: u32,
    res: &[u8],
    syndrome: &[u8],
    difference: &[u8],
) -> Result<Told, Refusal>
    requires { (code.k ≤ 4294967295) × (code.b ≤ 4294967295) }
    ensures { record { number = answer result; left = explained_of result } ≡ explain_outcome (code_by code positions.now) others threshold symbol
        (state_by res.now syndrome.now difference.now) }
{
    let n = params::data_count(code);
    let fits = lengths::state_fits(
        others,
        n,
        code.k,
        res.len(),
        syndrome.len(),
        difference.len(),
    );
    answers::explain_answer(
        code, positions, fits, threshold, symbol, res, syndrome, difference,
    )?;
    let told = grounds::tell_symbol(
        code,
        positions,
        symbol as usize,
        threshold,
        syndrome,
        difference,
    );
    Ok(told)
}

// Explains a data symbol at a threshold, from the result, S and D, which are only read.
pub fn explain(
    q: u32,
    k: u32,
    b: u32,
    positions: &[u16],
    threshold: u32,
    symbol: u32,
    res: &[u8],
    syndrome: &[u8],
    difference: &[u8],
) -> Result<Told, Refusal>
    ensures { record { number = answer result; left = explained_of result } ≡ explain_outcome (code_of q k b positions.now) true threshold symbol
        (state_by res.now syndrome.now difference.now) }
{
    let code = Params {
        q,
        k: k as usize,
        b: b as usize,
        bits: false,
    };
    explain_with(
        true, code, positions, threshold, symbol, res, syndrome, difference,
    )
}

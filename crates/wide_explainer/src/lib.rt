// The call explain on wide symbols. It takes no q, and that of `Params` is not read.
#![tactic(auto)]

ghost use Rattle.std.specs.Prelude.{◌≡◌, true};
ghost use Rattle.model.specs.Code.{wide_code};
ghost use Rattle.model.specs.Decoder.{state_by};
ghost use Rattle.model.specs.Calls.{explain_outcome};
ghost use Rattle.refusals.specs.Numbers.{answer};
ghost use Rattle.explainer.specs.Explained.{explained_of};

pub use grounds::Told;
use params::Params;
use refusals::Refusal;
use wide_symbols::WideSymbol;

// Explains a data symbol at a threshold, from the result, S and D, which are only read.
pub fn explain<S: WideSymbol>(
    k: u32,
    b: u32,
    positions: &[u16],
    threshold: u32,
    symbol: u32,
    res: &[S],
    syndrome: &[S],
    difference: &[S],
) -> Result<Told, Refusal>
    ensures { record { number = answer result; left = explained_of result } ≡ explain_outcome (wide_code S.profile k b positions.now) true threshold symbol
        (state_by (S.numbers res.now) (S.numbers syndrome.now) (S.numbers difference.now)) }
{
    let code = Params {
        q: 256,
        k: k as usize,
        b: b as usize,
        bits: false,
    };
    S::all_below(res);
    S::all_below(syndrome);
    S::all_below(difference);
    let n = params::data_count(code);
    let fits = lengths::state_fits(true, n, code.k, res.len(), syndrome.len(), difference.len());
    wide_answers::explain_answer::<S>(code, positions, fits, threshold, symbol)?;
    let told = wide_grounds::tell_symbol(
        code,
        positions,
        symbol as usize,
        threshold,
        syndrome,
        difference,
    );
    Ok(told)
}

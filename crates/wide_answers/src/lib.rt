// The tests of the calls on wide symbols, walked in order. They look at no symbol: every one is below q.
#![tactic(auto)]

ghost use Rattle.std.specs.Prelude.{◌≡◌, List, ℕ, ◌*◌, ◌≤◌};
ghost use Rattle.model.specs.Code.{highest};
ghost use Rattle.model.specs.Symbols.{Below};
ghost use Rattle.model.specs.Decoder.{State};
ghost use Rattle.model.specs.Calls.{first_that_applies, page_tests, state_symbols, table_answer, decode_answer, pass_answer, explain_answer};
ghost use Rattle.refusals.specs.Numbers.{answer};
ghost use Rattle.wide_symbols.specs.Codes.{wide_code_by};

use params::Params;
use refusals::Refusal;
use wide_symbols::WideSymbol;

// Tests 2 to 5 and 10.
pub fn table_answer<S: WideSymbol>(code: Params, positions: &[u16]) -> Result<(), Refusal>
    ensures { answer result ≡ table_answer (wide_code_by S.profile code positions.now) }
{
    table::shape_answer(code, positions)
}

// Tests 2 to 6 and 10, of a call whose lent buffers fit or not, whatever symbols it reads.
pub fn page_answer<S: WideSymbol>(
    code: Params,
    positions: &[u16],
    fits: bool,
) -> Result<(), Refusal>
    ensures { (input : List ℕ) → Below (highest S.profile) input → answer result ≡ first_that_applies (page_tests (wide_code_by S.profile code positions.now) fits input) }
{
    table::shape_answer(code, positions)?;
    if !fits {
        return Err(Refusal::Length);
    }
    Ok(())
}

// And 8 and 9, of decode.
pub fn decode_answer<S: WideSymbol>(
    code: Params,
    positions: &[u16],
    fits: bool,
    thresholds: &[u8],
) -> Result<(), Refusal>
    ensures { (page : List ℕ) → Below (highest S.profile) page → answer result ≡ decode_answer (wide_code_by S.profile code positions.now) fits page thresholds.now }
{
    page_answer::<S>(code, positions, fits)?;
    answers::threshold_answer(thresholds)
}

// Those of a pass: 9 of its threshold.
pub fn pass_answer<S: WideSymbol>(
    code: Params,
    positions: &[u16],
    fits: bool,
    threshold: u32,
) -> Result<(), Refusal>
    ensures { (st : State) → Below (highest S.profile) (state_symbols st) → answer result ≡ pass_answer (wide_code_by S.profile code positions.now) fits threshold st }
{
    page_answer::<S>(code, positions, fits)?;
    if 32 < threshold {
        return Err(Refusal::Threshold);
    }
    Ok(())
}

// Those of explain: and 11 of the symbol's number.
pub fn explain_answer<S: WideSymbol>(
    code: Params,
    positions: &[u16],
    fits: bool,
    threshold: u32,
    symbol: u32,
) -> Result<(), Refusal>
    requires { code.b * code.k ≤ 18446744073709551615 }
    ensures { (st : State) → Below (highest S.profile) (state_symbols st) → answer result ≡ explain_answer (wide_code_by S.profile code positions.now) fits threshold symbol st }
{
    pass_answer::<S>(code, positions, fits, threshold)?;
    let n = params::data_count(code);
    if n <= symbol as usize {
        return Err(Refusal::SymbolNumber);
    }
    Ok(())
}

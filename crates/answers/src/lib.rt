// The tests of the calls, walked in order: those of a call that reads symbols, of thresholds and of blocks. Whether the lengths fit is told by the caller.
#![tactic(auto)]

ghost use Rattle.std.specs.Prelude.{◌≡◌, List, ◌++◌, ℕ, ◌*◌, ◌≤◌};
ghost use Rattle.model.specs.Decoder.{state_by};
ghost use Rattle.model.specs.Calls.{all_below, first_that_applies, page_tests, threshold_tests, block_test, decode_answer, pass_answer, explain_answer};
ghost use Rattle.params.specs.Codes.{code_by};
ghost use Rattle.theory.specs.InBlocks.{blocks_answer};
ghost use Rattle.refusals.specs.Numbers.{answer};

use params::Params;
use refusals::Refusal;

// Tests 1 to 7 and 10, of a call whose lent buffers fit or not and whose input is read: the first that applies refuses.
pub fn page_answer(code: Params, positions: &[u16], fits: bool, input: &[u8]) -> Result<(), Refusal>
    ensures { answer result ≡ first_that_applies (page_tests (code_by code positions.now) fits input.now) }
{
    table::table_answer(code, positions)?;
    if !fits {
        return Err(Refusal::Length);
    }
    if !slices::all_below(code.q, input) {
        return Err(Refusal::Symbol);
    }
    Ok(())
}

// Whether every threshold is at most 32. The list is short, so each is tested by itself.
#[tactic(auto, using(crate::proofs::Small::not_small, crate::proofs::Small::next_small), unfolding(model::specs::Calls::all_below))]
fn all_small(thresholds: &[u8]) -> bool
    ensures { result ≡ all_below 33 thresholds.now }
{
    for t in thresholds {
        if 32 < *t {
            return false;
        }
    }
    true
}

// Tests 8 and 9.
pub fn threshold_answer(thresholds: &[u8]) -> Result<(), Refusal>
    ensures { answer result ≡ first_that_applies (threshold_tests thresholds.now) }
{
    if !limits::within(1, 64, thresholds.len()) {
        return Err(Refusal::ThresholdCount);
    }
    if !all_small(thresholds) {
        return Err(Refusal::Threshold);
    }
    Ok(())
}

// Tests 1 to 10.
fn decode_answer(
    code: Params,
    positions: &[u16],
    fits: bool,
    page: &[u8],
    thresholds: &[u8],
) -> Result<(), Refusal>
    ensures { answer result ≡ decode_answer (code_by code positions.now) fits page.now thresholds.now }
{
    page_answer(code, positions, fits, page)?;
    threshold_answer(thresholds)
}

// The tests of a pass: 1 to 7 and 10, where the input is the result, S and D, and 9 of its threshold.
pub fn pass_answer(
    code: Params,
    positions: &[u16],
    fits: bool,
    threshold: u32,
    res: &[u8],
    syndrome: &[u8],
    difference: &[u8],
) -> Result<(), Refusal>
    ensures { answer result ≡ pass_answer (code_by code positions.now) fits threshold
        (state_by res.now syndrome.now difference.now) }
{
    page_answer(code, positions, fits, res)?;
    if !slices::all_below(code.q, syndrome) {
        return Err(Refusal::Symbol);
    }
    if !slices::all_below(code.q, difference) {
        return Err(Refusal::Symbol);
    }
    if 32 < threshold {
        return Err(Refusal::Threshold);
    }
    Ok(())
}

// The tests of explain: those of a pass, and 11 of the symbol's number.
pub fn explain_answer(
    code: Params,
    positions: &[u16],
    fits: bool,
    threshold: u32,
    symbol: u32,
    res: &[u8],
    syndrome: &[u8],
    difference: &[u8],
) -> Result<(), Refusal>
    requires { code.b * code.k ≤ 18446744073709551615 }
    ensures { answer result ≡ explain_answer (code_by code positions.now) fits threshold symbol
        (state_by res.now syndrome.now difference.now) }
{
    pass_answer(code, positions, fits, threshold, res, syndrome, difference)?;
    if params::data_count(code) <= symbol as usize {
        return Err(Refusal::SymbolNumber);
    }
    Ok(())
}

// Test 12, of blocks of so many symbols; it looks at no position.
pub fn block_answer(code: Params, block: usize) -> Result<(), Refusal>
    requires { code.b * code.k ≤ 4096 }
    ensures { (ps : List ℕ) → answer result ≡ first_that_applies (block_test (code_by code ps) block) }
{
    if block < 2 {
        return Err(Refusal::Block);
    }
    if !blocks::divides(block, params::data_count(code)) {
        return Err(Refusal::Block);
    }
    Ok(())
}

// The tests of encode in blocks: 1 to 7 and 10, and 12.
pub fn encode_outer_answer(
    code: Params,
    positions: &[u16],
    block: usize,
    fits: bool,
    data: &[u8],
) -> Result<(), Refusal>
    ensures { answer result ≡ first_that_applies (page_tests (code_by code positions.now) fits «data».now
        ++ block_test (code_by code positions.now) block) }
{
    page_answer(code, positions, fits, data)?;
    block_answer(code, block)
}

// The tests of decode in blocks: 1 to 10, and 12; blocks of 1 are those of decode, which has no 12.
pub fn blocks_answer(
    code: Params,
    positions: &[u16],
    block: usize,
    fits: bool,
    page: &[u8],
    thresholds: &[u8],
) -> Result<(), Refusal>
    ensures { answer result ≡ blocks_answer (code_by code positions.now) block fits page.now thresholds.now }
{
    decode_answer(code, positions, fits, page, thresholds)?;
    if block == 1 {
        return Ok(());
    }
    block_answer(code, block)
}

// The limits of the sizes of a code, walked in order: q, k, b and J.
#![tactic(auto)]

ghost use Rattle.std.specs.Prelude.{◌≡◌, List, ℕ, ◌≤◌};
ghost use Rattle.model.specs.Code.{lowest, highest};
ghost use Rattle.model.specs.Calls.{first_that_applies, within, branches_fit, runs_fit};
ghost use Rattle.params.specs.Codes.{profile_of, code_by};
ghost use Rattle.refusals.specs.Numbers.{answer};
ghost use Rattle.limits.specs.Sizes.{shape_tests};

use params::Params;
use refusals::Refusal;

// Whether x is from low to high.
#[tactic(auto, unfolding(model::specs::Calls::within))]
pub fn within(low: usize, high: usize, x: usize) -> bool
    ensures { result ≡ within low high x }
{
    low <= x && x <= high
}

// b is from 1 to 8, and b times k at most 4,096, whatever the table is.
#[tactic(auto, using(theory::specs::Answers::within_facts))]
fn branches_fit(code: Params) -> bool
    requires { code.k ≤ 4096 }
    ensures { (positions : List ℕ) → result ≡ branches_fit (code_by code positions) }
{
    within(1, 8, code.b) && params::data_count(code) <= 4096
}

// The table is b runs of equal length J, from 1 to 32.
fn runs_fit(code: Params, positions: &[u16]) -> bool
    requires { 1 ≤ code.b }
    ensures { result ≡ runs_fit (code_by code positions.now) }
{
    let each = params::checks_each(code, positions.len());
    positions.len() == params::times(code.b, each) && within(1, 32, each)
}

// q is one of the profile's: from 3 to 256, on bit pages 2.
pub fn q_fits(code: Params) -> bool
    ensures { result ≡ within (lowest (profile_of code.bits)) (highest (profile_of code.bits)) code.q }
{
    if code.bits {
        return within(2, 2, code.q as usize);
    }
    within(3, 256, code.q as usize)
}

// Tests 2, 10 and 3: k, the branches and the number of positions.
pub fn sizes_answer(code: Params, positions: &[u16]) -> Result<(), Refusal>
    ensures { answer result ≡ first_that_applies (shape_tests (code_by code positions.now)) }
{
    if !within(1, 4096, code.k) {
        return Err(Refusal::K);
    }
    if !branches_fit(code) {
        return Err(Refusal::Branches);
    }
    if !runs_fit(code, positions) {
        return Err(Refusal::J);
    }
    Ok(())
}

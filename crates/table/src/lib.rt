// The tests of a table, walked in order: the limits of the sizes, the positions of each run, and self-orthogonality; and the table check.
#![tactic(auto)]

ghost use Rattle.std.specs.Prelude.{◌≡◌};
ghost use Rattle.model.specs.Code.{code_of};
ghost use Rattle.model.specs.Calls.{first_that_applies, positions_fit, table_fits, table_answer};
ghost use Rattle.model.specs.Limits.{SizeLimits};
ghost use Rattle.params.specs.Codes.{code_by};
ghost use Rattle.theory.specs.Profiles.{later_tests};
ghost use Rattle.refusals.specs.Numbers.{answer};

use params::Params;
use refusals::Refusal;

// Each position is below k and above the one before it.
#[tactic(auto, using(crate::specs::Table::fit_turn, crate::specs::Table::fit_end))]
fn positions_fit(k: usize, positions: &[u16]) -> bool
    ensures { result ≡ positions_fit k 0 positions.now }
{
    let mut least: usize = 0;
    for p in positions {
        let p = usize::from(*p);
        if k <= p || p < least {
            return false;
        }
        least = p + 1;
    }
    true
}

// The positions of every run fit.
fn table_fits(code: Params, positions: &[u16]) -> bool
    requires { SizeLimits (code_by code positions.now) }
    ensures { result ≡ table_fits (code_by code positions.now) }
{
    let each = params::checks_each(code, positions.len());
    let mut at = 0;
    for _ in 0..code.b {
        let end = at + each;
        if !positions_fit(code.k, &positions[at..end]) {
            return false;
        }
        at = end;
    }
    true
}

// Tests 2, 10, 3, 4 and 5, which all calls have whatever their q: the first that applies refuses.
pub fn shape_answer(code: Params, positions: &[u16]) -> Result<(), Refusal>
    ensures { answer result ≡ first_that_applies (later_tests (code_by code positions.now)) }
{
    limits::sizes_answer(code, positions)?;
    if !table_fits(code, positions) {
        return Err(Refusal::Position);
    }
    if !differences::self_orthogonal(code, positions) {
        return Err(Refusal::NotSelfOrthogonal);
    }
    Ok(())
}

// Tests 1 to 5 and 10, which all calls that take a q have: the first that applies refuses.
pub fn table_answer(code: Params, positions: &[u16]) -> Result<(), Refusal>
    ensures { answer result ≡ table_answer (code_by code positions.now) }
{
    if !limits::q_fits(code) {
        return Err(Refusal::Q);
    }
    shape_answer(code, positions)
}

// Checks a code table.
pub fn check_table(q: u32, k: u32, b: u32, positions: &[u16]) -> Result<(), Refusal>
    ensures { answer result ≡ table_answer (code_of q k b positions.now) }
{
    let code = Params {
        q,
        k: k as usize,
        b: b as usize,
        bits: false,
    };
    table_answer(code, positions)
}

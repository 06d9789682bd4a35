// The outer steps: in each block whose sum is not 0 the least reliable symbol is changed, where it is less reliable than the last.
#![tactic(auto)]

ghost use Rattle.std.specs.Prelude.{◌≡◌, List, ℕ, ◌+◌, ◌-◌, ◌/◌, ◌<◌, ◌≤◌, length};
ghost use Rattle.model.specs.Code.{data_count};
ghost use Rattle.model.specs.Decoder.{state_by};
ghost use Rattle.model.specs.Outer.{reliability_of, least_below, block_count};
ghost use Rattle.theory.specs.Answers.{BlockFits};
ghost use Rattle.params.specs.Codes.{code_by};
ghost use Rattle.checks.specs.Places.{AtTable};
ghost use Rattle.visits.specs.Progress.{Ready};
ghost use Rattle.outer_steps.specs.Blocks.{BlockAt, step_of, stepped_by, steps_to};

use params::Params;

// The first symbol of least reliability from one on, and before another.
fn weakest_of(
    code: Params,
    positions: &[u16],
    first: usize,
    last: usize,
    e: u8,
    s: &[u8],
    d: &[u8],
) -> usize
    requires { AtTable (code_by code positions.now) s.now
        × (length d.now ≡ data_count (code_by code positions.now))
        × (first < last)
        × (last ≤ data_count (code_by code positions.now)) }
    ensures { (u : List ℕ) → result ≡ first + least_below (last - first)
        (λ p. reliability_of (code_by code positions.now) e (state_by u s.now d.now) (first + p)) }
{
    let mut best = first;
    let mut least = reliabilities::reliability_at(code, positions, first, e, s, d);
    for j in first + 1..last {
        let r = reliabilities::reliability_at(code, positions, j, e, s, d);
        if r < least {
            best = j;
            least = r;
        }
    }
    best
}

// What a block's step subtracts, and from which symbol.
#[derive(Clone, Copy)]
struct Step {
    symbol: usize,
    sum: u8,
}

// The step of the block that starts at a symbol, from the state as it stands, if it has one.
fn step_of(
    code: Params,
    positions: &[u16],
    block: usize,
    bound: u32,
    at: usize,
    res: &[u8],
    s: &[u8],
    d: &[u8],
) -> Option<Step>
    requires { Ready (code_by code positions.now) (state_by res.now s.now d.now)
        × BlockAt (code_by code positions.now) block bound at }
    ensures { result ≡ step_of (code_by code positions.now) block (at / block) (state_by res.now s.now d.now) }
{
    let end = at + block;
    let sum = blocks::sum_of(code.q, bound, &res[at..end]);
    if sum == 0 {
        return None;
    }
    let last = end - 1;
    let symbol = weakest_of(code, positions, at, last, sum, s, d);
    let least = reliabilities::reliability_at(code, positions, symbol, sum, s, d);
    let other = reliabilities::reliability_at(code, positions, last, sum, s, d);
    if least < other {
        return Some(Step { symbol, sum });
    }
    None
}

// A block in its turn: 1 where it has a step, which is then made, else 0.
fn outer_step(
    code: Params,
    positions: &[u16],
    block: usize,
    bound: u32,
    at: usize,
    res: &mut [u8],
    syndrome: &mut [u8],
    difference: &mut [u8],
) -> u32
    requires { Ready (code_by code positions.now) (state_by res.old syndrome.old difference.old)
        × BlockAt (code_by code positions.now) block bound at }
    ensures { record { state = state_by res.new syndrome.new difference.new; steps = result }
        ≡ stepped_by (code_by code positions.now) block (at / block) (state_by res.old syndrome.old difference.old) }
{
    let step = match step_of(code, positions, block, bound, at, res, syndrome, difference) {
        Some(step) => step,
        None => return 0,
    };
    let each = params::checks_each(code, positions.len());
    let place = checks::place_of(code, each, step.symbol);
    visits::change_at(code, positions, place, step.sum, res, syndrome, difference);
    1
}

// All blocks in order, and the number of steps made: the search for the next block that does not sum to 0 is a loop of its own.
pub fn outer_steps(
    code: Params,
    positions: &[u16],
    block: usize,
    res: &mut [u8],
    syndrome: &mut [u8],
    difference: &mut [u8],
) -> u32
    requires { Ready (code_by code positions.now) (state_by res.old syndrome.old difference.old)
        × BlockFits (code_by code positions.now) block }
    ensures { record { state = state_by res.new syndrome.new difference.new; steps = result }
        ≡ steps_to (code_by code positions.now) block (block_count (code_by code positions.now) block)
        (state_by res.old syndrome.old difference.old) }
{
    let n = params::data_count(code);
    let bound = blocks::bound_of(code.q, block);
    let mut steps: u32 = 0;
    let mut at = blocks::first_broken(code.q, bound, block, res, 0);
    // kept: how far a turn goes hangs on the page.
    while at < n {
        steps += outer_step(code, positions, block, bound, at, res, syndrome, difference);
        at = blocks::first_broken(code.q, bound, block, res, at + block);
    }
    steps
}

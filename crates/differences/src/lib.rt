// Self-orthogonality of a table: the differences of positions of one run, over all runs together, are all different. They are marked in a row of flags.
#![tactic(auto)]

ghost use Rattle.std.specs.Prelude.{◌≡◌, true, ℕ, ◌+◌, ◌<◌, ◌≤◌, length, get_or};
ghost use Rattle.model.specs.Symbols.{same};
ghost use Rattle.model.specs.Code.{self_orthogonal, differences, all_different};
ghost use Rattle.model.specs.Calls.{positions_fit};
ghost use Rattle.model.specs.Limits.{TableLimits};
ghost use Rattle.params.specs.Codes.{code_by};
ghost use Rattle.differences.specs.Marks.{marks_of, mark};
ghost use Rattle.differences.specs.Folded.{fold, folded_from, folded_by};

use params::Params;

// Of a difference d and its opposite, k − d, the smaller.
fn folded(k: usize, d: usize) -> usize
    requires { d ≤ k }
    ensures { result ≡ fold k d }
{
    let e = k - d;
    if d < e { d } else { e }
}

// 1 where a value is half of k, else 0.
#[tactic(auto, unfolding(model::specs::Symbols::same))]
fn is_half(v: usize, k: usize) -> u8
    requires { v + v ≤ k }
    ensures { result ≡ same (v + v) k }
{
    if v + v == k { 1 } else { 0 }
}

// Marks the folded differences of the later positions from b in `seen`, up to the first that is marked already.
fn mark_from(k: usize, b: usize, later: &[u16], seen: &mut [u8]) -> bool
    requires { (positions_fit k (b + 1) later.now ≡ true) × (k < length seen.old + length seen.old) }
    ensures { marks_of result seen.new ≡ mark (folded_from k b later.now) seen.old }
{
    for a in later {
        let v = folded(k, *a as usize - b);
        if seen[v] != 0 {
            return false;
        }
        seen[v] = 1;
    }
    true
}

// Marks the folded differences of all pairs of positions of a run, up to the first that is marked already.
fn mark_run(k: usize, run: &[u16], seen: &mut [u8]) -> bool
    requires { (positions_fit k 0 run.now ≡ true) × (k < length seen.old + length seen.old) }
    ensures { marks_of result seen.new ≡ mark (folded_by k run.now) seen.old }
{
    for (i, b) in run.iter().enumerate() {
        if !mark_from(k, *b as usize, &run[i + 1..], seen) {
            return false;
        }
    }
    true
}

// The differences of all runs together are all different. `seen` has a flag, 0 at first, for each value up to half of k.
// A difference that is half of k is its own opposite and would stand twice, so its flag is set beforehand.
// Not compiled into `self_orthogonal`, which would then clear the flags of every size before it knows which it needs.
#[inline(never)]
fn differences_differ(code: Params, positions: &[u16], seen: &mut [u8]) -> bool
    requires { TableLimits (code_by code positions.now)
        × (code.k < length seen.old + length seen.old)
        × ((v : ℕ) → get_or seen.old v 0 ≡ 0) }
    ensures { result ≡ all_different (differences (code_by code positions.now)) }
{
    let half = code.k / 2;
    seen[half] = is_half(half, code.k);
    let each = params::checks_each(code, positions.len());
    for part in positions.chunks(each) {
        if !mark_run(code.k, part, seen) {
            return false;
        }
    }
    true
}

// The table is self-orthogonal. A smaller code clears fewer flags.
#[tactic(auto, using(crate::specs::Positions::orthogonal_told))]
pub fn self_orthogonal(code: Params, positions: &[u16]) -> bool
    requires { TableLimits (code_by code positions.now) }
    ensures { result ≡ self_orthogonal (code_by code positions.now) }
{
    if code.k <= 64 {
        let mut few = [0u8; 33];
        return differences_differ(code, positions, &mut few);
    }
    if code.k <= 1024 {
        let mut more = [0u8; 513];
        return differences_differ(code, positions, &mut more);
    }
    let mut seen = [0u8; 2049];
    differences_differ(code, positions, &mut seen)
}

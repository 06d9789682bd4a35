// The zeros of the syndrome at the checks of every data symbol, counted in straight runs.
#![tactic(auto)]

ghost use Rattle.std.specs.Prelude.{◌≡◌, ◌<◌, length};
ghost use Rattle.model.specs.Code.{data_count};
ghost use Rattle.model.specs.Symbols.{Below, tabulate};
ghost use Rattle.theory.specs.Counters.{Clear};
ghost use Rattle.params.specs.Codes.{code_by};
ghost use Rattle.checks.specs.Checks.{AtChecks};
ghost use Rattle.checks.specs.Places.{AtTable};
ghost use Rattle.zeros.specs.Counts.{run_zeros, zero_counts};
ghost use Rattle.zeros.specs.Runs.{add_zeros, counted_at};

use params::Params;

// One more in acc wherever src is 0.
fn add_zeros(acc: &mut [u8], src: &[u8])
    requires { (length acc.old ≡ length src.now) × Below 255 acc.old }
    ensures { acc.new ≡ add_zeros acc.old src.now }
{
    for (i, a) in acc.iter_mut().enumerate() {
        *a += symbols::equal(0, src[i]);
    }
}

// One more in acc for each symbol j of a branch whose check (j + p) mod k is 0, in two straight runs.
fn add_zeros_from(k: usize, p: usize, acc: &mut [u8], src: &[u8])
    requires { (length acc.old ≡ k) × (length src.now ≡ k) × (p < k) × Below 255 acc.old }
    ensures { acc.new ≡ tabulate k (counted_at k p acc.old src.now) }
{
    let rest = k - p;
    add_zeros(&mut acc[rest..], &src[..p]);
    add_zeros(&mut acc[..rest], &src[p..]);
}

// For each symbol of a branch, whose run of positions is lent, the zeros of the syndrome at its checks, counted up from 0.
fn count_run(code: Params, positions: &[u16], s: &[u8], zeros: &mut [u8])
    requires { AtChecks code.k positions.now s.now × (length zeros.old ≡ code.k) × Clear zeros.old }
    ensures { zeros.new ≡ run_zeros code.k positions.now s.now }
{
    for p in positions {
        add_zeros_from(code.k, *p as usize, zeros, s);
    }
}

// For each data symbol, the zeros of the syndrome at its checks, branch by branch, counted up from 0 in a buffer that is all zero.
pub fn count_zeros(code: Params, positions: &[u16], s: &[u8], zeros: &mut [u8])
    requires { AtTable (code_by code positions.now) s.now
        × (length zeros.old ≡ data_count (code_by code positions.now))
        × Clear zeros.old }
    ensures { zeros.new ≡ zero_counts (code_by code positions.now) s.now }
{
    let k = code.k;
    let each = params::checks_each(code, positions.len());
    let mut from = 0;
    let mut at = 0;
    for _r in 0..code.b {
        count_run(
            code,
            &positions[from..from + each],
            s,
            &mut zeros[at..at + k],
        );
        from += each;
        at += k;
    }
}

// The margins of all data symbols, from what a decode leaves.
#![tactic(auto)]

ghost use Rattle.std.specs.Prelude.{◌≡◌, List, map, ℕ, ◌≤◌, pos, ◌-ℤ◌, length};
ghost use Rattle.model.specs.Code.{data_count};
ghost use Rattle.model.specs.Decoder.{state_by, margins_of};
ghost use Rattle.model.specs.Symbols.{tabulate};
ghost use Rattle.params.specs.Codes.{code_by};
ghost use Rattle.checks.specs.Places.{AtTable};
ghost use Rattle.ones.specs.Pages.{AllBits};
ghost use Rattle.zeros.specs.Counts.{zero_counts};
ghost use Rattle.margins.specs.Margins.{Left};

use params::Params;

// The margin of every data symbol, branch by branch, from S and D and the zeros at the checks of each.
fn write_margins(
    bits: bool,
    code: Params,
    positions: &[u16],
    zeros: &[u8],
    s: &[u8],
    d: &[u8],
    margins: &mut [i32],
)
    requires { AtTable (code_by code positions.now) s.now
        × (zeros.now ≡ zero_counts (code_by code positions.now) s.now)
        × (length d.now ≡ data_count (code_by code positions.now))
        × (length margins.old ≡ data_count (code_by code positions.now))
        × AllBits bits s.now d.now }
    ensures { (r : List ℕ) → margins.new ≡ margins_of (code_by code positions.now) (state_by r s.now d.now) }
{
    let k = code.k;
    let each = params::checks_each(code, positions.len());
    let mut from = 0;
    let mut at = 0;
    for _r in 0..code.b {
        let run = &positions[from..from + each];
        for j in 0..k {
            let i = at + j;
            margins[i] = margins::margin_at(bits, code, run, j, d[i], zeros[i], s);
        }
        from += each;
        at += k;
    }
}

// The margin of every data symbol where S and D are 0: all its n estimates are.
pub fn write_firm(n: u8, margins: &mut [i32])
    requires { n ≤ 33 }
    ensures { margins.new ≡ map (λ j. pos n -ℤ pos 0) (tabulate (length margins.old) (λ j. j)) }
{
    for m in margins.iter_mut() {
        *m = margins::margin_of(n, 0);
    }
}

// The margins that a decode hands back, from what it leaves: `end` is the distance at its end.
pub fn fill(
    bits: bool,
    code: Params,
    positions: &[u16],
    end: u32,
    zeros: &[u8],
    s: &[u8],
    d: &[u8],
    margins: &mut [i32],
)
    requires { Left (code_by code positions.now) s.now d.now zeros.now end
        × (length margins.old ≡ data_count (code_by code positions.now))
        × AllBits bits s.now d.now }
    ensures { (r : List ℕ) → margins.new ≡ margins_of (code_by code positions.now) (state_by r s.now d.now) }
{
    if end == 0 {
        write_firm(
            (params::checks_each(code, positions.len()) + 1) as u8,
            margins,
        );
    } else {
        let n = params::data_count(code);
        write_margins(bits, code, positions, &zeros[..n], s, d, margins);
    }
}

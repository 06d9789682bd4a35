// Check symbols of wide symbols as sums of rows, which are added two at a time and branch by branch: the parts that a page is encoded by, and the syndrome of a page.
#![tactic(auto)]

ghost use Rattle.std.specs.Prelude.{◌≡◌, ◌++◌, length};
ghost use Rattle.model.specs.Code.{highest, data_count, check_sum_by, check_symbols, syndrome};
ghost use Rattle.model.specs.Limits.{Ascending, TableLimits};
ghost use Rattle.theory.specs.Steps.{SymbolsBelow};
ghost use Rattle.codeword.specs.Sums.{added};
ghost use Rattle.codeword.specs.Rest.{rest_sum};
ghost use Rattle.codeword.specs.Checks.{first_row};
ghost use Rattle.wide_symbols.specs.Codes.{wide_code_by};

use params::Params;
use wide_symbols::WideSymbol;

// The rows of the positions of a run, added to the sums, two at a time.
fn add_rows<S: WideSymbol>(positions: &[u16], data: &[S], sums: &mut [S])
    requires { Ascending (length «data».now) positions.now × SymbolsBelow (highest S.profile) (length «data».now) (S.numbers sums.old) }
    ensures { S.numbers sums.new
        ≡ added (highest S.profile) (check_sum_by (length «data».now) positions.now (S.numbers «data».now)) (S.numbers sums.old) }
{
    for pair in positions.chunks(2) {
        match pair {
            [p, r] => wide_rows::add_two_rows(usize::from(*p), usize::from(*r), sums, data),
            [p] => wide_rows::add_row(usize::from(*p), sums, data),
            _ => {}
        }
    }
}

// The rows of all positions but the first of the table, added to the sums: those of branch 0, then branch by branch.
fn add_branches<S: WideSymbol>(code: Params, positions: &[u16], data: &[S], sums: &mut [S])
    requires { TableLimits (wide_code_by S.profile code positions.now)
        × SymbolsBelow (highest S.profile) (data_count (wide_code_by S.profile code positions.now)) (S.numbers «data».now)
        × SymbolsBelow (highest S.profile) code.k (S.numbers sums.old) }
    ensures { S.numbers sums.new
        ≡ added (highest S.profile) (rest_sum (wide_code_by S.profile code positions.now) (S.numbers «data».now) code.b) (S.numbers sums.old) }
{
    let k = code.k;
    let each = params::checks_each(code, positions.len());
    add_rows(&positions[1..each], &data[..k], sums);
    for r in 1..code.b {
        // in 32 bits, since some processors have no product of 64
        let at = (r as u32 * k as u32) as usize;
        let from = (r as u32 * each as u32) as usize;
        add_rows(&positions[from..from + each], &data[at..at + k], sums);
    }
}

// The row of the first position of the table written over the checks, which the other rows are then added to.
fn first_row<S: WideSymbol>(code: Params, positions: &[u16], data: &[S], checks: &mut [S])
    requires { TableLimits (wide_code_by S.profile code positions.now)
        × SymbolsBelow (highest S.profile) (data_count (wide_code_by S.profile code positions.now)) (S.numbers «data».now)
        × (length checks.old ≡ code.k) }
    ensures written { S.numbers checks.new ≡ first_row (wide_code_by S.profile code positions.now) (S.numbers «data».now) }
    ensures below { SymbolsBelow (highest S.profile) code.k (S.numbers checks.new) }
{
    let k = code.k;
    let first = positions[0] as usize;
    wide_rows::copy_row(first, checks, &data[..k]);
}

// The check symbols of data, written over the checks.
pub fn write_checks<S: WideSymbol>(code: Params, positions: &[u16], data: &[S], checks: &mut [S])
    requires { TableLimits (wide_code_by S.profile code positions.now)
        × SymbolsBelow (highest S.profile) (data_count (wide_code_by S.profile code positions.now)) (S.numbers «data».now)
        × (length checks.old ≡ code.k) }
    ensures { S.numbers checks.new ≡ check_symbols (wide_code_by S.profile code positions.now) (S.numbers «data».now) }
{
    first_row(code, positions, data, checks);
    add_branches(code, positions, data, checks);
}

// The syndrome of a page, whose data and checks are lent apart, written over the checks: the row of the first position less them, and the other
// rows added.
pub fn write_syndrome<S: WideSymbol>(code: Params, positions: &[u16], data: &[S], s: &mut [S])
    requires { TableLimits (wide_code_by S.profile code positions.now)
        × SymbolsBelow (highest S.profile) (data_count (wide_code_by S.profile code positions.now)) (S.numbers «data».now)
        × (length s.old ≡ code.k) }
    ensures { S.numbers s.new ≡ syndrome (wide_code_by S.profile code positions.now) (S.numbers «data».now ++ S.numbers s.old) }
{
    let k = code.k;
    let first = positions[0] as usize;
    wide_rows::less_row(first, s, &data[..k]);
    add_branches(code, positions, data, s);
}

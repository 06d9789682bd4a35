// Check symbols as sums of rows, which are added two at a time and branch by branch: the parts that a page is encoded by, and the syndrome of a page.
#![tactic(auto)]

ghost use Rattle.std.specs.Prelude.{◌≡◌, ◌≤◌, length};
ghost use Rattle.model.specs.Symbols.{Below};
ghost use Rattle.model.specs.Code.{data_count, page_length, check_sum_by, syndrome};
ghost use Rattle.model.specs.Limits.{Ascending};
ghost use Rattle.theory.specs.Codes.{ByteCode};
ghost use Rattle.theory.specs.Steps.{SymbolsBelow};
ghost use Rattle.params.specs.Codes.{code_by};
ghost use Rattle.codeword.specs.Sums.{added};
ghost use Rattle.codeword.specs.Rest.{rest_sum};
ghost use Rattle.codeword.specs.Checks.{first_row};

use params::Params;

// The rows of the positions of a run, added to the sums, two at a time.
fn add_rows(q: u32, positions: &[u16], data: &[u8], sums: &mut [u8])
    requires { (2 ≤ q)
        × (q ≤ 256)
        × Ascending (length «data».now) positions.now
        × Below q «data».now
        × SymbolsBelow q (length «data».now) sums.old }
    ensures { sums.new ≡ added q (check_sum_by (length «data».now) positions.now «data».now) sums.old }
{
    let mut n = 0;
    // kept: `first` of the remainder hands out an Option of a reference, which the modules for 32-bit processors lay out wrongly
    while n + 1 < positions.len() {
        let p = positions[n] as usize;
        let r = positions[n + 1] as usize;
        rows::add_two_rows(q, p, r, sums, data);
        n += 2;
    }
    if n < positions.len() {
        let p = positions[n] as usize;
        rows::add_row(q, p, sums, data);
    }
}

// The rows of all positions but the first of the table, added to the sums: those of branch 0, then branch by branch. Branch r of the data starts at `at`,
// and its run at `from`.
pub fn add_branches(code: Params, positions: &[u16], data: &[u8], sums: &mut [u8])
    requires { ByteCode (code_by code positions.now)
        × SymbolsBelow code.q (data_count (code_by code positions.now)) «data».now
        × SymbolsBelow code.q code.k sums.old }
    ensures { sums.new ≡ added code.q (rest_sum (code_by code positions.now) «data».now code.b) sums.old }
{
    let k = code.k;
    let each = params::checks_each(code, positions.len());
    add_rows(code.q, &positions[1..each], &data[..k], sums);
    let mut at = k;
    let mut from = each;
    for _r in 1..code.b {
        add_rows(
            code.q,
            &positions[from..from + each],
            &data[at..at + k],
            sums,
        );
        at += k;
        from += each;
    }
}

// The row of the first position of the table written over the checks, which the other rows are then added to.
pub fn first_row(code: Params, positions: &[u16], data: &[u8], checks: &mut [u8])
    requires { ByteCode (code_by code positions.now)
        × SymbolsBelow code.q (data_count (code_by code positions.now)) «data».now
        × (length checks.old ≡ code.k) }
    ensures written { checks.new ≡ first_row (code_by code positions.now) «data».now }
    ensures below { SymbolsBelow code.q code.k checks.new }
{
    let k = code.k;
    let first = positions[0] as usize;
    rows::copy_row(first, checks, &data[..k]);
}

// The syndrome of a page: the row of the first position less the page's checks, and the other rows added.
pub fn write_syndrome(code: Params, positions: &[u16], page: &[u8], s: &mut [u8])
    requires { ByteCode (code_by code positions.now)
        × SymbolsBelow code.q (page_length (code_by code positions.now)) page.now
        × (length s.old ≡ code.k) }
    ensures { s.new ≡ syndrome (code_by code positions.now) page.now }
{
    let k = code.k;
    let n = params::data_count(code);
    let first = positions[0] as usize;
    rows::copy_row_less(code.q, first, s, &page[..k], &page[n..]);
    add_branches(code, positions, &page[..n], s);
}

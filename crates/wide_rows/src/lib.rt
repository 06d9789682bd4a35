// The rows of a check sum of wide symbols: the data turned by a position of the table. Written, or added to the checks, in straight runs.
#![tactic(auto)]

ghost use Rattle.std.specs.Prelude.{◌≡◌, ◌+◌, ◌-◌, ◌<◌, ◌≤◌, length};
ghost use Rattle.model.specs.Code.{highest};
ghost use Rattle.model.specs.Symbols.{add_each, sub_each, tabulate};
ghost use Rattle.rows.specs.Rows.{row, with_two_parts, with_two_rows};

use wide_symbols::WideSymbol;

// The row of p written over dst, in two straight runs.
pub fn copy_row<S: WideSymbol>(p: usize, dst: &mut [S], src: &[S])
    requires { (length dst.old ≡ length src.now) × (p < length src.now) }
    ensures { S.numbers dst.new ≡ row p (S.numbers src.now) }
{
    let rest = src.len() - p;
    wide_symbols::copy_into(&mut dst[p..], &src[..rest]);
    wide_symbols::copy_into(&mut dst[..p], &src[rest..]);
}

// acc subtracted from the row of p, in two straight runs.
pub fn less_row<S: WideSymbol>(p: usize, acc: &mut [S], src: &[S])
    requires { (length acc.old ≡ length src.now) × (p < length src.now) }
    ensures { S.numbers acc.new ≡ sub_each (highest S.profile) (row p (S.numbers src.now)) (S.numbers acc.old) }
{
    let rest = src.len() - p;
    wide_symbols::sub_from(&mut acc[p..], &src[..rest]);
    wide_symbols::sub_from(&mut acc[..p], &src[rest..]);
}

// The row of p added to acc, in two straight runs.
pub fn add_row<S: WideSymbol>(p: usize, acc: &mut [S], src: &[S])
    requires { (length acc.old ≡ length src.now) × (p < length src.now) }
    ensures { S.numbers acc.new ≡ add_each (highest S.profile) (S.numbers acc.old) (row p (S.numbers src.now)) }
{
    let rest = src.len() - p;
    wide_symbols::add_into(&mut acc[p..], &src[..rest]);
    wide_symbols::add_into(&mut acc[..p], &src[rest..]);
}

// src from a on and src from b on, added to acc as far as acc reaches.
fn add_two_parts<S: WideSymbol>(acc: &mut [S], src: &[S], a: usize, b: usize)
    requires { (a + length acc.old ≤ length src.now) × (b + length acc.old ≤ length src.now) }
    ensures { S.numbers acc.new ≡ with_two_parts (highest S.profile) a b (S.numbers acc.old) (S.numbers src.now) }
{
    let n = acc.len();
    wide_symbols::add_two_into(acc, &src[a..a + n], &src[b..b + n]);
}

// The rows of p and r added to the checks before r, which are acc: those from p on, then those before p.
fn add_two_before<S: WideSymbol>(p: usize, r: usize, acc: &mut [S], src: &[S])
    requires { (length acc.old ≡ r) × (p ≤ r) × (r < length src.now) }
    ensures { S.numbers acc.new ≡ tabulate r (with_two_rows (highest S.profile) p r (S.numbers acc.old) (S.numbers src.now)) }
{
    let rest = src.len() - r;
    add_two_parts(&mut acc[p..], src, 0, rest + p);
    add_two_parts(&mut acc[..p], src, src.len() - p, rest);
}

// The rows of p and r added to acc, in three straight runs.
pub fn add_two_rows<S: WideSymbol>(p: usize, r: usize, acc: &mut [S], src: &[S])
    requires { (length acc.old ≡ length src.now) × (p ≤ r) × (r < length src.now) }
    ensures { S.numbers acc.new ≡ add_each (highest S.profile) (add_each (highest S.profile) (S.numbers acc.old) (row p (S.numbers src.now))) (row r (S.numbers src.now)) }
{
    add_two_parts(&mut acc[r..], src, r - p, 0);
    add_two_before(p, r, &mut acc[..r], src);
}

// The rows of a check sum: the data turned by a position of the table. Written, or added to the checks, in straight runs.
#![tactic(auto)]

ghost use Rattle.std.specs.Prelude.{◌≡◌, ◌+◌, ◌<◌, ◌≤◌, length};
ghost use Rattle.model.specs.Symbols.{Below, add_each, sub_each, tabulate};
ghost use Rattle.rows.specs.Rows.{row, with_two_parts, with_two_rows};

// The row of p written over dst, in two straight runs.
pub fn copy_row(p: usize, dst: &mut [u8], src: &[u8])
    requires { (length dst.old ≡ length src.now) × (p < length src.now) }
    ensures { dst.new ≡ row p src.now }
{
    let rest = src.len() - p;
    slices::copy_into(&mut dst[p..], &src[..rest]);
    slices::copy_into(&mut dst[..p], &src[rest..]);
}

// The row of p less another list, written over dst, in two straight runs.
pub fn copy_row_less(q: u32, p: usize, dst: &mut [u8], src: &[u8], less: &[u8])
    requires { (2 ≤ q)
        × (q ≤ 256)
        × (length dst.old ≡ length src.now)
        × (length less.now ≡ length src.now)
        × (p < length src.now)
        × Below q src.now
        × Below q less.now }
    ensures { dst.new ≡ sub_each q (row p src.now) less.now }
{
    let rest = src.len() - p;
    sums::sub_into(q, &mut dst[p..], &src[..rest], &less[p..]);
    sums::sub_into(q, &mut dst[..p], &src[rest..], &less[..p]);
}

// The row of p added to acc, in two straight runs.
pub fn add_row(q: u32, p: usize, acc: &mut [u8], src: &[u8])
    requires { (2 ≤ q) × (q ≤ 256) × (length acc.old ≡ length src.now) × (p < length src.now) × Below q acc.old × Below q src.now }
    ensures { acc.new ≡ add_each q acc.old (row p src.now) }
{
    let rest = src.len() - p;
    sums::add_into(q, &mut acc[p..], &src[..rest]);
    sums::add_into(q, &mut acc[..p], &src[rest..]);
}

// src from a on and src from b on, added to acc as far as acc reaches.
fn add_two_parts(q: u32, acc: &mut [u8], src: &[u8], a: usize, b: usize)
    requires { (2 ≤ q)
        × (q ≤ 256)
        × (a + length acc.old ≤ length src.now)
        × (b + length acc.old ≤ length src.now)
        × Below q acc.old
        × Below q src.now }
    ensures { acc.new ≡ with_two_parts q a b acc.old src.now }
{
    let n = acc.len();
    sums::add_two_into(q, acc, &src[a..a + n], &src[b..b + n]);
}

// The rows of p and r added to the checks before r, which are acc: those from p on, then those before p.
fn add_two_before(q: u32, p: usize, r: usize, acc: &mut [u8], src: &[u8])
    requires { (2 ≤ q) × (q ≤ 256) × (length acc.old ≡ r) × (p ≤ r) × (r < length src.now) × Below q acc.old × Below q src.now }
    ensures { acc.new ≡ tabulate r (with_two_rows q p r acc.old src.now) }
{
    let rest = src.len() - r;
    add_two_parts(q, &mut acc[p..], src, 0, rest + p);
    add_two_parts(q, &mut acc[..p], src, src.len() - p, rest);
}

// The rows of p and r added to acc, in three straight runs.
pub fn add_two_rows(q: u32, p: usize, r: usize, acc: &mut [u8], src: &[u8])
    requires { (2 ≤ q)
        × (q ≤ 256)
        × (length acc.old ≡ length src.now)
        × (p ≤ r)
        × (r < length src.now)
        × Below q acc.old
        × Below q src.now }
    ensures { acc.new ≡ add_each q (add_each q acc.old (row p src.now)) (row r src.now) }
{
    add_two_parts(q, &mut acc[r..], src, r - p, 0);
    add_two_before(q, p, r, &mut acc[..r], src);
}

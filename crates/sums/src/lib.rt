// Whole slices of symbols added and subtracted modulo q, in straight runs.
#![tactic(auto)]

ghost use Rattle.std.specs.Prelude.{◌≡◌, ◌+◌, ◌≤◌, length};
ghost use Rattle.model.specs.Symbols.{add, Below, add_each, sub_each};

// The highest symbol. It stands for q in the sums, which are of bytes, since q = 256 fits none.
fn highest(q: u32) -> u8
    requires { (1 ≤ q) × (q ≤ 256) }
    ensures { result + 1 ≡ q }
{
    (q - 1) as u8
}

// At q = 256 a byte's own wrapping sum is that of symbols.
#[tactic(auto, unfolding(model::specs::Symbols::add))]
fn add_byte(a: u8, b: u8) -> u8
    ensures { result ≡ add 256 a b }
{
    std::num::wrapping_add_u8(a, b)
}

// The sums at q = 256: a turn takes one or two wrapping sums.
fn add_bytes(acc: &mut [u8], src: &[u8])
    requires { length acc.old ≡ length src.now }
    ensures { acc.new ≡ add_each 256 acc.old src.now }
{
    for (i, a) in acc.iter_mut().enumerate() {
        *a = add_byte(*a, src[i]);
    }
}

fn add_two_bytes(acc: &mut [u8], xs: &[u8], ys: &[u8])
    requires { (length acc.old ≡ length xs.now) × (length acc.old ≡ length ys.now) }
    ensures { acc.new ≡ add_each 256 (add_each 256 acc.old xs.now) ys.now }
{
    for (i, a) in acc.iter_mut().enumerate() {
        *a = add_byte(add_byte(*a, xs[i]), ys[i]);
    }
}

// The sums at any other q, by its highest symbol.
fn add_symbols(top: u8, acc: &mut [u8], src: &[u8])
    requires { (length acc.old ≡ length src.now) × Below (top + 1) acc.old × Below (top + 1) src.now }
    ensures { acc.new ≡ add_each (top + 1) acc.old src.now }
{
    for (i, a) in acc.iter_mut().enumerate() {
        *a = symbols::add_mod(top, *a, src[i]);
    }
}

fn add_two_symbols(top: u8, acc: &mut [u8], xs: &[u8], ys: &[u8])
    requires { (length acc.old ≡ length xs.now)
        × (length acc.old ≡ length ys.now)
        × Below (top + 1) acc.old
        × Below (top + 1) xs.now
        × Below (top + 1) ys.now }
    ensures { acc.new ≡ add_each (top + 1) (add_each (top + 1) acc.old xs.now) ys.now }
{
    for (i, a) in acc.iter_mut().enumerate() {
        *a = symbols::add_mod(top, symbols::add_mod(top, *a, xs[i]), ys[i]);
    }
}

// src added to acc, symbol by symbol.
pub fn add_into(q: u32, acc: &mut [u8], src: &[u8])
    requires { (2 ≤ q) × (q ≤ 256) × (length acc.old ≡ length src.now) × Below q acc.old × Below q src.now }
    ensures { acc.new ≡ add_each q acc.old src.now }
{
    if q == 256 {
        add_bytes(acc, src);
    } else {
        add_symbols(highest(q), acc, src);
    }
}

// xs and ys added to acc, symbol by symbol, in one run.
pub fn add_two_into(q: u32, acc: &mut [u8], xs: &[u8], ys: &[u8])
    requires { (2 ≤ q)
        × (q ≤ 256)
        × (length acc.old ≡ length xs.now)
        × (length acc.old ≡ length ys.now)
        × Below q acc.old
        × Below q xs.now
        × Below q ys.now }
    ensures { acc.new ≡ add_each q (add_each q acc.old xs.now) ys.now }
{
    if q == 256 {
        add_two_bytes(acc, xs, ys);
    } else {
        add_two_symbols(highest(q), acc, xs, ys);
    }
}

// ys subtracted from xs, symbol by symbol, and written over dst.
fn sub_symbols(q: u32, dst: &mut [u8], xs: &[u8], ys: &[u8])
    requires { (q ≤ 256) × (length dst.old ≡ length xs.now) × (length dst.old ≡ length ys.now) × Below q xs.now × Below q ys.now }
    ensures { dst.new ≡ sub_each q xs.now ys.now }
{
    for (i, d) in dst.iter_mut().enumerate() {
        *d = symbols::sub_mod(q, xs[i], ys[i]);
    }
}

// The same. At q = 256 by the constant, since both cases then compile to the byte's own difference.
pub fn sub_into(q: u32, dst: &mut [u8], xs: &[u8], ys: &[u8])
    requires { (q ≤ 256) × (length dst.old ≡ length xs.now) × (length dst.old ≡ length ys.now) × Below q xs.now × Below q ys.now }
    ensures { dst.new ≡ sub_each q xs.now ys.now }
{
    if q == 256 {
        sub_symbols(256, dst, xs, ys);
    } else {
        sub_symbols(q, dst, xs, ys);
    }
}

// Symbols of two bytes and of four, whose q is every value of that width: what a symbol can do, and whole slices of symbols.
#![tactic(auto)]

ghost use Rattle.std.specs.Prelude.{◌≡◌, ℕ, List, ◌+◌, ◌<◌, ◌≤◌, length, slice_index, take, drop};
ghost use Rattle.std.proofs.lemmas.List.Edits.{sets};
ghost use Rattle.model.specs.Bytes.{symbol_size, number_of, bytes_in};
ghost use Rattle.model.specs.Code.{Profile, wide16, wide32, highest};
ghost use Rattle.model.specs.Symbols.{Below, add, sub, same, differ, weight, tabulate, add_each, sub_each};
ghost use Rattle.wide_symbols.specs.Widths.{IsWide, two_bytes, four_bytes};

use any_symbols::Symbol;

// A symbol of a wide profile.
pub trait WideSymbol: Symbol {
    ghost profile: { Profile };

    ghost SIZE: { ℕ };

    // The bytes of a symbol.
    const SIZE: usize;

    // The sum of two symbols is the wrapping sum.
    fn add_wrap(self, other: Self) -> Self
        ensures { Self.number result ≡ add (highest profile) (Self.number self) (Self.number other) };

    // The difference of two symbols is the wrapping difference.
    fn sub_wrap(self, other: Self) -> Self
        ensures { Self.number result ≡ sub (highest profile) (Self.number self) (Self.number other) };

    // A symbol as the votes take it.
    fn widened(self) -> u32
        ensures { result ≡ Self.number self };

    // And back.
    fn narrowed(x: u32) -> Self
        requires { x < highest profile }
        ensures { Self.number result ≡ x };

    // The symbol that stands at a place among bytes, low byte first.
    fn get(bytes: &[u8], at: usize) -> Self
        requires { at + SIZE ≤ length bytes.now }
        ensures { Self.number result ≡ number_of (take SIZE (drop at bytes.now)) };

    // The symbol written there.
    fn put(self, bytes: &mut [u8], at: usize)
        requires { at + SIZE ≤ length bytes.old }
        ensures { bytes.new ≡ sets bytes.old at (bytes_in SIZE (Self.number self)) };

    // Every symbol is below q. It does nothing, since the type says so: a function over any symbol learns it by a call.
    fn all_below(s: &[Self])
        ensures { Below (highest profile) (Self.numbers s.now) };

    // What holds of every such symbol.
    ghost is_wide: { IsWide profile SIZE };
}

impl WideSymbol for u16 {
    ghost profile = { wide16 };

    ghost SIZE = { 2 };

    const SIZE: usize = 2;

    ghost is_wide = { two_bytes };

    #[tactic(auto, unfolding(model::specs::Symbols::add))]
    fn add_wrap(self, other: u16) -> u16 {
        self.wrapping_add(other)
    }

    #[tactic(auto, unfolding(model::specs::Symbols::sub))]
    fn sub_wrap(self, other: u16) -> u16 {
        self.wrapping_sub(other)
    }

    fn widened(self) -> u32 {
        u32::from(self)
    }

    fn narrowed(x: u32) -> u16 {
        x as u16
    }

    fn get(bytes: &[u8], at: usize) -> u16 {
        pairs::get(bytes, at)
    }

    fn put(self, bytes: &mut [u8], at: usize) {
        pairs::put(bytes, at, self)
    }

    fn all_below(_s: &[u16]) {}
}

impl WideSymbol for u32 {
    ghost profile = { wide32 };

    ghost SIZE = { 4 };

    const SIZE: usize = 4;

    ghost is_wide = { four_bytes };

    #[tactic(auto, unfolding(model::specs::Symbols::add))]
    fn add_wrap(self, other: u32) -> u32 {
        self.wrapping_add(other)
    }

    #[tactic(auto, unfolding(model::specs::Symbols::sub))]
    fn sub_wrap(self, other: u32) -> u32 {
        self.wrapping_sub(other)
    }

    fn widened(self) -> u32 {
        self
    }

    fn narrowed(x: u32) -> u32 {
        x
    }

    fn get(bytes: &[u8], at: usize) -> u32 {
        words::get(bytes, at)
    }

    fn put(self, bytes: &mut [u8], at: usize) {
        words::put(bytes, at, self)
    }

    fn all_below(_s: &[u32]) {}
}

// 1 where a symbol is 0, else 0.
pub fn zeros_of<S: WideSymbol>(x: S) -> u8
    ensures { (result ≡ same 0 (S.number x)) × (result ≤ 1) }
{
    x.zeros()
}

// The mark of a symbol: 0 where it is 0, else 1.
pub fn mark<S: WideSymbol>(x: S) -> u8
    ensures { result ≡ differ (S.number x) 0 }
{
    if x.widened() == 0 { 0 } else { 1 }
}

// src added to acc, symbol by symbol.
pub fn add_into<S: WideSymbol>(acc: &mut [S], src: &[S])
    requires { length acc.old ≡ length src.now }
    ensures { S.numbers acc.new ≡ add_each (highest S.profile) (S.numbers acc.old) (S.numbers src.now) }
{
    for (i, a) in acc.iter_mut().enumerate() {
        *a = a.add_wrap(src[i]);
    }
}

// xs and ys added to acc, symbol by symbol, in one run.
pub fn add_two_into<S: WideSymbol>(acc: &mut [S], xs: &[S], ys: &[S])
    requires { (length acc.old ≡ length xs.now) × (length acc.old ≡ length ys.now) }
    ensures { S.numbers acc.new ≡ add_each (highest S.profile) (add_each (highest S.profile) (S.numbers acc.old) (S.numbers xs.now)) (S.numbers ys.now) }
{
    for (i, a) in acc.iter_mut().enumerate() {
        *a = a.add_wrap(xs[i]).add_wrap(ys[i]);
    }
}

// acc subtracted from src, symbol by symbol, and written over acc.
pub fn sub_from<S: WideSymbol>(acc: &mut [S], src: &[S])
    requires { length acc.old ≡ length src.now }
    ensures { S.numbers acc.new ≡ sub_each (highest S.profile) (S.numbers src.now) (S.numbers acc.old) }
{
    for (i, a) in acc.iter_mut().enumerate() {
        *a = src[i].sub_wrap(*a);
    }
}

// src written over dst.
pub fn copy_into<S: WideSymbol>(dst: &mut [S], src: &[S])
    requires { length dst.old ≡ length src.now }
    ensures { S.numbers dst.new ≡ S.numbers src.now }
{
    for (i, x) in dst.iter_mut().enumerate() {
        *x = src[i];
    }
}

// 0 written over s.
pub fn clear<S: WideSymbol>(s: &mut [S])
    ensures { S.numbers s.new ≡ tabulate (length s.old) (λ i. 0) }
{
    let zero = S::narrowed(0);
    for x in s.iter_mut() {
        *x = zero;
    }
}

// 1 where a symbol is not 0, else 0, as a symbol.
fn nonzero<S: WideSymbol>(x: S) -> S
    ensures { S.number result ≡ differ (S.number x) 0 }
{
    S::narrowed(u32::from(mark(x)))
}

// How many symbols are not 0. They are counted in a symbol, so that a straight run takes as many at once as fit.
pub fn weight_of<S: WideSymbol>(s: &[S]) -> u32
    requires { length s.now ≤ 8192 }
    ensures { result ≡ weight (S.numbers s.now) }
{
    let mut n = S::narrowed(0);
    for x in s {
        n = n.add_wrap(nonzero(*x));
    }
    n.widened()
}

// The marks of symbols written over marks.
pub fn mark_into<S: WideSymbol>(marks: &mut [u8], s: &[S])
    requires { length marks.old ≡ length s.now }
    ensures { marks.new ≡ tabulate (length s.now) (λ i. differ (slice_index (S.numbers s.now) i) 0) }
{
    for (i, m) in marks.iter_mut().enumerate() {
        *m = mark(s[i]);
    }
}

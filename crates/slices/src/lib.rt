// Whole slices of symbols: the range test, copying, clearing, the weight.
#![tactic(auto)]

ghost use Rattle.std.specs.Prelude.{◌≡◌, ◌+◌, ◌<◌, ◌≤◌, max, length};
ghost use Rattle.model.specs.Calls.{all_below};
ghost use Rattle.model.specs.Symbols.{differ, weight, tabulate};
ghost use Rattle.slices.specs.Scans.{highest};

// The larger of two symbols.
fn higher(a: u8, b: u8) -> u8
    ensures { result ≡ max a b }
{
    if a < b { b } else { a }
}

// The highest symbol of a slice, 0 where it is empty.
#[tactic(auto, using(crate::specs::Scans::highest_turn), unfolding(crate::specs::Scans::highest))]
fn highest_of(s: &[u8]) -> u8
    ensures { result ≡ highest s.now }
{
    let mut top = 0;
    for x in s {
        top = higher(top, *x);
    }
    top
}

// Whether every symbol is below q: one test at the end of the scan, and no scan from q = 256 on, where every byte is a symbol.
#[tactic(auto, using(crate::specs::Scans::all_below_at, crate::specs::Scans::below_highest))]
pub fn all_below(q: u32, s: &[u8]) -> bool
    requires { 1 ≤ q }
    ensures { result ≡ all_below q s.now }
{
    if 256 <= q {
        return true;
    }
    (highest_of(s) as u32) < q
}

// src written over dst; not by `copy_from_slice`, which calls memmove.
pub fn copy_into(dst: &mut [u8], src: &[u8])
    requires { length dst.old ≡ length src.now }
    ensures { dst.new ≡ src.now }
{
    for (i, d) in dst.iter_mut().enumerate() {
        *d = src[i];
    }
}

// 0 written over s.
pub fn clear(s: &mut [u8])
    ensures { s.new ≡ tabulate (length s.old) (λ i. 0) }
{
    for x in s.iter_mut() {
        *x = 0;
    }
}

// 1 where a symbol is not 0, else 0.
#[tactic(auto, unfolding(model::specs::Symbols::differ))]
fn nonzero(x: u8) -> u8
    ensures { result ≡ differ x 0 }
{
    if x == 0 { 0 } else { 1 }
}

// The weight of a part, counted in a byte.
#[tactic(auto, using(crate::specs::Scans::weight_turn, theory::specs::Counting::differ_le), unfolding(model::specs::Symbols::weight))]
fn weight_of_part(s: &[u8]) -> u8
    requires { length s.now ≤ 255 }
    ensures { result ≡ weight s.now }
{
    let mut n: u8 = 0;
    for x in s {
        n += nonzero(*x);
    }
    n
}

// How many symbols are not 0, part by part: of at most 224 symbols, which a byte counts, and a whole number of 32-symbol turns.
#[tactic(auto, using(crate::specs::Scans::weight_append, crate::specs::Scans::weight_le), unfolding(model::specs::Symbols::weight))]
pub fn weight_of(s: &[u8]) -> u32
    requires { length s.now ≤ 8192 }
    ensures { result ≡ weight s.now }
{
    let mut n: u32 = 0;
    for part in s.chunks(224) {
        n += weight_of_part(part) as u32;
    }
    n
}

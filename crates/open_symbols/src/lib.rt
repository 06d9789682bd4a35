// The way on to the next data symbol whose visit the zeros at its checks do not settle: one by one, and by blocks.
#![tactic(auto)]

ghost use Rattle.std.specs.Prelude.{◌≡◌, true, false, ℕ, ◌+◌, ◌<◌, ◌≤◌, leb, length, get_or};
ghost use Rattle.model.specs.Symbols.{same};
ghost use Rattle.open_symbols.specs.Settled.{Open, Settled, Settling, Past, FirstOpen, OpenFrom};

use any_symbols::Symbol;
use checks::Place;

// Whether a data symbol's visit is not settled by the zeros at its checks: counted twice, with its own difference among them, they and
// the threshold are at most J.
fn is_open<S: Symbol>(each: usize, threshold: u8, own: S, zeros: u8) -> bool
    ensures { result ≡ leb (zeros + same 0 (S.number own) + (zeros + same 0 (S.number own)) + threshold) each }
{
    let n = (zeros as usize) + (own.zeros() as usize);
    n + n + (threshold as usize) <= each
}

// A number of zeros at its checks that settles a data symbol's visit, whatever its own difference is.
pub fn settling(each: usize, threshold: u8) -> usize
    ensures { Settling each threshold result }
{
    let t = threshold as usize;
    if each < t {
        return 0;
    }
    (each - t) / 2 + 1
}

// Whether a data symbol's visit is not settled. Its own difference is read only where the zeros at its checks are below a number that settles it.
fn is_open_at<S: Symbol>(
    each: usize,
    threshold: u8,
    bound: usize,
    difference: &[S],
    zeros: &[u8],
    j: usize,
) -> bool
    requires { Settling each threshold bound × (j < length difference.now) × (j < length zeros.now) }
    ensures open { result ≡ true → Open each threshold (S.numbers difference.now) zeros.now j }
    ensures settled { result ≡ false → Settled each threshold (S.numbers difference.now) zeros.now j }
{
    let n = zeros[j];
    if bound <= (n as usize) {
        return false;
    }
    is_open(each, threshold, difference[j], n)
}

// The first data symbol from one on, and before the end, that the zeros do not settle, or the end. Two are looked at in a turn.
fn open_within<S: Symbol>(
    each: usize,
    threshold: u8,
    bound: usize,
    difference: &[S],
    zeros: &[u8],
    from: usize,
    end: usize,
) -> usize
    requires { Settling each threshold bound
        × (from ≤ end)
        × (end ≤ length difference.now)
        × (end ≤ length zeros.now) }
    ensures passed { FirstOpen each threshold (S.numbers difference.now) zeros.now from end result }
    ensures found { result < end → Open each threshold (S.numbers difference.now) zeros.now result }
{
    let mut j = from;
    // kept: two in a turn, which a `for` over the symbols is not: a search that may end early is not unrolled.
    while j + 1 < end {
        if is_open_at(each, threshold, bound, difference, zeros, j) {
            return j;
        }
        if is_open_at(each, threshold, bound, difference, zeros, j + 1) {
            return j + 1;
        }
        j += 2;
    }
    if j < end {
        if is_open_at(each, threshold, bound, difference, zeros, j) {
            return j;
        }
    }
    end
}

// Whether a data symbol before the end is there and its visit is not settled.
fn is_open_before<S: Symbol>(
    each: usize,
    threshold: u8,
    bound: usize,
    difference: &[S],
    zeros: &[u8],
    j: usize,
    end: usize,
) -> bool
    requires { Settling each threshold bound × (end ≤ length difference.now) × (end ≤ length zeros.now) }
    ensures { result ≡ true → Open each threshold (S.numbers difference.now) zeros.now j }
{
    if j < end {
        return is_open_at(each, threshold, bound, difference, zeros, j);
    }
    false
}

// A number that none of some numbers of zeros is below, the least of them, in one straight run.
fn least_of(zeros: &[u8]) -> u8
    ensures { (i : ℕ) → i < length zeros.now → result ≤ get_or zeros.now i 0 }
{
    // not `iter().min()`, which hands out an Option of a reference at each turn: see codeword::add_rows
    let mut least: u8 = 255;
    for z in zeros {
        least = least.min(*z);
    }
    least
}

// From a data symbol on, in blocks of 64, past those in which every symbol has so many zeros at its checks.
pub fn past_blocks(bound: usize, zeros: &[u8], from: usize, end: usize) -> usize
    requires { (from ≤ end) × (end ≤ length zeros.now) }
    ensures { Past bound zeros.now from end result }
{
    let mut j = from;
    for block in zeros[from..end].chunks_exact(64) {
        if (least_of(block) as usize) < bound {
            return j;
        }
        j += 64;
    }
    j
}

// Where the next 32 data symbols end, or the end.
pub fn end_near(from: usize, end: usize) -> usize
    requires { from ≤ end }
    ensures { (from ≤ result) × (result ≤ end) × (from < end → from < result) }
{
    if end - from < 32 {
        return end;
    }
    from + 32
}

// The same. On a page with much damage it is mostly the first, which is looked at by itself. Then the next 32 are looked at one by one;
// then blocks are passed whole, as far as a number of zeros at the checks settles all their symbols; and so on.
fn first_open<S: Symbol>(
    each: usize,
    threshold: u8,
    difference: &[S],
    zeros: &[u8],
    from: usize,
    end: usize,
) -> usize
    requires { (from ≤ end) × (end ≤ length difference.now) × (end ≤ length zeros.now) }
    ensures passed { FirstOpen each threshold (S.numbers difference.now) zeros.now from end result }
    ensures found { result < end → Open each threshold (S.numbers difference.now) zeros.now result }
{
    let bound = settling(each, threshold);
    if is_open_before(each, threshold, bound, difference, zeros, from, end) {
        return from;
    }
    let mut j = from;
    // kept: how far a turn goes hangs on the zeros.
    while j < end {
        let near = end_near(j, end);
        let at = open_within(each, threshold, bound, difference, zeros, j, near);
        if at < near {
            return at;
        }
        j = past_blocks(bound, zeros, at, end);
    }
    end
}

// The first place of a branch, from one on, that the zeros do not settle, or the one after its last symbol: the visits to those
// before it change nothing.
pub fn open_from<S: Symbol>(
    place: Place,
    each: usize,
    threshold: u8,
    difference: &[S],
    zeros: &[u8],
) -> Place
    requires { (place.symbol ≤ place.end) × (place.end ≤ length difference.now) × (place.end ≤ length zeros.now) }
    ensures { OpenFrom each threshold (S.numbers difference.now) zeros.now place result }
{
    place.at(first_open(each, threshold, difference, zeros, place.symbol, place.end))
}

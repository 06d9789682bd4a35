// Firm data symbols, of whose estimates at most one is not 0: their margins by the zeros alone, and the way past blocks of them.
#![tactic(auto)]

ghost use Rattle.std.specs.Prelude.{◌≡◌, ℕ, ◌<◌, ◌≤◌, length};
ghost use Rattle.model.specs.Symbols.{Below};
ghost use Rattle.firm_symbols.specs.Phases.{zeros_at, by_zeros, PastFirm};

// The margin of a data symbol with n zeros among its estimates, which are one more than its checks, where at most one of them is not 0.
pub fn margin_by_zeros(each: u8, n: u8) -> i32
    requires { each ≤ 32 }
    ensures { result ≡ by_zeros each n }
{
    if each < n {
        return margins::margin_of(each + 1, 0);
    }
    margins::margin_of(each, 1)
}

// A number that the zeros among the estimates of no data symbol are below, the least of them, in one straight run.
fn least_zeros(zeros: &[u8], d: &[u8]) -> u8
    requires { (length zeros.now ≡ length d.now) × Below 33 zeros.now }
    ensures { (i : ℕ) → i < length d.now → result ≤ zeros_at zeros.now d.now i }
{
    let mut least: u8 = 255;
    for (i, own) in d.iter().enumerate() {
        least = least.min(margins::zeros_with(*own, zeros[i]));
    }
    least
}

// From a data symbol on, in blocks of 32, past those in which every symbol has so many zeros among its estimates.
pub fn past_firm(bound: u8, zeros: &[u8], d: &[u8], from: usize, end: usize) -> usize
    requires { (from ≤ end) × (end ≤ length d.now) × (length zeros.now ≡ length d.now) × Below 33 zeros.now }
    ensures { PastFirm bound (zeros_at zeros.now d.now) from end result }
{
    let mut j = from;
    for (n, own) in zeros[from..end]
        .chunks_exact(32)
        .zip(d[from..end].chunks_exact(32))
    {
        if least_zeros(n, own) < bound {
            return j;
        }
        j += 32;
    }
    j
}

// Where the block of 32 data symbols that starts here ends, or the end.
pub fn block_end(from: usize, end: usize) -> usize
    requires { from ≤ end }
    ensures { (from ≤ result) × (result ≤ end) × (from < end → from < result) }
{
    if end - from < 32 {
        return end;
    }
    from + 32
}

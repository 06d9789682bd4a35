// Whether the buffers that a call is lent are as it needs them: their lengths, and counters that are all zero.
#![tactic(auto)]

ghost use Rattle.std.specs.Prelude.{◌≡◌, ◌&&◌, ◌+◌, ◌*◌, eqb};
ghost use Rattle.model.specs.Calls.{counters_fit};

// Two lengths are as a call needs them.
pub fn two_fit(a: usize, m: usize, b: usize, n: usize) -> bool
    ensures { result ≡ (eqb a m && eqb b n) }
{
    if a != m {
        return false;
    }
    b == n
}

// Whether the buffers that one form of a call lends fit, and others too.
pub fn also(others: bool, fit: bool) -> bool
    ensures { result ≡ (others && fit) }
{
    if others { fit } else { false }
}

// The counters of decode with counters are 256 and all zero.
#[tactic(auto, unfolding(model::specs::Calls::counters_fit))]
pub fn counters_fit(counters: &[u8]) -> bool
    ensures { result ≡ counters_fit counters.now }
{
    if counters.len() != 256 {
        return false;
    }
    slices::all_below(1, counters)
}

// The lengths of the margins' bytes, four for each of n margins, and of the 16 count bytes are as the C form of decode needs them.
pub fn bytes_fit(margins: usize, n: usize, counts: usize) -> bool
    ensures { result ≡ (eqb margins (4 * n) && eqb counts 16) }
{
    if margins % 4 != 0 {
        return false;
    }
    two_fit(margins / 4, n, counts, 16)
}

// The lengths of the result, S and D are as a call needs them, with n data symbols and k checks, and so are the buffers that only one
// form of the call lends.
pub fn state_fits(
    others: bool,
    n: usize,
    k: usize,
    res: usize,
    syndrome: usize,
    difference: usize,
) -> bool
    ensures { result ≡ (others && (eqb res n && (eqb syndrome k && eqb difference n))) }
{
    if !others {
        return false;
    }
    if res != n {
        return false;
    }
    two_fit(syndrome, k, difference, n)
}

// The length of the page too is as decode and open need it.
pub fn decode_fits(
    others: bool,
    n: usize,
    k: usize,
    page: usize,
    res: usize,
    syndrome: usize,
    difference: usize,
) -> bool
    ensures { result ≡ (others && (eqb page (n + k) && (eqb res n && (eqb syndrome k && eqb difference n)))) }
{
    if page < k {
        return false;
    }
    if page - k != n {
        return false;
    }
    state_fits(others, n, k, res, syndrome, difference)
}

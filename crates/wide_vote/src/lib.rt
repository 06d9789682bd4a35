// What decides of a visit, a margin and an explanation by the vote over estimates of up to four bytes, pair by pair.
#![tactic(auto)]

ghost use Rattle.std.specs.Prelude.{◌≡◌, false, ◌+◌, ◌%◌, ◌≤◌, length};
ghost use Rattle.model.specs.Symbols.{count};
ghost use Rattle.model.specs.Vote.{lead_count, other_count};
ghost use Rattle.grounds.specs.Told.{told_of};
ghost use Rattle.visits.specs.Decisions.{to_subtract};

use grounds::Told;

// The bits of the estimates that are h, over estimates of four bytes too.
pub use grounds::bits_of;

// The low byte of an estimate.
fn low_byte(x: u32) -> u8
    ensures { result ≡ x % 256 }
{
    (x % 256) as u8
}

// Whether some value may stand among the estimates more often than the bound: a quick test, by a counter for each low byte.
fn may_lead(es: &[u32], bound: u8) -> bool
    requires { length es.now ≤ 33 }
    ensures { result ≡ false → lead_count es.now ≤ bound }
{
    let mut counters = [0u8; 256];
    for e in es {
        let low = low_byte(*e) as usize;
        let n = counters[low] + 1;
        if bound < n {
            return true;
        }
        counters[low] = n;
    }
    false
}

// h0 where estimates are a change at a threshold, else 0; their zeros are given. A change needs a leader that stands more often than
// the zeros and the threshold together, and only then the other values are counted.
pub fn decided(es: &[u32], threshold: u8, zeros: u8) -> u32
    requires { (2 ≤ length es.now) × (length es.now ≤ 33) × (zeros ≡ count 0 es.now) × (zeros + threshold ≤ 255) }
    ensures { result ≡ to_subtract threshold es.now }
{
    if !may_lead(es, zeros + threshold) {
        return 0;
    }
    let best = vote::leader_of(es);
    if best.count <= (zeros + threshold) as u32 {
        return 0;
    }
    let next = vote::next_count(es, best.value);
    if best.count - next <= threshold as u32 {
        return 0;
    }
    best.value
}

// The largest count of a value other than 0.
pub fn most_other(es: &[u32]) -> u8
    requires { length es.now ≤ 33 }
    ensures { result ≡ other_count es.now 0 es.now }
{
    vote::next_count(es, 0) as u8
}

// What explain tells of estimates.
pub fn tell(es: &[u32], threshold: u32) -> Told
    requires { (2 ≤ length es.now) × (length es.now ≤ 33) }
    ensures { result ≡ told_of threshold es.now }
{
    grounds::tell_pairs(es, threshold)
}

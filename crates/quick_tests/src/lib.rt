// A quick test before the vote at a data symbol.
#![tactic(auto)]

ghost use Rattle.std.specs.Prelude.{◌≡◌, true, false, ◌<◌, ◌≤◌, ltb, length, get_or};
ghost use Rattle.model.specs.Vote.{lead_count};
ghost use Rattle.checks.specs.Checks.{AtChecks, estimates_by};

use params::Params;

// Whether the leader's count among the estimates of symbol j of a branch is above the bound, by a counter for each value. The estimates are
// read where they stand: most visits end with this test, and need them gathered for nothing else. The positions ascend, so those whose check
// is past the last one, k less j or more, come last: each of the two loops reads straight on.
pub fn lead_above(code: Params, positions: &[u16], j: usize, own: u8, s: &[u8], bound: u8) -> bool
    requires { AtChecks code.k positions.now s.now × (j < code.k) }
    ensures { result ≡ ltb bound (lead_count (estimates_by code.k positions.now j own s.now)) }
{
    if bound == 0 {
        return true;
    }
    let mut counters = [0u8; 256];
    counters[own as usize] = 1;
    let room = code.k - j;
    let mut straight = positions.len();
    for (i, p) in positions.iter().enumerate() {
        let p = *p as usize;
        if p >= room {
            straight = i;
            break;
        }
        let e = s[j + p] as usize;
        let c = counters[e] + 1;
        if bound < c {
            return true;
        }
        counters[e] = c;
    }
    for p in &positions[straight..] {
        let e = s[(*p as usize) - room] as usize;
        let c = counters[e] + 1;
        if bound < c {
            return true;
        }
        counters[e] = c;
    }
    false
}

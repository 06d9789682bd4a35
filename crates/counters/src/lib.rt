// The vote with one counter for each symbol value, on 256 lent counters.
#![tactic(auto)]

ghost use Rattle.std.specs.Prelude.{◌≡◌, ◌<◌, ◌≤◌, length, get_or};
ghost use Rattle.model.specs.Vote.{first_by, other_by, votes_read, zero_counters, counted};
ghost use Rattle.vote.specs.Leading.{lead_by, vote_of};
ghost use Rattle.counters.specs.Reading.{held, as_vote};

use vote::{Commonest, Vote};

// Adds 1 to the counter of each estimate.
fn count_each(es: &[u8], counters: &mut [u8])
    requires { (length es.now ≤ 33) × (counters.old ≡ zero_counters 256) }
    ensures { counters.new ≡ counted 256 es.now }
{
    for e in es {
        counters[*e as usize] += 1;
    }
}

// Sets the counter of each estimate to 0.
fn clear_each(es: &[u8], counters: &mut [u8])
    requires { counters.old ≡ counted 256 es.now }
    ensures { counters.new ≡ zero_counters 256 }
{
    for e in es {
        counters[*e as usize] = 0;
    }
}

// The leader of the estimates by the counters, and its count.
#[tactic(auto, using(theory::specs::Turns::first_turn, vote::specs::Leading::lead_first), unfolding(model::specs::Vote::first_by))]
fn leader_by(es: &[u8], counters: &[u8]) -> Commonest<u8>
    requires { (0 < length es.now) × (length counters.now ≡ 256) }
    ensures { result ≡ lead_by (held counters.now) (first_by (held counters.now) (get_or es.now 0 0) es.now) }
{
    let first = es[0];
    let mut best = Commonest {
        value: first,
        count: counters[first as usize],
    };
    for a in es {
        best = vote::first_of(best, *a, counters[*a as usize]);
    }
    best
}

// The largest counter of an estimate other than h.
#[tactic(auto, using(theory::specs::Turns::other_turn), unfolding(model::specs::Vote::other_by))]
fn next_by(es: &[u8], counters: &[u8], h: u8) -> u8
    requires { length counters.now ≡ 256 }
    ensures { result ≡ other_by (held counters.now) h es.now }
{
    let mut m: u8 = 0;
    for a in es {
        m = vote::raised(m, h, *a, counters[*a as usize]);
    }
    m
}

// What the vote tells, as read from the counters, whatever these hold.
#[tactic(auto, unfolding(model::specs::Vote::votes_read, model::specs::Vote::votes_by))]
fn read_vote(es: &[u8], counters: &[u8]) -> Vote<u8>
    requires { (0 < length es.now) × (length counters.now ≡ 256) }
    ensures { result ≡ as_vote (votes_read counters.now es.now) }
{
    let best = leader_by(es, counters);
    let h = best.value;
    Vote {
        leader: h,
        lead: best.count,
        next: next_by(es, counters, h),
        zeros: counters[0],
    }
}

// The vote over 2 to 33 estimates by 256 counters, which are zero before and after.
pub fn vote_counted(es: &[u8], counters: &mut [u8]) -> Vote<u8>
    requires { (2 ≤ length es.now) × (length es.now ≤ 33) × (counters.old ≡ zero_counters 256) }
    ensures told { result ≡ vote_of es.now }
    ensures kept { counters.new ≡ counters.old }
{
    count_each(es, counters);
    let v = read_vote(es, counters);
    clear_each(es, counters);
    v
}

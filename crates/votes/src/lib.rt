// The two votes, exported to C so that they can be measured alone; not part of libqmtd.a.
#![tactic(auto)]

ghost use Rattle.std.specs.Prelude.{◌≡◌, ◌+◌, ◌/◌, ◌%◌, ◌≤◌, length};
ghost use Rattle.model.specs.Symbols.{choose};
ghost use Rattle.model.specs.Calls.{counters_fit};
ghost use Rattle.model.specs.Vote.{zero_counters};
ghost use Rattle.votes.specs.Checksum.{packed, sum_of_votes, checksum};

use vote::Vote;

// What a vote tells, in one number.
fn packed_of(v: Vote<u8>) -> u32
    ensures { result ≡ packed v }
{
    (v.leader as u32)
        + 256 * (v.lead as u32)
        + 65536 * (v.next as u32)
        + 16777216 * (v.zeros as u32)
}

// The sum with one vote more.
fn added(sum: u32, v: Vote<u8>) -> u32
    ensures { result ≡ (sum + packed v) % 4294967296 }
{
    std::num::wrapping_add_u32(sum, packed_of(v))
}

// The votes of all lists pair by pair, added.
fn sum_pairs(lists: &[u8], each: usize) -> u32
    requires { (2 ≤ each) × (each ≤ 33) }
    ensures { result ≡ sum_of_votes each lists.now (length lists.now / each) }
{
    let mut sum: u32 = 0;
    for es in lists.chunks_exact(each) {
        sum = added(sum, vote::vote_over(es));
    }
    sum
}

// The votes of all lists by counters, added.
fn sum_counted(lists: &[u8], each: usize, counters: &mut [u8]) -> u32
    requires { (2 ≤ each) × (each ≤ 33) × (counters.old ≡ zero_counters 256) }
    ensures told { result ≡ sum_of_votes each lists.now (length lists.now / each) }
    ensures kept { counters.new ≡ counters.old }
{
    let mut sum: u32 = 0;
    for es in lists.chunks_exact(each) {
        sum = added(sum, counters::vote_counted(es, counters));
    }
    sum
}

// A round of votes pair by pair.
#[tactic(auto, using(theory::specs::Answers::within_facts), unfolding(crate::specs::Checksum::checksum))]
#[unsafe(no_mangle)]
pub extern "C" fn qmtd_bench_votes_pairs(lists: &[u8], each: u32) -> u32
    ensures { result ≡ checksum each lists.now }
{
    let size = each as usize;
    if !limits::within(2, 33, size) {
        return 0;
    }
    sum_pairs(lists, size)
}

// A round of votes by 256 lent counters, all zero before and after; 0 where they are not.
#[tactic(auto, using(theory::specs::Answers::within_facts, theory::specs::Counters::fit_zero), unfolding(crate::specs::Checksum::checksum))]
#[unsafe(no_mangle)]
pub extern "C" fn qmtd_bench_votes_counted(lists: &[u8], each: u32, counters: &mut [u8]) -> u32
    ensures told { result ≡ choose (counters_fit counters.old) (checksum each lists.now) 0 }
    ensures kept { counters.new ≡ counters.old }
{
    let size = each as usize;
    if !lengths::counters_fit(counters) {
        return 0;
    }
    if !limits::within(2, 33, size) {
        return 0;
    }
    sum_counted(lists, size, counters)
}

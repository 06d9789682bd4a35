// Why a data symbol is left or would be changed: the ground, the vote, and the estimates that equal the leader, as bits.
#![tactic(auto)]

ghost use Rattle.std.specs.Prelude.{◌≡◌, true, ◌-◌, ◌<◌, ◌≤◌, eqb, ltb, length, get_or};
ghost use Rattle.model.specs.Code.{data_count};
ghost use Rattle.model.specs.Symbols.{choose, Below};
ghost use Rattle.model.specs.Vote.{equal_bits};
ghost use Rattle.params.specs.Codes.{code_by};
ghost use Rattle.checks.specs.Places.{AtTable};
ghost use Rattle.checks.specs.Estimates.{estimates_at};
ghost use Rattle.ones.specs.Pages.{InBits};
ghost use Rattle.grounds.specs.Told.{told_of};

use params::Params;
use vote::{Estimate, Vote};

// What explain tells of a data symbol.
#[derive(Clone, Copy)]
pub struct Told {
    pub ground_number: u32,
    pub leader: u32,
    pub lead: u32,
    pub next: u32,
    pub bits: u64,
}

// The bits of the estimates that are h, from the lowest: the last estimate first, each doubling what stands.
pub fn bits_of<E: Estimate>(es: &[E], h: E) -> u64
    requires { length es.now ≤ 33 }
    ensures { result ≡ equal_bits (E.numbers es.now) (E.number h) }
{
    let mut bits: u64 = 0;
    for i in (0..es.len()).rev() {
        bits = bits + bits + (es[i].equal(h).widened() as u64);
    }
    bits
}

// The ground at a threshold, by the vote.
fn ground_of<E: Estimate>(threshold: u32, v: Vote<E>) -> u32
    requires { E.number v.next ≤ E.number v.lead }
    ensures { result ≡ choose (ltb threshold (E.number v.lead - E.number v.next)) (choose (eqb (E.number v.leader) 0) 2 3) 1 }
{
    if v.lead.widened() - v.next.widened() <= threshold {
        return 1;
    }
    if v.leader.widened() == 0 {
        return 2;
    }
    3
}

// What explain tells, by the vote and the bits of the estimates that are its leader.
fn told_by<E: Estimate>(threshold: u32, v: Vote<E>, bits: u64) -> Told
    requires { E.number v.next ≤ E.number v.lead }
    ensures { result ≡ record {
      ground_number = choose (ltb threshold (E.number v.lead - E.number v.next)) (choose (eqb (E.number v.leader) 0) 2 3) 1;
      leader = E.number v.leader;
      lead = E.number v.lead;
      next = E.number v.next;
      bits = bits;
    } }
{
    Told {
        ground_number: ground_of(threshold, v),
        leader: v.leader.widened(),
        lead: v.lead.widened(),
        next: v.next.widened(),
        bits,
    }
}

// What explain tells of estimates, pair by pair.
pub fn tell_pairs<E: Estimate>(es: &[E], threshold: u32) -> Told
    requires { (2 ≤ length es.now) × (length es.now ≤ 33) }
    ensures { result ≡ told_of threshold (E.numbers es.now) }
{
    let v = vote::vote_over(es);
    told_by(threshold, v, bits_of(es, v.leader))
}

// The same. On bit pages the vote is by the ones of the word that holds them, and those that equal its leader are
// the word or the rest of its bits.
fn tell(bits: bool, es: &[u8], threshold: u32) -> Told
    requires { (2 ≤ length es.now) × (length es.now ≤ 33) × (bits ≡ true → Below 2 es.now) }
    ensures { result ≡ told_of threshold es.now }
{
    if bits {
        let n = es.len();
        let word = bits_of(es, 1);
        let v = ones::vote_in(n, word);
        return told_by(threshold, v, ones::equal_in(n, word, v.leader));
    }
    tell_pairs(es, threshold)
}

// What explain tells of a data symbol, from S and D.
pub fn tell_symbol(
    code: Params,
    positions: &[u16],
    symbol: usize,
    threshold: u32,
    s: &[u8],
    d: &[u8],
) -> Told
    requires { AtTable (code_by code positions.now) s.now
        × (length d.now ≡ data_count (code_by code positions.now))
        × (symbol < data_count (code_by code positions.now))
        × InBits code.bits (get_or d.now symbol 0) s.now }
    ensures { result ≡ told_of threshold (estimates_at (code_by code positions.now) symbol (get_or d.now symbol 0) s.now) }
{
    let n = params::checks_each(code, positions.len()) + 1;
    let mut es = [0u8; 33];
    checks::gather_symbol(code, positions, symbol, s, d, &mut es[..n]);
    tell(code.bits, &es[..n], threshold)
}

// The vote on bits: the estimates of a data symbol gathered in one machine word, whose ones decide.
#![tactic(auto)]

ghost use Rattle.std.specs.Prelude.{◌≡◌, ◌-◌, ◌^◌, ◌<◌, ◌≤◌, eqb};
ghost use Rattle.std.specs.Int.Count.{ones};
ghost use Rattle.model.specs.Decoder.{is_change};
ghost use Rattle.model.specs.Symbols.{choose, bit, Below};
ghost use Rattle.model.specs.Vote.{gathered, ones_decide};
ghost use Rattle.vote.specs.Others.{others};
ghost use Rattle.checks.specs.Checks.{AtChecks, estimates_by};
ghost use Rattle.ones.specs.Words.{vote_in};

use params::Params;
use vote::Vote;

// The estimates of symbol j of a branch, whose run of positions is lent, in one word: its own difference is bit 0, then come the
// syndrome's symbols at its checks in table order. The last check is read first, and each bit doubles what stands.
fn gather(code: Params, positions: &[u16], j: usize, own: u8, s: &[u8]) -> u64
    requires { AtChecks code.k positions.now s.now × (j < code.k) × (own < 2) × Below 2 s.now }
    ensures { result ≡ gathered (estimates_by code.k positions.now j own s.now) }
{
    let mut word: u64 = 0;
    let mut i = positions.len();
    // kept: the library's `rev` hands out an Option of a reference at each turn: see codeword::add_rows
    while 0 < i {
        i -= 1;
        let c = checks::check_of(code.k, j, positions[i]);
        word = word + word + (s[c] as u64);
    }
    word + word + (own as u64)
}

// 1 where the ones of a word of n bits, less its zeros, are above the threshold, else 0.
#[tactic(auto, using(crate::specs::Words::decide_no, crate::specs::Words::decide_yes))]
fn decide(n: usize, word: u64, threshold: u8) -> u8
    requires { (n ≤ 33) × (ones word ≤ n) }
    ensures { result ≡ bit (ones_decide threshold n word) }
{
    let set = u64::count_ones(word) as usize;
    let clear = n - set;
    if set <= clear + (threshold as usize) {
        return 0;
    }
    1
}

// 1 where the estimates of symbol j of a branch are a change at a threshold, else 0.
pub fn decided_at(code: Params, positions: &[u16], j: usize, threshold: u8, own: u8, s: &[u8]) -> u8
    requires { AtChecks code.k positions.now s.now × (j < code.k) × (own < 2) × Below 2 s.now }
    ensures { result ≡ bit (is_change threshold (estimates_by code.k positions.now j own s.now)) }
{
    let word = gather(code, positions, j, own, s);
    decide(positions.len() + 1, word, threshold)
}

// The largest count of a value other than 0 among the estimates of symbol j of a branch: on bits that value is 1, and the ones of the word are its count.
pub fn ones_at(code: Params, positions: &[u16], j: usize, own: u8, s: &[u8]) -> u8
    requires { AtChecks code.k positions.now s.now × (j < code.k) × (own < 2) × Below 2 s.now }
    ensures { result ≡ others (estimates_by code.k positions.now j own s.now) }
{
    u64::count_ones(gather(code, positions, j, own, s)) as u8
}

// What the vote tells, by the ones of a word of n bits: 1 leads where they are more than the zeros, else 0.
#[tactic(auto, using(crate::specs::Words::vote_ones, crate::specs::Words::vote_zeros))]
pub fn vote_in(n: usize, word: u64) -> Vote<u8>
    requires { (n ≤ 33) × (ones word ≤ n) }
    ensures { result ≡ vote_in n word }
{
    let set = u64::count_ones(word) as u8;
    let clear = (n as u8) - set;
    if clear < set {
        return Vote {
            leader: 1,
            lead: set,
            next: clear,
            zeros: clear,
        };
    }
    Vote {
        leader: 0,
        lead: clear,
        next: set,
        zeros: clear,
    }
}

// The word of n bits that are all 1, by doubling: some processors have no shift of 64 bits by a number.
fn all_bits(n: usize) -> u64
    requires { n ≤ 33 }
    ensures { result ≡ 2 ^ n - 1 }
{
    let mut all: u64 = 0;
    for _i in 0..n {
        all = all + all + 1;
    }
    all
}

// The bits of a word of n bits that are h, where h is 0 or 1, as ones: the word itself, or the rest of its bits.
pub fn equal_in(n: usize, word: u64, h: u8) -> u64
    requires { (n ≤ 33) × (word < 2 ^ n) }
    ensures { result ≡ choose (eqb h 1) word (2 ^ n - 1 - word) }
{
    if h == 1 {
        return word;
    }
    all_bits(n) - word
}

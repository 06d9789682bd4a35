// The vote over estimates.
#![tactic(auto)]

ghost use Rattle.std.specs.Prelude.{◌≡◌, ◌&&◌, ◌||◌, ◌+◌, ◌<◌, ◌≤◌, max, eqb, ltb, length};
ghost use Rattle.model.specs.Symbols.{choose, same, count};
ghost use Rattle.model.specs.Vote.{goes_before, leader, other_count};
ghost use Rattle.vote.specs.Leading.{lead_of, vote_of, lead_numbers, vote_numbers};

use any_symbols::Symbol;

// An estimate, of one byte or of four. A count is of the same type, so that a straight run counts as many estimates at once as fit.
pub trait Estimate: Symbol {
    // A byte as a count.
    fn counted(n: u8) -> Self
        ensures { Self.number result ≡ n };

    // An estimate as a number of four bytes.
    fn widened(self) -> u32
        ensures { result ≡ Self.number self };

    // The sum of two counts.
    fn plus(self, n: Self) -> Self
        requires { Self.number self + Self.number n ≤ 255 }
        ensures { Self.number result ≡ Self.number self + Self.number n };

    fn is(self, other: Self) -> bool
        ensures { result ≡ eqb (Self.number self) (Self.number other) };

    fn is_below(self, other: Self) -> bool
        ensures { result ≡ ltb (Self.number self) (Self.number other) };

    // 1 where two estimates are equal, else 0.
    fn equal(self, other: Self) -> Self
        ensures { (Self.number result ≡ same (Self.number self) (Self.number other)) × (Self.number result ≤ 1) };
}

impl Estimate for u8 {
    fn counted(n: u8) -> u8 {
        n
    }

    fn widened(self) -> u32 {
        u32::from(self)
    }

    fn plus(self, n: u8) -> u8 {
        self + n
    }

    fn is(self, other: u8) -> bool {
        self == other
    }

    fn is_below(self, other: u8) -> bool {
        self < other
    }

    #[tactic(auto, unfolding(model::specs::Symbols::same))]
    fn equal(self, other: u8) -> u8 {
        if self == other { 1 } else { 0 }
    }
}

impl Estimate for u32 {
    fn counted(n: u8) -> u32 {
        u32::from(n)
    }

    fn widened(self) -> u32 {
        self
    }

    fn plus(self, n: u32) -> u32 {
        self + n
    }

    fn is(self, other: u32) -> bool {
        self == other
    }

    fn is_below(self, other: u32) -> bool {
        self < other
    }

    #[tactic(auto, unfolding(model::specs::Symbols::same))]
    fn equal(self, other: u32) -> u32 {
        if self == other { 1 } else { 0 }
    }
}

// How often v stands among the estimates.
pub fn count_equal<E: Estimate>(es: &[E], v: E) -> E
    requires { length es.now ≤ 255 }
    ensures { E.number result ≡ count (E.number v) (E.numbers es.now) }
{
    let mut n = E::counted(0);
    for e in es {
        n = n.plus(v.equal(*e));
    }
    n
}

// A value, and how many estimates have it.
#[derive(Clone, Copy)]
pub struct Commonest<E> {
    pub value: E,
    pub count: E,
}

// The first of the leader so far and a candidate with its count n: the commoner, in a tie the smaller.
pub fn first_of<E: Estimate>(best: Commonest<E>, a: E, n: E) -> Commonest<E>
    ensures { lead_numbers E.number result
        ≡ choose (ltb (E.number best.count) (E.number n) || (eqb (E.number best.count) (E.number n) && ltb (E.number a) (E.number best.value)))
        (record { value = E.number a; count = E.number n }) (lead_numbers E.number best) }
{
    if n.is_below(best.count) {
        return best;
    }
    if best.count.is_below(n) {
        return Commonest { value: a, count: n };
    }
    if a.is_below(best.value) {
        return Commonest { value: a, count: n };
    }
    best
}

// The first of the leader so far and one candidate, which is counted unless it is that leader.
fn first_in<E: Estimate>(es: &[E], best: Commonest<E>, a: E) -> Commonest<E>
    requires { (length es.now ≤ 255) × (lead_numbers E.number best ≡ lead_of (E.numbers es.now) (E.number best.value)) }
    ensures { lead_numbers E.number result
        ≡ lead_of (E.numbers es.now) (choose (goes_before (E.numbers es.now) (E.number a) (E.number best.value)) (E.number a) (E.number best.value)) }
{
    if a.is(best.value) {
        return best;
    }
    first_of(best, a, count_equal(es, a))
}

// The leader of the estimates, and its count. One that is more than half of them is found without a look at the rest: no other value
// stands as often.
pub fn leader_of<E: Estimate>(es: &[E]) -> Commonest<E>
    requires { (0 < length es.now) × (length es.now ≤ 255) }
    ensures { lead_numbers E.number result ≡ lead_of (E.numbers es.now) (leader (E.numbers es.now)) }
{
    let first = es[0];
    let mut best = Commonest {
        value: first,
        count: count_equal(es, first),
    };
    for a in es {
        let m = best.count.widened() as usize;
        if es.len() < m + m {
            return best;
        }
        best = first_in(es, best, *a);
    }
    best
}

// The larger of m and the count of a value, which counts 0 where the value is h.
pub fn raised<E: Estimate>(m: E, h: E, value: E, count: E) -> E
    ensures { E.number result ≡ max (E.number m) (choose (eqb (E.number value) (E.number h)) 0 (E.number count)) }
{
    if value.is(h) {
        return m;
    }
    if m.is_below(count) { count } else { m }
}

// The larger of m and the count of one candidate, which is counted unless it is h.
fn larger_other<E: Estimate>(es: &[E], h: E, m: E, a: E) -> E
    requires { length es.now ≤ 255 }
    ensures { E.number result ≡ max (E.number m) (choose (eqb (E.number a) (E.number h)) 0 (count (E.number a) (E.numbers es.now))) }
{
    if a.is(h) {
        return m;
    }
    raised(m, h, a, count_equal(es, a))
}

// The largest count among the values other than h.
pub fn next_count<E: Estimate>(es: &[E], h: E) -> E
    requires { length es.now ≤ 255 }
    ensures { E.number result ≡ other_count (E.numbers es.now) (E.number h) (E.numbers es.now) }
{
    let mut m = E::counted(0);
    for a in es {
        m = larger_other(es, h, m, *a);
    }
    m
}

// What the vote tells: the leader, its count, the largest count among the other values, and the zeros.
#[derive(Clone, Copy)]
pub struct Vote<E> {
    pub leader: E,
    pub lead: E,
    pub next: E,
    pub zeros: E,
}

// The vote over 2 to 33 estimates: each is a candidate, and its count is taken over all of them.
pub fn vote_over<E: Estimate>(es: &[E]) -> Vote<E>
    requires { (2 ≤ length es.now) × (length es.now ≤ 33) }
    ensures { vote_numbers E.number result ≡ vote_of (E.numbers es.now) }
{
    let best = leader_of(es);
    let h = best.value;
    let m = best.count;
    let next = next_count(es, h);
    let zeros = count_equal(es, E::counted(0));
    Vote {
        leader: h,
        lead: m,
        next,
        zeros,
    }
}

// The largest count of a value other than 0, by a counter for each value.
pub fn most_other(es: &[u8]) -> u8
    requires { length es.now ≤ 33 }
    ensures { result ≡ other_count es.now 0 es.now }
{
    let mut counters = [0u8; 256];
    let mut most: u8 = 0;
    for v in es {
        let e = *v as usize;
        let n = counters[e] + 1;
        counters[e] = n;
        most = raised(most, 0, *v, n);
    }
    most
}

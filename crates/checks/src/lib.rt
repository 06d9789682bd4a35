// A data symbol's place and its checks: which they are, the estimates that the syndrome gives there, and a subtraction at them.
// A data symbol is symbol j of a branch, whose run of positions is lent, or a number among all data symbols.
#![tactic(auto)]

ghost use Rattle.std.specs.Prelude.{◌≡◌, ◌+◌, ◌-◌, ◌%◌, ◌<◌, ◌≤◌, length, get_or};
ghost use Rattle.model.specs.Code.{data_count, checks_each, checks_by};
ghost use Rattle.model.specs.Symbols.{Below, subtract_at};
ghost use Rattle.params.specs.Codes.{code_by};
ghost use Rattle.checks.specs.Checks.{AtChecks, estimates_by};
ghost use Rattle.checks.specs.Places.{AtTable, along_place, onward_place};
ghost use Rattle.checks.specs.Numbers.{place_by};
ghost use Rattle.checks.specs.Estimates.{estimates_at};

use params::Params;

// Where a data symbol stands: its number; its branch, which is the data symbols from `start` to before `end`; and the run of that
// branch, which is the positions of the table from `first` to before `last`.
#[derive(Clone, Copy)]
pub struct Place {
    pub symbol: usize,
    pub start: usize,
    pub end: usize,
    pub first: usize,
    pub last: usize,
}

impl Place {
    // Data symbol 0, of branches of k symbols and a table with this many positions a run.
    pub fn opening(k: usize, each: usize) -> Self
        ensures { result ≡ record { symbol = 0; start = 0; end = k; first = 0; last = each } }
    {
        Place {
            symbol: 0,
            start: 0,
            end: k,
            first: 0,
            last: each,
        }
    }

    // The next symbol number, in the same branch.
    pub fn along(self) -> Self
        requires { self.symbol < 4096 }
        ensures { result ≡ along_place self }
    {
        self.at(self.symbol + 1)
    }

    // Symbol number j, in the same branch.
    pub fn at(self, j: usize) -> Self
        ensures { result ≡ record { symbol = j; start = self.start; end = self.end; first = self.first; last = self.last } }
    {
        Place { symbol: j, ..self }
    }

    // The same symbol number, in the next branch.
    pub fn onward(self, k: usize) -> Self
        requires { (k ≤ 4096) × (self.end ≤ 8192) × (self.first ≤ self.last) × (self.last ≤ 256) }
        ensures { result ≡ onward_place k self }
    {
        Place {
            symbol: self.symbol,
            start: self.end,
            end: self.end + k,
            first: self.last,
            last: self.last + (self.last - self.first),
        }
    }
}

// The place of a data symbol, found branch by branch: no division is needed.
#[tactic(auto, using(crate::specs::Numbers::walked_none, crate::specs::Numbers::walked_on, crate::specs::Numbers::walked_few))]
pub fn place_of(code: Params, each: usize, symbol: usize) -> Place
    requires { (1 ≤ code.k) × (code.k ≤ 4096) × (each ≤ 256) × (symbol < 4096) }
    ensures { result ≡ place_by code.k each symbol }
{
    let k = code.k;
    let mut start = 0;
    let mut first = 0;
    // kept: the number of turns is the quotient that is looked for
    while start + k <= symbol {
        start += k;
        first += each;
    }
    Place {
        symbol,
        start,
        end: start + k,
        first,
        last: first + each,
    }
}

// a modulo k, by one comparison.
fn wrapped(k: usize, a: usize) -> usize
    requires { a < k + k }
    ensures { result ≡ a % k }
{
    if a < k { a } else { a - k }
}

// The check of symbol j of a branch by position p.
pub fn check_of(k: usize, j: usize, p: u16) -> usize
    requires { (k ≤ 4096) × (j < k) × (p < k) }
    ensures { result ≡ (j + p) % k }
{
    wrapped(k, j + (p as usize))
}

// The symbol of a branch that has check c by position p.
pub fn symbol_of(k: usize, c: usize, p: u16) -> usize
    requires { (k ≤ 4096) × (c < k) × (p < k) }
    ensures { result ≡ (c + (k - p)) % k }
{
    wrapped(k, c + (k - (p as usize)))
}

// The estimates of data symbol j: its own difference, and the syndrome at each of its checks.
pub fn gather(code: Params, positions: &[u16], j: usize, own: u8, s: &[u8], es: &mut [u8])
    requires { AtChecks code.k positions.now s.now
        × (j < code.k)
        × (length es.old ≡ length positions.now + 1) }
    ensures { es.new ≡ estimates_by code.k positions.now j own s.now }
{
    es[0] = own;
    for (i, p) in positions.iter().enumerate() {
        es[i + 1] = s[check_of(code.k, j, *p)];
    }
}

// The estimates of a data symbol by its number, from S and D.
pub fn gather_symbol(
    code: Params,
    positions: &[u16],
    symbol: usize,
    s: &[u8],
    d: &[u8],
    es: &mut [u8],
)
    requires { AtTable (code_by code positions.now) s.now
        × (length d.now ≡ data_count (code_by code positions.now))
        × (symbol < data_count (code_by code positions.now))
        × (length es.old ≡ checks_each (code_by code positions.now) + 1) }
    ensures { es.new ≡ estimates_at (code_by code positions.now) symbol (get_or d.now symbol 0) s.now }
{
    let place = place_of(code, params::checks_each(code, positions.len()), symbol);
    let first = place.first;
    let last = place.last;
    let index = symbol - place.start;
    gather(code, &positions[first..last], index, d[symbol], s, es);
}

// h subtracted from the syndrome at each check of data symbol j.
pub fn subtract_at(code: Params, positions: &[u16], j: usize, h: u8, s: &mut [u8])
    requires { AtChecks code.k positions.now s.old
        × (j < code.k)
        × (code.q ≤ 256)
        × (h < code.q)
        × Below code.q s.old }
    ensures { s.new ≡ subtract_at code.q h (checks_by code.k positions.now j) s.old }
{
    for p in positions {
        let c = check_of(code.k, j, *p);
        s[c] = symbols::sub_mod(code.q, s[c], h);
    }
}

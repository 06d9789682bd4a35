// The margins of a decode as the C calls hand them back: four bytes for each, low byte first, in two's complement.
#![tactic(auto)]

ghost use Rattle.std.specs.Prelude.{◌≡◌, List, map, ℕ, ◌*◌, ◌≤◌, pos, ◌-ℤ◌, length};
ghost use Rattle.model.specs.Bytes.{twos, margin_bytes};
ghost use Rattle.model.specs.Code.{data_count, checks_each};
ghost use Rattle.model.specs.Decoder.{state_by, margins_of};
ghost use Rattle.model.specs.Symbols.{Below, tabulate};
ghost use Rattle.params.specs.Codes.{code_by};
ghost use Rattle.checks.specs.Places.{AtTable, InBranch, branch_of};
ghost use Rattle.ones.specs.Pages.{AllBits};
ghost use Rattle.zeros.specs.Counts.{zero_counts};
ghost use Rattle.margins.specs.Margins.{Left};
ghost use Rattle.firm_symbols.specs.Phases.{zeros_margin};
ghost use Rattle.margin_bytes.specs.Phases.{HeldBytes};

use checks::Place;
use params::Params;

// A signed number in two's complement.
pub fn twos_of(x: i32) -> u32
    ensures { result ≡ twos x }
{
    x.cast_unsigned()
}

// Four bytes for the margin of every data symbol, one by one, branch by branch, from S and D and the zeros at the checks of each.
fn write_each(
    bits: bool,
    code: Params,
    positions: &[u16],
    zeros: &[u8],
    s: &[u8],
    d: &[u8],
    out: &mut [u8],
)
    requires { AtTable (code_by code positions.now) s.now
        × (zeros.now ≡ zero_counts (code_by code positions.now) s.now)
        × (length d.now ≡ data_count (code_by code positions.now))
        × (length out.old ≡ 4 * data_count (code_by code positions.now))
        × AllBits bits s.now d.now }
    ensures { (r : List ℕ) → out.new ≡ margin_bytes (margins_of (code_by code positions.now) (state_by r s.now d.now)) }
{
    let mut place = Place::opening(code.k, params::checks_each(code, positions.len()));
    // Kept: a place goes from branch to branch; a `for` over branches would carry it along all the same.
    while place.symbol < d.len() {
        let first = place.first;
        let last = place.last;
        let run = &positions[first..last];
        for j in place.symbol..place.end {
            let index = j - place.start;
            let m = margins::margin_at(bits, code, run, index, d[j], zeros[j], s);
            number_bytes::put_word(out, 4 * j, twos_of(m));
        }
        place = place.at(place.end).onward(code.k);
    }
}

// Four bytes for the margin that every data symbol has where at most one of its estimates is not 0, by the zeros among them, in one
// straight run.
pub fn write_by_zeros(each: u8, zeros: &[u8], d: &[u8], out: &mut [u8])
    requires { (each ≤ 32)
        × (length d.now ≤ 4096)
        × (length zeros.now ≡ length d.now)
        × Below 33 zeros.now
        × (length out.old ≡ 4 * length d.now) }
    ensures { out.new ≡ margin_bytes (map (zeros_margin each zeros.now d.now) (tabulate (length d.now) (λ i. i))) }
{
    for (i, own) in d.iter().enumerate() {
        let m = firm_symbols::margin_by_zeros(each, margins::zeros_with(*own, zeros[i]));
        number_bytes::put_word(out, 4 * i, twos_of(m));
    }
}

// The margins of the data symbols of a branch, from one on and before the end, that are not firm: they have fewer zeros among their estimates
// than checks.
fn write_doubtful(
    bits: bool,
    each: u8,
    code: Params,
    positions: &[u16],
    place: Place,
    end: usize,
    zeros: &[u8],
    s: &[u8],
    d: &[u8],
    out: &mut [u8],
)
    requires { AtTable (code_by code positions.now) s.now
        × (zeros.now ≡ zero_counts (code_by code positions.now) s.now)
        × (length d.now ≡ data_count (code_by code positions.now))
        × (each ≡ checks_each (code_by code positions.now))
        × InBranch (code_by code positions.now) (branch_of place) place
        × (place.symbol ≤ end)
        × (end ≤ place.end)
        × HeldBytes (code_by code positions.now) zeros.now s.now d.now out.old place.symbol
        × AllBits bits s.now d.now }
    ensures { HeldBytes (code_by code positions.now) zeros.now s.now d.now out.new end }
{
    let first = place.first;
    let last = place.last;
    let run = &positions[first..last];
    for j in place.symbol..end {
        let own = d[j];
        let n = margins::zeros_with(own, zeros[j]);
        if n < each {
            let m = margins::margin_counted(bits, code, run, j - place.start, own, n, s);
            number_bytes::put_word(out, 4 * j, twos_of(m));
        }
    }
}

// The margins of all data symbols that are not firm, where the others are written. Blocks of firm symbols are passed over.
fn write_others(
    bits: bool,
    code: Params,
    positions: &[u16],
    zeros: &[u8],
    s: &[u8],
    d: &[u8],
    out: &mut [u8],
)
    requires { AtTable (code_by code positions.now) s.now
        × (zeros.now ≡ zero_counts (code_by code positions.now) s.now)
        × (length d.now ≡ data_count (code_by code positions.now))
        × HeldBytes (code_by code positions.now) zeros.now s.now d.now out.old 0
        × AllBits bits s.now d.now }
    ensures { (r : List ℕ) → out.new ≡ margin_bytes (margins_of (code_by code positions.now) (state_by r s.now d.now)) }
{
    let checks = params::checks_each(code, positions.len());
    let each = checks as u8;
    let mut place = Place::opening(code.k, checks);
    // Kept, both: a place goes from branch to branch, and within one past as many firm symbols as there are in a row.
    while place.symbol < d.len() {
        while place.symbol < place.end {
            let from = firm_symbols::past_firm(each, zeros, d, place.symbol, place.end);
            let end = firm_symbols::block_end(from, place.end);
            write_doubtful(
                bits,
                each,
                code,
                positions,
                place.at(from),
                end,
                zeros,
                s,
                d,
                out,
            );
            place = place.at(end);
        }
        place = place.onward(code.k);
    }
}

// Four bytes for the margin of every data symbol. On a page that is not short they are written in two phases, since most symbols of a lightly
// damaged page are firm.
fn write_margins(
    bits: bool,
    code: Params,
    positions: &[u16],
    zeros: &[u8],
    s: &[u8],
    d: &[u8],
    out: &mut [u8],
)
    requires { AtTable (code_by code positions.now) s.now
        × (zeros.now ≡ zero_counts (code_by code positions.now) s.now)
        × (length d.now ≡ data_count (code_by code positions.now))
        × (length out.old ≡ 4 * data_count (code_by code positions.now))
        × AllBits bits s.now d.now }
    ensures { (r : List ℕ) → out.new ≡ margin_bytes (margins_of (code_by code positions.now) (state_by r s.now d.now)) }
{
    if d.len() < 64 {
        write_each(bits, code, positions, zeros, s, d, out);
    } else {
        write_by_zeros(
            params::checks_each(code, positions.len()) as u8,
            zeros,
            d,
            out,
        );
        write_others(bits, code, positions, zeros, s, d, out);
    }
}

// Four bytes for the margin of each of count data symbols where S and D are 0: all its n estimates are.
pub fn write_firm(n: u8, count: usize, out: &mut [u8])
    requires { (n ≤ 33) × (count ≤ 4096) × (length out.old ≡ 4 * count) }
    ensures { out.new ≡ margin_bytes (map (λ j. pos n -ℤ pos 0) (tabulate count (λ j. j))) }
{
    for i in 0..count {
        number_bytes::put_word(out, 4 * i, twos_of(margins::margin_of(n, 0)));
    }
}

// The margins that a decode hands back, from what it leaves: `end` is the distance at its end.
pub fn put_margins(
    bits: bool,
    code: Params,
    positions: &[u16],
    end: u32,
    zeros: &[u8],
    s: &[u8],
    d: &[u8],
    out: &mut [u8],
)
    requires { Left (code_by code positions.now) s.now d.now zeros.now end
        × (length out.old ≡ 4 * data_count (code_by code positions.now))
        × AllBits bits s.now d.now }
    ensures { (r : List ℕ) → out.new ≡ margin_bytes (margins_of (code_by code positions.now) (state_by r s.now d.now)) }
{
    let n = d.len();
    if end == 0 {
        let each = params::checks_each(code, positions.len());
        write_firm((each + 1) as u8, n, out);
    } else {
        write_margins(bits, code, positions, &zeros[..n], s, d, out);
    }
}

// The margins of a decode on wide symbols as the C calls hand them back: four bytes for each, low byte first, in two's complement.
#![tactic(auto)]

ghost use Rattle.std.specs.Prelude.{◌≡◌, List, ℕ, ◌*◌, ◌≤◌, length};
ghost use Rattle.model.specs.Bytes.{margin_bytes};
ghost use Rattle.model.specs.Code.{data_count, checks_each};
ghost use Rattle.model.specs.Decoder.{state_by, margins_of};
ghost use Rattle.checks.specs.Places.{AtTable, InBranch, branch_of};
ghost use Rattle.zeros.specs.Counts.{zero_counts};
ghost use Rattle.margins.specs.Margins.{Left};
ghost use Rattle.margin_bytes.specs.Phases.{HeldBytes};
ghost use Rattle.wide.specs.Marks.{marks_of};
ghost use Rattle.wide_symbols.specs.Codes.{wide_code_by};

use checks::Place;
use params::Params;
use wide_symbols::WideSymbol;

// The margins of the data symbols of a branch, from one on and before the end, that are not firm: they have fewer zeros among their estimates
// than checks.
fn write_doubtful<S: WideSymbol>(
    each: u8,
    code: Params,
    positions: &[u16],
    place: Place,
    end: usize,
    zeros: &[u8],
    s: &[S],
    d: &[S],
    out: &mut [u8],
)
    requires { AtTable (wide_code_by S.profile code positions.now) (S.numbers s.now)
        × (zeros.now ≡ zero_counts (wide_code_by S.profile code positions.now) (S.numbers s.now))
        × (length d.now ≡ data_count (wide_code_by S.profile code positions.now))
        × (each ≡ checks_each (wide_code_by S.profile code positions.now))
        × InBranch (wide_code_by S.profile code positions.now) (branch_of place) place
        × (place.symbol ≤ end)
        × (end ≤ place.end)
        × HeldBytes (wide_code_by S.profile code positions.now) zeros.now (S.numbers s.now) (S.numbers d.now) out.old place.symbol }
    ensures { HeldBytes (wide_code_by S.profile code positions.now) zeros.now (S.numbers s.now) (S.numbers d.now) out.new end }
{
    let run = &positions[place.first..place.last];
    for j in place.symbol..end {
        let own = d[j];
        let n = zeros[j] + wide_symbols::zeros_of(own);
        if n < each {
            let m = wide_margins::margin_counted(code, run, j - place.start, own, n, s);
            number_bytes::put_word(out, 4 * j, margin_bytes::twos_of(m));
        }
    }
}

// The margins of all data symbols that are not firm, where the others are written. Blocks of firm symbols are passed over, by the marks of D.
fn write_others<S: WideSymbol>(
    code: Params,
    positions: &[u16],
    zeros: &[u8],
    marks: &[u8],
    s: &[S],
    d: &[S],
    out: &mut [u8],
)
    requires { AtTable (wide_code_by S.profile code positions.now) (S.numbers s.now)
        × (zeros.now ≡ zero_counts (wide_code_by S.profile code positions.now) (S.numbers s.now))
        × (length d.now ≡ data_count (wide_code_by S.profile code positions.now))
        × HeldBytes (wide_code_by S.profile code positions.now) zeros.now (S.numbers s.now) (S.numbers d.now) out.old 0
        × (marks.now ≡ marks_of (S.numbers d.now)) }
    ensures { (r : List ℕ) → out.new ≡ margin_bytes (margins_of (wide_code_by S.profile code positions.now) (state_by r (S.numbers s.now) (S.numbers d.now))) }
{
    let checks = params::checks_each(code, positions.len());
    let each = checks as u8;
    let mut place = Place::opening(code.k, checks);
    // Kept, both: a place goes from branch to branch, and within one past as many firm symbols as there are in a row.
    while place.symbol < d.len() {
        while place.symbol < place.end {
            let from = firm_symbols::past_firm(each, zeros, marks, place.symbol, place.end);
            let end = firm_symbols::block_end(from, place.end);
            write_doubtful(each, code, positions, place.at(from), end, zeros, s, d, out);
            place = place.at(end);
        }
        place = place.onward(code.k);
    }
}

// Four bytes for the margin of every data symbol, in two phases, since most symbols of a lightly damaged page are firm: first by the zeros
// alone, then those of the others. The marks of D are written over `marks`, as the first phase needs of D only which symbols are 0.
fn write_margins<S: WideSymbol>(
    code: Params,
    positions: &[u16],
    zeros: &[u8],
    marks: &mut [u8],
    s: &[S],
    d: &[S],
    out: &mut [u8],
)
    requires { AtTable (wide_code_by S.profile code positions.now) (S.numbers s.now)
        × (zeros.now ≡ zero_counts (wide_code_by S.profile code positions.now) (S.numbers s.now))
        × (length d.now ≡ data_count (wide_code_by S.profile code positions.now))
        × (length out.old ≡ 4 * data_count (wide_code_by S.profile code positions.now))
        × (length marks.old ≡ data_count (wide_code_by S.profile code positions.now)) }
    ensures { (r : List ℕ) → out.new ≡ margin_bytes (margins_of (wide_code_by S.profile code positions.now) (state_by r (S.numbers s.now) (S.numbers d.now))) }
{
    wide_symbols::mark_into(marks, d);
    margin_bytes::write_by_zeros(
        params::checks_each(code, positions.len()) as u8,
        zeros,
        marks,
        out,
    );
    write_others(code, positions, zeros, marks, s, d, out);
}

// The margins that a decode hands back, from what it leaves: `end` is the distance at its end. The marks that it used are no longer needed.
pub fn put_margins<S: WideSymbol>(
    code: Params,
    positions: &[u16],
    end: u32,
    zeros: &[u8],
    marks: &mut [u8],
    s: &[S],
    d: &[S],
    out: &mut [u8],
)
    requires { Left (wide_code_by S.profile code positions.now) (S.numbers s.now) (S.numbers d.now) zeros.now end
        × (length out.old ≡ 4 * data_count (wide_code_by S.profile code positions.now))
        × (length marks.old ≡ data_count (wide_code_by S.profile code positions.now)) }
    ensures { (r : List ℕ) → out.new ≡ margin_bytes (margins_of (wide_code_by S.profile code positions.now) (state_by r (S.numbers s.now) (S.numbers d.now))) }
{
    let n = d.len();
    if end == 0 {
        let each = params::checks_each(code, positions.len());
        margin_bytes::write_firm((each + 1) as u8, n, out);
    } else {
        write_margins(code, positions, &zeros[..n], marks, s, d, out);
    }
}

// Decode on wide symbols, with the buffers for the zeros and the marks lent: the tests, the correction, the margins.
#![tactic(auto)]

ghost use Rattle.std.specs.Prelude.{◌≡◌, true, ◌*◌, ◌≤◌, length};
ghost use Rattle.model.specs.Decoder.{state_by};
ghost use Rattle.model.specs.Calls.{decode_outcome};
ghost use Rattle.theory.specs.Counters.{Clear};
ghost use Rattle.refusals.specs.Numbers.{answer};
ghost use Rattle.tally.specs.Counts.{counts_in};
ghost use Rattle.wide_symbols.specs.Codes.{wide_code_by};

use params::Params;
use refusals::Refusal;
use tally::Tally;
use wide_symbols::WideSymbol;

// Decode with buffers for the zeros, all zero, and for the marks.
pub fn decode_into<S: WideSymbol>(
    code: Params,
    positions: &[u16],
    page: &[S],
    thresholds: &[u8],
    zeros: &mut [u8],
    marks: &mut [u8],
    res: &mut [S],
    syndrome: &mut [S],
    difference: &mut [S],
    margins: &mut [i32],
) -> Result<Tally, Refusal>
    requires { (code.k ≤ 4294967295) × (code.b ≤ 4294967295) × (code.b * code.k ≤ 4096 → code.b * code.k ≤ length zeros.old)
        × Clear zeros.old
        × (code.b * code.k ≤ 4096 → code.b * code.k ≤ length marks.old) }
    ensures { record {
      number = answer result;
      left = record {
        state = state_by (S.numbers res.new) (S.numbers syndrome.new) (S.numbers difference.new);
        margins = margins.new;
        counts = counts_in result;
      };
    } ≡ decode_outcome (wide_code_by S.profile code positions.now) true (S.numbers page.now) thresholds.now
        (state_by (S.numbers res.old) (S.numbers syndrome.old) (S.numbers difference.old)) margins.old }
{
    let n = params::data_count(code);
    let fits = lengths::decode_fits(
        margins.len() == n,
        n,
        code.k,
        page.len(),
        res.len(),
        syndrome.len(),
        difference.len(),
    );
    S::all_below(page);
    wide_answers::decode_answer::<S>(code, positions, fits, thresholds)?;
    let k = code.k;
    wide_correction::load_page(page, res, syndrome);
    let tally = wide_correction::decode_state(
        code,
        positions,
        thresholds,
        &mut zeros[..n],
        &mut marks[..k],
        res,
        syndrome,
        difference,
    );
    wide_margins::fill(
        code, positions, tally.end, zeros, syndrome, difference, margins,
    );
    Ok(tally)
}

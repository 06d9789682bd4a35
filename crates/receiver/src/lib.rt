// Decode with a buffer for the zeros lent: the tests and the correction, for every form of the call, and the Rattle form. All decode in
// blocks: decode in blocks of 1.
#![tactic(auto)]

ghost use Rattle.std.specs.Prelude.{◌≡◌, true, ◌&&◌, ◌*◌, ◌≤◌, length, IfOk};
ghost use Rattle.model.specs.Decoder.{state_by};
ghost use Rattle.model.specs.Calls.{decode_fits};
ghost use Rattle.params.specs.Codes.{code_by};
ghost use Rattle.theory.specs.Counters.{Clear};
ghost use Rattle.theory.specs.InBlocks.{decode_form};
ghost use Rattle.ones.specs.Pages.{AllBits};
ghost use Rattle.margins.specs.Margins.{Left};
ghost use Rattle.receiver.specs.Received.{ran_outcome};
ghost use Rattle.refusals.specs.Numbers.{answer};
ghost use Rattle.tally.specs.Counts.{counts_in};

use params::Params;
use refusals::Refusal;
use tally::Tally;

// Decodes a received page into the result, S and D, for every form of the call: `others` says whether the buffers that only
// one form lends fit, n is the number of data symbols, and zeros, which the form keeps on its stack, all zero, is what the margins
// are then filled from. The visits vote by the counters, where 256 are lent; `bits`, the code's, is handed down by itself.
pub fn decode_with(
    others: bool,
    bits: bool,
    n: usize,
    code: Params,
    positions: &[u16],
    block: usize,
    page: &[u8],
    thresholds: &[u8],
    zeros: &mut [u8],
    counters: &mut [u8],
    res: &mut [u8],
    syndrome: &mut [u8],
    difference: &mut [u8],
) -> Result<Tally, Refusal>
    requires { (n ≡ code.b * code.k) × (n ≤ 4096 → n ≤ length zeros.old) × Clear zeros.old × (others ≡ true → Clear counters.old)
        × (bits ≡ code.bits) }
    ensures outcome { record {
      number = answer result;
      left = record { state = state_by res.new syndrome.new difference.new; counts = counts_in result };
    } ≡ ran_outcome (code_by code positions.now) block
        (others && decode_fits (code_by code positions.now) page.now
        (state_by res.old syndrome.old difference.old))
        page.now thresholds.now
        (state_by res.old syndrome.old difference.old) }
    ensures left { IfOk result (λ tally. Left (code_by code positions.now) syndrome.new difference.new zeros.new tally.end
        × AllBits bits syndrome.new difference.new) }
    ensures kept { counters.new ≡ counters.old }
{
    let fits = lengths::decode_fits(
        others,
        n,
        code.k,
        page.len(),
        res.len(),
        syndrome.len(),
        difference.len(),
    );
    answers::blocks_answer(code, positions, block, fits, page, thresholds)?;
    Ok(outer_correction::correct_page(
        bits,
        code,
        positions,
        block,
        page,
        thresholds,
        &mut zeros[..n],
        counters,
        res,
        syndrome,
        difference,
    ))
}

// Decode in its Rattle form, with a buffer for the zeros; `others` and `bits` as in `decode_with`.
#[tactic(auto, unfolding(crate::specs::Received::ran_outcome, theory::specs::InBlocks::decode_form, theory::specs::InBlocks::form_outcome, model::specs::Calls::outcome))]
pub fn decode_into(
    others: bool,
    bits: bool,
    code: Params,
    positions: &[u16],
    block: usize,
    page: &[u8],
    thresholds: &[u8],
    zeros: &mut [u8],
    counters: &mut [u8],
    res: &mut [u8],
    syndrome: &mut [u8],
    difference: &mut [u8],
    margins: &mut [i32],
) -> Result<Tally, Refusal>
    requires { (code.k ≤ 4294967295) × (code.b ≤ 4294967295) × (code.b * code.k ≤ 4096 → code.b * code.k ≤ length zeros.old)
        × Clear zeros.old
        × (others ≡ true → Clear counters.old)
        × (bits ≡ code.bits) }
    ensures outcome { record {
      number = answer result;
      left = record {
        state = state_by res.new syndrome.new difference.new;
        margins = margins.new;
        counts = counts_in result;
      };
    } ≡ decode_form (code_by code positions.now) block others page.now thresholds.now
        (state_by res.old syndrome.old difference.old) margins.old }
    ensures kept { counters.new ≡ counters.old }
{
    let n = params::data_count(code);
    let tally = decode_with(
        lengths::also(others, margins.len() == n),
        bits,
        n,
        code,
        positions,
        block,
        page,
        thresholds,
        zeros,
        counters,
        res,
        syndrome,
        difference,
    )?;
    page_margins::fill(
        bits, code, positions, tally.end, zeros, syndrome, difference, margins,
    );
    Ok(tally)
}

// The C form of decode in blocks, with a buffer for the zeros lent: margins and counts are written as bytes.
#![tactic(auto)]

ghost use Rattle.std.specs.Prelude.{◌≡◌, true, ◌*◌, ◌≤◌, length};
ghost use Rattle.model.specs.Decoder.{state_by};
ghost use Rattle.params.specs.Codes.{code_by};
ghost use Rattle.theory.specs.Counters.{Clear};
ghost use Rattle.theory.specs.InBlocks.{c_decode_form};
ghost use Rattle.refusals.specs.Numbers.{answer};

use params::Params;
use refusals::Refusal;

// Decodes a received page in blocks, with the positions read, a buffer for the zeros, and the counters that are lent, or none; `others`
// says whether these fit. Blocks of 1 are those of decode; `bits`, the code's, is handed down by itself. Margins and counts are written only when the call is done.
#[tactic(auto, unfolding(receiver::specs::Received::ran_outcome, theory::specs::InBlocks::c_decode_form, theory::specs::InBlocks::form_outcome, model::specs::Calls::outcome))]
pub fn decode_into(
    others: bool,
    bits: bool,
    code: Params,
    positions: &[u16],
    block: usize,
    page: &[u8],
    thresholds: &[u8],
    zeros: &mut [u8],
    counters: &mut [u8],
    res: &mut [u8],
    syndrome: &mut [u8],
    difference: &mut [u8],
    margins: &mut [u8],
    counts: &mut [u8],
) -> Result<(), Refusal>
    requires { (code.k ≤ 4294967295) × (code.b ≤ 4294967295) × (code.b * code.k ≤ 4096 → code.b * code.k ≤ length zeros.old)
        × Clear zeros.old
        × (others ≡ true → Clear counters.old)
        × (bits ≡ code.bits) }
    ensures outcome { record {
      number = answer result;
      left = record {
        state = state_by res.new syndrome.new difference.new;
        margins = margins.new;
        counts = counts.new;
      };
    } ≡ c_decode_form (code_by code positions.now) block others page.now thresholds.now
        (state_by res.old syndrome.old difference.old) margins.old counts.old }
    ensures kept { counters.new ≡ counters.old }
{
    let n = params::data_count(code);
    let bytes = lengths::bytes_fit(margins.len(), n, counts.len());
    match receiver::decode_with(
        lengths::also(others, bytes),
        bits,
        n,
        code,
        positions,
        block,
        page,
        thresholds,
        zeros,
        counters,
        res,
        syndrome,
        difference,
    ) {
        Ok(tally) => {
            margin_bytes::put_margins(
                bits, code, positions, tally.end, zeros, syndrome, difference, margins,
            );
            number_bytes::put_counts(counts, tally.passes, tally.changes, tally.start, tally.end);
            Ok(())
        }
        Err(refusal) => Err(refusal),
    }
}

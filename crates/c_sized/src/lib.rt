// The C form of decode with the positions read, which has the buffer for the zeros and lends no counters.
#![tactic(auto)]

ghost use Rattle.std.specs.Prelude.{◌≡◌, true, ◌≤◌};
ghost use Rattle.model.specs.Decoder.{state_by};
ghost use Rattle.params.specs.Codes.{code_by};
ghost use Rattle.theory.specs.InBlocks.{c_decode_form};
ghost use Rattle.refusals.specs.Numbers.{answer};

use params::Params;
use refusals::Refusal;

// Decodes a page, in blocks of 1, with the positions read. A small code has a small buffer for the zeros, which costs less to clear;
// `bits`, the code's, is handed down by itself.
pub fn decode_sized(
    bits: bool,
    code: Params,
    positions: &[u16],
    page: &[u8],
    thresholds: &[u8],
    res: &mut [u8],
    syndrome: &mut [u8],
    difference: &mut [u8],
    margins: &mut [u8],
    counts: &mut [u8],
) -> Result<(), Refusal>
    requires { (code.k ≤ 4294967295) × (code.b ≤ 4294967295) × (bits ≡ code.bits) }
    ensures outcome { record {
      number = answer result;
      left = record {
        state = state_by res.new syndrome.new difference.new;
        margins = margins.new;
        counts = counts.new;
      };
    } ≡ c_decode_form (code_by code positions.now) 1 true page.now thresholds.now
        (state_by res.old syndrome.old difference.old) margins.old counts.old }
{
    let mut none = [0u8; 0];
    if params::data_count(code) <= 128 {
        let mut few = [0u8; 128];
        return c_receiver::decode_into(
            true, bits, code, positions, 1, page, thresholds, &mut few, &mut none, res, syndrome,
            difference, margins, counts,
        );
    }
    let mut zeros = [0u8; 4096];
    c_receiver::decode_into(
        true, bits, code, positions, 1, page, thresholds, &mut zeros, &mut none, res, syndrome,
        difference, margins, counts,
    )
}

// The calls decode and decode_counters, and what they share with decode_outer, which has the buffer for the zeros.
#![tactic(auto)]

ghost use Rattle.std.specs.Prelude.{◌≡◌, true};
ghost use Rattle.model.specs.Code.{code_in, code_of};
ghost use Rattle.model.specs.Decoder.{state_by};
ghost use Rattle.model.specs.Calls.{decode_outcome, decode_counters_outcome};
ghost use Rattle.model.specs.Demand.{DecodeFalls, DecodeRecovers};
ghost use Rattle.params.specs.Codes.{profile_of};
ghost use Rattle.refusals.specs.Numbers.{answer};
ghost use Rattle.tally.specs.Counts.{counts_in};
ghost use Rattle.theory.specs.Counters.{Clear};
ghost use Rattle.theory.specs.InBlocks.{decode_form};

use params::Params;
pub use refusals::Refusal;
pub use tally::Tally;

// Decodes a received page in blocks, for every call, with the counters that are lent, or none; `others` says whether these fit. Blocks of 1
// are those of decode; `bits` says whether the profile is that of bit pages. A small code clears a small buffer for the zeros.
pub fn decode_blocks(
    others: bool,
    bits: bool,
    q: u32,
    k: u32,
    b: u32,
    positions: &[u16],
    block: usize,
    page: &[u8],
    thresholds: &[u8],
    counters: &mut [u8],
    res: &mut [u8],
    syndrome: &mut [u8],
    difference: &mut [u8],
    margins: &mut [i32],
) -> Result<Tally, Refusal>
    requires { others ≡ true → Clear counters.old }
    ensures outcome { record {
      number = answer result;
      left = record {
        state = state_by res.new syndrome.new difference.new;
        margins = margins.new;
        counts = counts_in result;
      };
    } ≡ decode_form (code_in (profile_of bits) q k b positions.now) block others page.now thresholds.now
        (state_by res.old syndrome.old difference.old) margins.old }
    ensures kept { counters.new ≡ counters.old }
{
    let code = Params {
        q,
        k: k as usize,
        b: b as usize,
        bits,
    };
    if params::data_count(code) <= 128 {
        let mut few = [0u8; 128];
        return receiver::decode_into(
            others, bits, code, positions, block, page, thresholds, &mut few, counters, res,
            syndrome, difference, margins,
        );
    }
    let mut zeros = [0u8; 4096];
    receiver::decode_into(
        others, bits, code, positions, block, page, thresholds, &mut zeros, counters, res,
        syndrome, difference, margins,
    )
}

// Decodes a received page. The votes are taken by 256 lent counters, which are all zero before and after.
// A quick test comes before each vote (`leads::lead_above`), as in decode.
pub fn decode_counters(
    q: u32,
    k: u32,
    b: u32,
    positions: &[u16],
    page: &[u8],
    thresholds: &[u8],
    res: &mut [u8],
    syndrome: &mut [u8],
    difference: &mut [u8],
    margins: &mut [i32],
    counters: &mut [u8],
) -> Result<Tally, Refusal>
    ensures outcome { record {
      given = record {
        number = answer result;
        left = record {
          state = state_by res.new syndrome.new difference.new;
          margins = margins.new;
          counts = counts_in result;
        };
      };
      counters = counters.new;
    } ≡ decode_counters_outcome (code_of q k b positions.now) page.now thresholds.now
        (state_by res.old syndrome.old difference.old) margins.old counters.old }
    ensures falling { answer result ≡ 0 → DecodeFalls (code_of q k b positions.now) thresholds.now page.now
        (counts_in result) }
    ensures recovery { answer result ≡ 0 → DecodeRecovers (code_of q k b positions.now) thresholds.now page.now res.new }
{
    let fit = lengths::counters_fit(counters);
    decode_blocks(
        fit, false, q, k, b, positions, 1, page, thresholds, counters, res, syndrome, difference,
        margins,
    )
}

// Decodes a received page. The votes are taken pair by pair.
// A quick test comes before each vote (`leads::lead_above`): where no value stands often enough to lead, none is taken.
pub fn decode(
    q: u32,
    k: u32,
    b: u32,
    positions: &[u16],
    page: &[u8],
    thresholds: &[u8],
    res: &mut [u8],
    syndrome: &mut [u8],
    difference: &mut [u8],
    margins: &mut [i32],
) -> Result<Tally, Refusal>
    ensures outcome { record {
      number = answer result;
      left = record {
        state = state_by res.new syndrome.new difference.new;
        margins = margins.new;
        counts = counts_in result;
      };
    } ≡ decode_outcome (code_of q k b positions.now) true page.now thresholds.now
        (state_by res.old syndrome.old difference.old) margins.old }
    ensures falling { answer result ≡ 0 → DecodeFalls (code_of q k b positions.now) thresholds.now page.now
        (counts_in result) }
    ensures recovery { answer result ≡ 0 → DecodeRecovers (code_of q k b positions.now) thresholds.now page.now res.new }
{
    let mut none = [0u8; 0];
    decode_blocks(
        true, false, q, k, b, positions, 1, page, thresholds, &mut none, res, syndrome, difference,
        margins,
    )
}

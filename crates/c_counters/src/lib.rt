// The C form of decode with counters, which reads the positions of the table and has the buffer for the zeros.
#![tactic(auto)]

ghost use Rattle.std.specs.Prelude.{◌≡◌};
ghost use Rattle.model.specs.Code.{code_of};
ghost use Rattle.model.specs.Decoder.{state_by, decoded_counts};
ghost use Rattle.model.specs.Bytes.{positions_of, c_decode_counters_outcome};
ghost use Rattle.model.specs.Demand.{DecodeFalls, DecodeRecovers};
ghost use Rattle.refusals.specs.Numbers.{answer};

use params::Params;
use refusals::Refusal;

// Decodes a page. The votes are taken by 256 lent counters, which are all zero before and after. The buffers have room for any code.
pub fn decode_counters(
    q: u32,
    k: u32,
    b: u32,
    table: &[u8],
    page: &[u8],
    thresholds: &[u8],
    res: &mut [u8],
    syndrome: &mut [u8],
    difference: &mut [u8],
    margins: &mut [u8],
    counters: &mut [u8],
    counts: &mut [u8],
) -> Result<(), Refusal>
    ensures outcome { record {
      given = record {
        number = answer result;
        left = record {
          state = state_by res.new syndrome.new difference.new;
          margins = margins.new;
          counts = counts.new;
        };
      };
      counters = counters.new;
    } ≡ c_decode_counters_outcome (code_of q k b (positions_of table.now)) page.now thresholds.now
        (state_by res.old syndrome.old difference.old) margins.old counters.old counts.old }
    ensures falling { answer result ≡ 0 → DecodeFalls (code_of q k b (positions_of table.now)) thresholds.now page.now
        (decoded_counts (code_of q k b (positions_of table.now)) thresholds.now page.now) }
    ensures recovery { answer result ≡ 0 → DecodeRecovers (code_of q k b (positions_of table.now)) thresholds.now page.now res.new }
{
    let code = Params {
        q,
        k: k as usize,
        b: b as usize,
        bits: false,
    };
    let fit = lengths::counters_fit(counters);
    let mut positions = [0u16; 256];
    let mut zeros = [0u8; 4096];
    let n = position_bytes::read_positions(table, &mut positions);
    c_receiver::decode_into(
        fit,
        false,
        code,
        &positions[..n],
        1,
        page,
        thresholds,
        &mut zeros,
        counters,
        res,
        syndrome,
        difference,
        margins,
        counts,
    )
}

// The C form of decode in blocks, which reads the positions of the table and has the buffer for the zeros.
#![tactic(auto)]

ghost use Rattle.std.specs.Prelude.{◌≡◌};
ghost use Rattle.model.specs.Code.{code_of};
ghost use Rattle.model.specs.Decoder.{state_by};
ghost use Rattle.model.specs.Outer.{outer_counts};
ghost use Rattle.model.specs.Bytes.{positions_of, c_decode_outer_outcome};
ghost use Rattle.model.specs.Demand.{OuterFalls, OuterRecovers};
ghost use Rattle.refusals.specs.Numbers.{answer};

use params::Params;
use refusals::Refusal;

// Decodes a page whose data was sent in blocks with an outer check. A small code has small buffers for its positions and its zeros, which
// cost less to clear.
pub fn decode_outer(
    q: u32,
    k: u32,
    b: u32,
    table: &[u8],
    block: u32,
    page: &[u8],
    thresholds: &[u8],
    res: &mut [u8],
    syndrome: &mut [u8],
    difference: &mut [u8],
    margins: &mut [u8],
    counts: &mut [u8],
) -> Result<(), Refusal>
    ensures outcome { record {
      number = answer result;
      left = record {
        state = state_by res.new syndrome.new difference.new;
        margins = margins.new;
        counts = counts.new;
      };
    } ≡ c_decode_outer_outcome (code_of q k b (positions_of table.now)) block page.now thresholds.now
        (state_by res.old syndrome.old difference.old) margins.old counts.old }
    ensures falling { answer result ≡ 0 → OuterFalls (code_of q k b (positions_of table.now)) block thresholds.now page.now
        (outer_counts (code_of q k b (positions_of table.now)) block thresholds.now page.now) }
    ensures recovery { answer result ≡ 0 → OuterRecovers (code_of q k b (positions_of table.now)) block thresholds.now page.now res.new
        (outer_counts (code_of q k b (positions_of table.now)) block thresholds.now page.now) }
{
    let code = Params {
        q,
        k: k as usize,
        b: b as usize,
        bits: false,
    };
    let length = blocks::length_of(block);
    let mut none = [0u8; 0];
    if position_bytes::is_small(table.len(), params::data_count(code)) {
        let mut few = [0u16; 32];
        let mut counted = [0u8; 128];
        let n = position_bytes::read_positions(table, &mut few);
        return c_receiver::decode_into(
            true,
            false,
            code,
            &few[..n],
            length,
            page,
            thresholds,
            &mut counted,
            &mut none,
            res,
            syndrome,
            difference,
            margins,
            counts,
        );
    }
    let mut positions = [0u16; 256];
    let mut zeros = [0u8; 4096];
    let n = position_bytes::read_positions(table, &mut positions);
    c_receiver::decode_into(
        true,
        false,
        code,
        &positions[..n],
        length,
        page,
        thresholds,
        &mut zeros,
        &mut none,
        res,
        syndrome,
        difference,
        margins,
        counts,
    )
}

// The C form of decode, which reads the positions of the table.
#![tactic(auto)]

ghost use Rattle.std.specs.Prelude.{◌≡◌, true};
ghost use Rattle.model.specs.Code.{code_in};
ghost use Rattle.model.specs.Decoder.{state_by, decoded_counts};
ghost use Rattle.model.specs.Bytes.{positions_of, c_decode_outcome};
ghost use Rattle.model.specs.Demand.{DecodeFalls, DecodeRecovers};
ghost use Rattle.params.specs.Codes.{profile_of};
ghost use Rattle.refusals.specs.Numbers.{answer};

use params::Params;
use refusals::Refusal;

// Decodes a page, in the profile of bit pages or of bytes. A small table is read into a small buffer, which costs less to clear.
pub fn decode(
    bits: bool,
    q: u32,
    k: u32,
    b: u32,
    table: &[u8],
    page: &[u8],
    thresholds: &[u8],
    res: &mut [u8],
    syndrome: &mut [u8],
    difference: &mut [u8],
    margins: &mut [u8],
    counts: &mut [u8],
) -> Result<(), Refusal>
    ensures outcome { record {
      number = answer result;
      left = record {
        state = state_by res.new syndrome.new difference.new;
        margins = margins.new;
        counts = counts.new;
      };
    } ≡ c_decode_outcome (code_in (profile_of bits) q k b (positions_of table.now)) true page.now thresholds.now
        (state_by res.old syndrome.old difference.old) margins.old counts.old }
    ensures falling { answer result ≡ 0 → DecodeFalls (code_in (profile_of bits) q k b (positions_of table.now)) thresholds.now page.now
        (decoded_counts (code_in (profile_of bits) q k b (positions_of table.now)) thresholds.now page.now) }
    ensures recovery { answer result ≡ 0 → DecodeRecovers (code_in (profile_of bits) q k b (positions_of table.now)) thresholds.now page.now
        res.new }
{
    let code = Params {
        q,
        k: k as usize,
        b: b as usize,
        bits,
    };
    if table.len() <= 64 {
        let mut few = [0u16; 32];
        let n = position_bytes::read_positions(table, &mut few);
        return c_sized::decode_sized(
            bits,
            code,
            &few[..n],
            page,
            thresholds,
            res,
            syndrome,
            difference,
            margins,
            counts,
        );
    }
    let mut positions = [0u16; 256];
    let n = position_bytes::read_positions(table, &mut positions);
    c_sized::decode_sized(
        bits,
        code,
        &positions[..n],
        page,
        thresholds,
        res,
        syndrome,
        difference,
        margins,
        counts,
    )
}

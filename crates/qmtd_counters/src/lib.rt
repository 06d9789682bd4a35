// The C call that votes by lent counters, exported: it is the function of its C form.
#![tactic(auto)]

ghost use Rattle.std.specs.Prelude.{◌≡◌};
ghost use Rattle.model.specs.Code.{code_of};
ghost use Rattle.model.specs.Decoder.{state_by, decoded_counts};
ghost use Rattle.model.specs.Bytes.{positions_of, c_decode_counters_outcome};
ghost use Rattle.model.specs.Demand.{DecodeFalls, DecodeRecovers};

// Decode with 256 lent counters, all zero before and after.
#[unsafe(no_mangle)]
pub extern "C" fn qmtd_decode_counters(
    q: u32,
    k: u32,
    b: u32,
    table: &[u8],
    page: &[u8],
    thresholds: &[u8],
    res: &mut [u8],
    syndrome: &mut [u8],
    difference: &mut [u8],
    margins: &mut [u8],
    counters: &mut [u8],
    counts: &mut [u8],
) -> u32
    ensures outcome { record {
      given = record {
        number = result;
        left = record {
          state = state_by res.new syndrome.new difference.new;
          margins = margins.new;
          counts = counts.new;
        };
      };
      counters = counters.new;
    } ≡ c_decode_counters_outcome (code_of q k b (positions_of table.now)) page.now thresholds.now
        (state_by res.old syndrome.old difference.old) margins.old counters.old counts.old }
    ensures falling { result ≡ 0 → DecodeFalls (code_of q k b (positions_of table.now)) thresholds.now page.now
        (decoded_counts (code_of q k b (positions_of table.now)) thresholds.now page.now) }
    ensures recovery { result ≡ 0 → DecodeRecovers (code_of q k b (positions_of table.now)) thresholds.now page.now res.new }
{
    refusals::answer(c_counters::decode_counters(
        q, k, b, table, page, thresholds, res, syndrome, difference, margins, counters, counts,
    ))
}

// The C calls on pages in blocks, each with an outer check, exported: each is the function of its C form, and C gets the number of its answer.
#![tactic(auto)]

ghost use Rattle.std.specs.Prelude.{◌≡◌};
ghost use Rattle.model.specs.Code.{code_of};
ghost use Rattle.model.specs.Decoder.{state_by};
ghost use Rattle.model.specs.Outer.{outer_counts};
ghost use Rattle.model.specs.Calls.{encode_outer_outcome};
ghost use Rattle.model.specs.Bytes.{positions_of, c_decode_outer_outcome};
ghost use Rattle.model.specs.Demand.{EncodesOuter, OuterFalls, OuterRecovers};

// Encodes data in blocks, each with an outer check.
#[unsafe(no_mangle)]
pub extern "C" fn qmtd_encode_outer(
    q: u32,
    k: u32,
    b: u32,
    table: &[u8],
    block: u32,
    data: &[u8],
    page: &mut [u8],
) -> u32
    ensures outcome { record { number = result; left = page.new }
        ≡ encode_outer_outcome (code_of q k b (positions_of table.now)) block «data».now page.old }
    ensures word { result ≡ 0 → EncodesOuter (code_of q k b (positions_of table.now)) block «data».now page.new }
{
    refusals::answer(c_outer_page::encode_outer(q, k, b, table, block, data, page))
}

// Decodes a page whose data was sent in blocks with an outer check.
#[unsafe(no_mangle)]
pub extern "C" fn qmtd_decode_outer(
    q: u32,
    k: u32,
    b: u32,
    table: &[u8],
    block: u32,
    page: &[u8],
    thresholds: &[u8],
    res: &mut [u8],
    syndrome: &mut [u8],
    difference: &mut [u8],
    margins: &mut [u8],
    counts: &mut [u8],
) -> u32
    ensures outcome { record {
      number = result;
      left = record {
        state = state_by res.new syndrome.new difference.new;
        margins = margins.new;
        counts = counts.new;
      };
    } ≡ c_decode_outer_outcome (code_of q k b (positions_of table.now)) block page.now thresholds.now
        (state_by res.old syndrome.old difference.old) margins.old counts.old }
    ensures falling { result ≡ 0 → OuterFalls (code_of q k b (positions_of table.now)) block thresholds.now page.now
        (outer_counts (code_of q k b (positions_of table.now)) block thresholds.now page.now) }
    ensures recovery { result ≡ 0 → OuterRecovers (code_of q k b (positions_of table.now)) block thresholds.now page.now res.new
        (outer_counts (code_of q k b (positions_of table.now)) block thresholds.now page.now) }
{
    refusals::answer(c_outer::decode_outer(
        q, k, b, table, block, page, thresholds, res, syndrome, difference, margins, counts,
    ))
}

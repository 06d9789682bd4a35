// The C calls on bit pages, exported: each is the function of its C form, and C gets the number of its answer.
#![tactic(auto)]

ghost use Rattle.std.specs.Prelude.{◌≡◌, true};
ghost use Rattle.model.specs.Code.{bit_pages, code_in};
ghost use Rattle.model.specs.Decoder.{state_by, decoded_counts};
ghost use Rattle.model.specs.Calls.{table_answer, encode_outcome, syndrome_outcome, open_outcome};
ghost use Rattle.model.specs.Bytes.{positions_of, c_decode_outcome, c_pass_outcome, c_explain_outcome};
ghost use Rattle.model.specs.Demand.{Encodes, DecodeFalls, DecodeRecovers, PassFalls};

// Checks a code table.
#[unsafe(no_mangle)]
pub extern "C" fn qmtd_bits_check_table(q: u32, k: u32, b: u32, table: &[u8]) -> u32
    ensures { result ≡ table_answer (code_in bit_pages q k b (positions_of table.now)) }
{
    refusals::answer(c_page::check_table(true, q, k, b, table))
}

// Encodes data into a page.
#[unsafe(no_mangle)]
pub extern "C" fn qmtd_bits_encode(
    q: u32,
    k: u32,
    b: u32,
    table: &[u8],
    data: &[u8],
    page: &mut [u8],
) -> u32
    ensures outcome { record { number = result; left = page.new }
        ≡ encode_outcome (code_in bit_pages q k b (positions_of table.now)) «data».now page.old }
    ensures word { result ≡ 0 → Encodes (code_in bit_pages q k b (positions_of table.now)) «data».now page.new }
{
    refusals::answer(c_page::encode(true, q, k, b, table, data, page))
}

// Works out the syndrome of a page.
#[unsafe(no_mangle)]
pub extern "C" fn qmtd_bits_syndrome(
    q: u32,
    k: u32,
    b: u32,
    table: &[u8],
    page: &[u8],
    syndrome: &mut [u8],
) -> u32
    ensures { record { number = result; left = syndrome.new }
        ≡ syndrome_outcome (code_in bit_pages q k b (positions_of table.now)) page.now syndrome.old }
{
    refusals::answer(c_page::syndrome(true, q, k, b, table, page, syndrome))
}

// Decodes a page.
#[unsafe(no_mangle)]
pub extern "C" fn qmtd_bits_decode(
    q: u32,
    k: u32,
    b: u32,
    table: &[u8],
    page: &[u8],
    thresholds: &[u8],
    res: &mut [u8],
    syndrome: &mut [u8],
    difference: &mut [u8],
    margins: &mut [u8],
    counts: &mut [u8],
) -> u32
    ensures outcome { record {
      number = result;
      left = record {
        state = state_by res.new syndrome.new difference.new;
        margins = margins.new;
        counts = counts.new;
      };
    } ≡ c_decode_outcome (code_in bit_pages q k b (positions_of table.now)) true page.now thresholds.now
        (state_by res.old syndrome.old difference.old) margins.old counts.old }
    ensures falling { result ≡ 0 → DecodeFalls (code_in bit_pages q k b (positions_of table.now)) thresholds.now page.now
        (decoded_counts (code_in bit_pages q k b (positions_of table.now)) thresholds.now page.now) }
    ensures recovery { result ≡ 0 → DecodeRecovers (code_in bit_pages q k b (positions_of table.now)) thresholds.now page.now
        res.new }
{
    refusals::answer(c_decoder::decode(
        true, q, k, b, table, page, thresholds, res, syndrome, difference, margins, counts,
    ))
}

// Opens a page.
#[unsafe(no_mangle)]
pub extern "C" fn qmtd_bits_open(
    q: u32,
    k: u32,
    b: u32,
    table: &[u8],
    page: &[u8],
    res: &mut [u8],
    syndrome: &mut [u8],
    difference: &mut [u8],
) -> u32
    ensures { record { number = result; left = state_by res.new syndrome.new difference.new }
        ≡ open_outcome (code_in bit_pages q k b (positions_of table.now)) page.now
        (state_by res.old syndrome.old difference.old) }
{
    refusals::answer(c_page::open(true, q, k, b, table, page, res, syndrome, difference))
}

// Makes one pass.
#[unsafe(no_mangle)]
pub extern "C" fn qmtd_bits_pass(
    q: u32,
    k: u32,
    b: u32,
    table: &[u8],
    threshold: u32,
    res: &mut [u8],
    syndrome: &mut [u8],
    difference: &mut [u8],
    changes: &mut [u8],
) -> u32
    ensures outcome { record {
      number = result;
      left = record { state = state_by res.new syndrome.new difference.new; changes = changes.new };
    } ≡ c_pass_outcome (code_in bit_pages q k b (positions_of table.now)) threshold
        (state_by res.old syndrome.old difference.old) changes.old }
    ensures falling { result ≡ 0 → PassFalls (code_in bit_pages q k b (positions_of table.now)) threshold
        (state_by res.old syndrome.old difference.old) }
{
    refusals::answer(c_passing::pass(
        true, q, k, b, table, threshold, res, syndrome, difference, changes,
    ))
}

// Explains a data symbol.
#[unsafe(no_mangle)]
pub extern "C" fn qmtd_bits_explain(
    q: u32,
    k: u32,
    b: u32,
    table: &[u8],
    threshold: u32,
    symbol: u32,
    res: &[u8],
    syndrome: &[u8],
    difference: &[u8],
    answer: &mut [u8],
) -> u32
    ensures { record { number = result; left = answer.new }
        ≡ c_explain_outcome (code_in bit_pages q k b (positions_of table.now)) threshold symbol
        (state_by res.now syndrome.now difference.now) answer.old }
{
    refusals::answer(c_explainer::explain(
        true, q, k, b, table, threshold, symbol, res, syndrome, difference, answer,
    ))
}

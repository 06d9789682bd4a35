// The C calls on symbols of four bytes, exported: each is the function of its C form.
#![tactic(auto)]

ghost use Rattle.std.specs.Prelude.{◌≡◌};
ghost use Rattle.model.specs.Code.{wide32, wide_code};
ghost use Rattle.model.specs.Decoder.{state_by, decoded_counts};
ghost use Rattle.model.specs.Calls.{table_answer};
ghost use Rattle.model.specs.Bytes.{symbol_size, symbols_of, state_read, positions_of, wide_encode_outcome, wide_syndrome_outcome, wide_decode_outcome, wide_open_outcome, wide_pass_outcome, wide_explain_outcome};
ghost use Rattle.model.specs.Demand.{Encodes, DecodeFalls, DecodeRecovers, PassFalls};

// Checks a code table.
#[unsafe(no_mangle)]
pub extern "C" fn qmtd_u32_check_table(k: u32, b: u32, table: &[u8]) -> u32
    ensures { result ≡ table_answer (wide_code wide32 k b (positions_of table.now)) }
{
    refusals::answer(c_wide_page::check_table::<u32>(k, b, table))
}

// Encodes data into a page.
#[unsafe(no_mangle)]
pub extern "C" fn qmtd_u32_encode(k: u32, b: u32, table: &[u8], data: &[u8], page: &mut [u8]) -> u32
    ensures outcome { record { number = result; left = page.new }
        ≡ wide_encode_outcome (wide_code wide32 k b (positions_of table.now)) «data».now page.old }
    ensures word { result ≡ 0 → Encodes (wide_code wide32 k b (positions_of table.now)) (symbols_of (symbol_size wide32) «data».now)
        (symbols_of (symbol_size wide32) page.new) }
{
    refusals::answer(c_wide_page::encode::<u32>(k, b, table, data, page))
}

// Works out the syndrome of a page.
#[unsafe(no_mangle)]
pub extern "C" fn qmtd_u32_syndrome(
    k: u32,
    b: u32,
    table: &[u8],
    page: &[u8],
    syndrome: &mut [u8],
) -> u32
    ensures { record { number = result; left = syndrome.new }
        ≡ wide_syndrome_outcome (wide_code wide32 k b (positions_of table.now)) page.now syndrome.old }
{
    refusals::answer(c_wide_page::syndrome::<u32>(k, b, table, page, syndrome))
}

// Decodes a page.
#[unsafe(no_mangle)]
pub extern "C" fn qmtd_u32_decode(
    k: u32,
    b: u32,
    table: &[u8],
    page: &[u8],
    thresholds: &[u8],
    res: &mut [u8],
    syndrome: &mut [u8],
    difference: &mut [u8],
    margins: &mut [u8],
    counts: &mut [u8],
) -> u32
    ensures outcome { record {
      number = result;
      left = record {
        state = state_by res.new syndrome.new difference.new;
        margins = margins.new;
        counts = counts.new;
      };
    } ≡ wide_decode_outcome (wide_code wide32 k b (positions_of table.now)) page.now thresholds.now
        (state_by res.old syndrome.old difference.old) margins.old counts.old }
    ensures falling { result ≡ 0 → DecodeFalls (wide_code wide32 k b (positions_of table.now)) thresholds.now (symbols_of (symbol_size wide32) page.now)
        (decoded_counts (wide_code wide32 k b (positions_of table.now)) thresholds.now (symbols_of (symbol_size wide32) page.now)) }
    ensures recovery { result ≡ 0 → DecodeRecovers (wide_code wide32 k b (positions_of table.now)) thresholds.now (symbols_of (symbol_size wide32) page.now)
        (symbols_of (symbol_size wide32) res.new) }
{
    refusals::answer(c_wide_decoder::decode::<u32>(
        k, b, table, page, thresholds, res, syndrome, difference, margins, counts,
    ))
}

// Opens a page.
#[unsafe(no_mangle)]
pub extern "C" fn qmtd_u32_open(
    k: u32,
    b: u32,
    table: &[u8],
    page: &[u8],
    res: &mut [u8],
    syndrome: &mut [u8],
    difference: &mut [u8],
) -> u32
    ensures { record { number = result; left = state_by res.new syndrome.new difference.new }
        ≡ wide_open_outcome (wide_code wide32 k b (positions_of table.now)) page.now
        (state_by res.old syndrome.old difference.old) }
{
    refusals::answer(c_wide_page::open::<u32>(k, b, table, page, res, syndrome, difference))
}

// One pass.
#[unsafe(no_mangle)]
pub extern "C" fn qmtd_u32_pass(
    k: u32,
    b: u32,
    table: &[u8],
    threshold: u32,
    res: &mut [u8],
    syndrome: &mut [u8],
    difference: &mut [u8],
    changes: &mut [u8],
) -> u32
    ensures outcome { record {
      number = result;
      left = record { state = state_by res.new syndrome.new difference.new; changes = changes.new };
    } ≡ wide_pass_outcome (wide_code wide32 k b (positions_of table.now)) threshold
        (state_by res.old syndrome.old difference.old) changes.old }
    ensures falling { result ≡ 0 → PassFalls (wide_code wide32 k b (positions_of table.now)) threshold
        (state_read (symbol_size wide32) (state_by res.old syndrome.old difference.old)) }
{
    refusals::answer(c_wide_passing::pass::<u32>(
        k, b, table, threshold, res, syndrome, difference, changes,
    ))
}

// Explains a data symbol.
#[unsafe(no_mangle)]
pub extern "C" fn qmtd_u32_explain(
    k: u32,
    b: u32,
    table: &[u8],
    threshold: u32,
    symbol: u32,
    res: &[u8],
    syndrome: &[u8],
    difference: &[u8],
    answer: &mut [u8],
) -> u32
    ensures { record { number = result; left = answer.new }
        ≡ wide_explain_outcome (wide_code wide32 k b (positions_of table.now)) threshold symbol
        (state_by res.now syndrome.now difference.now) answer.old }
{
    refusals::answer(c_wide_explainer::explain::<u32>(
        k, b, table, threshold, symbol, res, syndrome, difference, answer,
    ))
}

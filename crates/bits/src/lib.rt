// The calls on bit pages: q is 2, and the votes are taken by the ones of a word that holds the estimates. Each is the call of its name in this
// profile.
#![tactic(auto)]

ghost use Rattle.std.specs.Prelude.{◌≡◌, true, OnOk};
ghost use Rattle.std.specs.Result.{result_unwrap_or};
ghost use Rattle.model.specs.Code.{bit_pages, code_in};
ghost use Rattle.model.specs.Decoder.{state_by};
ghost use Rattle.model.specs.Calls.{table_answer, encode_outcome, syndrome_outcome, open_outcome, decode_outcome, pass_outcome, explain_outcome};
ghost use Rattle.model.specs.Demand.{Encodes, DecodeFalls, DecodeRecovers, PassFalls};
ghost use Rattle.explainer.specs.Explained.{explained_of};
ghost use Rattle.refusals.specs.Numbers.{answer};
ghost use Rattle.tally.specs.Counts.{counts_in};

pub use explainer::Told;
use params::Params;
pub use refusals::Refusal;
pub use tally::Tally;

// Checks a code table.
pub fn check_table(q: u32, k: u32, b: u32, positions: &[u16]) -> Result<(), Refusal>
    ensures { answer result ≡ table_answer (code_in bit_pages q k b positions.now) }
{
    let code = Params {
        q,
        k: k as usize,
        b: b as usize,
        bits: true,
    };
    table::table_answer(code, positions)
}

// Writes the page of the data.
pub fn encode(
    q: u32,
    k: u32,
    b: u32,
    positions: &[u16],
    data: &[u8],
    page: &mut [u8],
) -> Result<(), Refusal>
    ensures outcome { record { number = answer result; left = page.new }
        ≡ encode_outcome (code_in bit_pages q k b positions.now) «data».now page.old }
    ensures word { OnOk result (Encodes (code_in bit_pages q k b positions.now) «data».now page.new) }
{
    page::encode_in(true, q, k, b, positions, data, page)
}

// Writes the syndrome of a page.
pub fn syndrome(
    q: u32,
    k: u32,
    b: u32,
    positions: &[u16],
    page: &[u8],
    s: &mut [u8],
) -> Result<(), Refusal>
    ensures { record { number = answer result; left = s.new }
        ≡ syndrome_outcome (code_in bit_pages q k b positions.now) page.now s.old }
{
    page::syndrome_in(true, q, k, b, positions, page, s)
}

// Decodes a received page. The votes are taken by the ones of a word.
pub fn decode(
    q: u32,
    k: u32,
    b: u32,
    positions: &[u16],
    page: &[u8],
    thresholds: &[u8],
    res: &mut [u8],
    syndrome: &mut [u8],
    difference: &mut [u8],
    margins: &mut [i32],
) -> Result<Tally, Refusal>
    ensures outcome { record {
      number = answer result;
      left = record {
        state = state_by res.new syndrome.new difference.new;
        margins = margins.new;
        counts = counts_in result;
      };
    } ≡ decode_outcome (code_in bit_pages q k b positions.now) true page.now thresholds.now
        (state_by res.old syndrome.old difference.old) margins.old }
    ensures falling { answer result ≡ 0 → DecodeFalls (code_in bit_pages q k b positions.now) thresholds.now page.now
        (counts_in result) }
    ensures recovery { answer result ≡ 0 → DecodeRecovers (code_in bit_pages q k b positions.now) thresholds.now page.now
        res.new }
{
    let mut none = [0u8; 0];
    decoder::decode_blocks(
        true, true, q, k, b, positions, 1, page, thresholds, &mut none, res, syndrome, difference,
        margins,
    )
}

// Opens a received page: fills the result, S and D.
pub fn open(
    q: u32,
    k: u32,
    b: u32,
    positions: &[u16],
    page: &[u8],
    res: &mut [u8],
    syndrome: &mut [u8],
    difference: &mut [u8],
) -> Result<(), Refusal>
    ensures { record { number = answer result; left = state_by res.new syndrome.new difference.new }
        ≡ open_outcome (code_in bit_pages q k b positions.now) page.now
        (state_by res.old syndrome.old difference.old) }
{
    opener::open_in(true, q, k, b, positions, page, res, syndrome, difference)
}

// One pass with one threshold on the result, S and D.
pub fn pass(
    q: u32,
    k: u32,
    b: u32,
    positions: &[u16],
    threshold: u32,
    res: &mut [u8],
    syndrome: &mut [u8],
    difference: &mut [u8],
) -> Result<u32, Refusal>
    ensures outcome { record {
      number = answer result;
      left = record { state = state_by res.new syndrome.new difference.new; changes = result_unwrap_or result 0 };
    } ≡ pass_outcome (code_in bit_pages q k b positions.now) true threshold
        (state_by res.old syndrome.old difference.old) }
    ensures falling { OnOk result (PassFalls (code_in bit_pages q k b positions.now) threshold
        (state_by res.old syndrome.old difference.old)) }
{
    passing::pass_in(
        true, q, k, b, positions, threshold, res, syndrome, difference,
    )
}

// Explains a data symbol at a threshold, from the result, S and D, which are only read.
pub fn explain(
    q: u32,
    k: u32,
    b: u32,
    positions: &[u16],
    threshold: u32,
    symbol: u32,
    res: &[u8],
    syndrome: &[u8],
    difference: &[u8],
) -> Result<Told, Refusal>
    ensures { record { number = answer result; left = explained_of result } ≡ explain_outcome (code_in bit_pages q k b positions.now) true threshold symbol
        (state_by res.now syndrome.now difference.now) }
{
    let code = Params {
        q,
        k: k as usize,
        b: b as usize,
        bits: true,
    };
    explainer::explain_with(
        true, code, positions, threshold, symbol, res, syndrome, difference,
    )
}

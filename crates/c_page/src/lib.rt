// The C forms of the calls that need no buffer but for the positions of the table: the table check, encode, syndrome and open, in the
// profile of bit pages or of bytes, as `bits` says.
#![tactic(auto)]

ghost use Rattle.std.specs.Prelude.{◌≡◌, OnOk};
ghost use Rattle.model.specs.Code.{code_in};
ghost use Rattle.model.specs.Decoder.{state_by};
ghost use Rattle.model.specs.Calls.{table_answer, encode_outcome, syndrome_outcome, open_outcome};
ghost use Rattle.model.specs.Bytes.{positions_of};
ghost use Rattle.model.specs.Demand.{Encodes};
ghost use Rattle.params.specs.Codes.{profile_of};
ghost use Rattle.refusals.specs.Numbers.{answer};

use params::Params;
use refusals::Refusal;

// Checks a code table. A small table is read into a small buffer, which costs less to clear.
pub fn check_table(bits: bool, q: u32, k: u32, b: u32, table: &[u8]) -> Result<(), Refusal>
    ensures { answer result ≡ table_answer (code_in (profile_of bits) q k b (positions_of table.now)) }
{
    let code = Params {
        q,
        k: k as usize,
        b: b as usize,
        bits,
    };
    if table.len() <= 64 {
        let mut few = [0u16; 32];
        let n = position_bytes::read_positions(table, &mut few);
        return table::table_answer(code, &few[..n]);
    }
    let mut positions = [0u16; 256];
    let n = position_bytes::read_positions(table, &mut positions);
    table::table_answer(code, &positions[..n])
}

// Encodes data into a page. A small table is read into a small buffer, which costs less to clear.
pub fn encode(
    bits: bool,
    q: u32,
    k: u32,
    b: u32,
    table: &[u8],
    data: &[u8],
    page: &mut [u8],
) -> Result<(), Refusal>
    ensures outcome { record { number = answer result; left = page.new }
        ≡ encode_outcome (code_in (profile_of bits) q k b (positions_of table.now)) «data».now page.old }
    ensures word { OnOk result (Encodes (code_in (profile_of bits) q k b (positions_of table.now)) «data».now page.new) }
{
    if table.len() <= 64 {
        let mut few = [0u16; 32];
        let n = position_bytes::read_positions(table, &mut few);
        return page::encode_in(bits, q, k, b, &few[..n], data, page);
    }
    let mut positions = [0u16; 256];
    let n = position_bytes::read_positions(table, &mut positions);
    page::encode_in(bits, q, k, b, &positions[..n], data, page)
}

// Works out the syndrome of a page. A small table is read into a small buffer, which costs less to clear.
pub fn syndrome(
    bits: bool,
    q: u32,
    k: u32,
    b: u32,
    table: &[u8],
    page: &[u8],
    syndrome: &mut [u8],
) -> Result<(), Refusal>
    ensures { record { number = answer result; left = syndrome.new }
        ≡ syndrome_outcome (code_in (profile_of bits) q k b (positions_of table.now)) page.now syndrome.old }
{
    if table.len() <= 64 {
        let mut few = [0u16; 32];
        let n = position_bytes::read_positions(table, &mut few);
        return page::syndrome_in(bits, q, k, b, &few[..n], page, syndrome);
    }
    let mut positions = [0u16; 256];
    let n = position_bytes::read_positions(table, &mut positions);
    page::syndrome_in(bits, q, k, b, &positions[..n], page, syndrome)
}

// Opens a page. A small table is read into a small buffer, which costs less to clear.
pub fn open(
    bits: bool,
    q: u32,
    k: u32,
    b: u32,
    table: &[u8],
    page: &[u8],
    res: &mut [u8],
    syndrome: &mut [u8],
    difference: &mut [u8],
) -> Result<(), Refusal>
    ensures { record { number = answer result; left = state_by res.new syndrome.new difference.new }
        ≡ open_outcome (code_in (profile_of bits) q k b (positions_of table.now)) page.now
        (state_by res.old syndrome.old difference.old) }
{
    if table.len() <= 64 {
        let mut few = [0u16; 32];
        let n = position_bytes::read_positions(table, &mut few);
        return opener::open_in(bits, q, k, b, &few[..n], page, res, syndrome, difference);
    }
    let mut positions = [0u16; 256];
    let n = position_bytes::read_positions(table, &mut positions);
    opener::open_in(
        bits,
        q,
        k,
        b,
        &positions[..n],
        page,
        res,
        syndrome,
        difference,
    )
}

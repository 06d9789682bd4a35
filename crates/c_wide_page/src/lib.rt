// The C forms of the calls on wide symbols that vote on nothing: the table check, encode, syndrome and open. Lengths are tested by the number of
// symbols that the bytes stand for.
#![tactic(auto)]

ghost use Rattle.std.specs.Prelude.{◌≡◌, ◌≤◌};
ghost use Rattle.model.specs.Code.{wide_code};
ghost use Rattle.model.specs.Decoder.{state_by};
ghost use Rattle.model.specs.Calls.{table_answer};
ghost use Rattle.model.specs.Bytes.{symbol_size, symbols_of, positions_of, wide_encode_outcome, wide_syndrome_outcome, wide_open_outcome};
ghost use Rattle.model.specs.Demand.{Encodes};
ghost use Rattle.refusals.specs.Numbers.{answer};
ghost use Rattle.wide_symbols.specs.Codes.{wide_code_by};

use params::Params;
use refusals::Refusal;
use wide_buffers::SmallSymbol;
use wide_symbols::WideSymbol;

// Checks a code table. A small table is read into a small buffer, which costs less to clear.
pub fn check_table<S: WideSymbol>(k: u32, b: u32, table: &[u8]) -> Result<(), Refusal>
    ensures { answer result ≡ table_answer (wide_code S.profile k b (positions_of table.now)) }
{
    let code = Params {
        q: 256,
        k: k as usize,
        b: b as usize,
        bits: false,
    };
    if table.len() <= 64 {
        let mut few = [0u16; 32];
        let n = position_bytes::read_positions(table, &mut few);
        return wide_answers::table_answer::<S>(code, &few[..n]);
    }
    let mut positions = [0u16; 256];
    let n = position_bytes::read_positions(table, &mut positions);
    wide_answers::table_answer::<S>(code, &positions[..n])
}

// Encodes data into a page, with the positions read.
fn encode_with<S: SmallSymbol>(
    code: Params,
    positions: &[u16],
    data: &[u8],
    page: &mut [u8],
) -> Result<(), Refusal>
    requires { (code.k ≤ 4294967295) × (code.b ≤ 4294967295) }
    ensures outcome { record { number = answer result; left = page.new }
        ≡ wide_encode_outcome (wide_code_by S.profile code positions.now) «data».now page.old }
    ensures word { answer result ≡ 0 → Encodes (wide_code_by S.profile code positions.now) (symbols_of (symbol_size S.profile) «data».now)
        (symbols_of (symbol_size S.profile) page.new) }
{
    let n = params::data_count(code);
    let sent = wide_bytes::count::<S>(data);
    let whole = wide_bytes::count::<S>(page);
    let fits = lengths::two_fit(sent, n, whole, n + code.k);
    wide_answers::page_answer::<S>(code, positions, fits)?;
    c_wide_checks::encode_into::<S>(code, positions, data, page);
    Ok(())
}

// Encodes data into a page.
pub fn encode<S: SmallSymbol>(
    k: u32,
    b: u32,
    table: &[u8],
    data: &[u8],
    page: &mut [u8],
) -> Result<(), Refusal>
    ensures outcome { record { number = answer result; left = page.new }
        ≡ wide_encode_outcome (wide_code S.profile k b (positions_of table.now)) «data».now page.old }
    ensures word { answer result ≡ 0 → Encodes (wide_code S.profile k b (positions_of table.now)) (symbols_of (symbol_size S.profile) «data».now)
        (symbols_of (symbol_size S.profile) page.new) }
{
    let code = Params {
        q: 256,
        k: k as usize,
        b: b as usize,
        bits: false,
    };
    if table.len() <= 64 {
        let mut few = [0u16; 32];
        let n = position_bytes::read_positions(table, &mut few);
        return encode_with::<S>(code, &few[..n], data, page);
    }
    let mut positions = [0u16; 256];
    let n = position_bytes::read_positions(table, &mut positions);
    encode_with::<S>(code, &positions[..n], data, page)
}

// Works out the syndrome of a page, with the positions read.
fn syndrome_with<S: SmallSymbol>(
    code: Params,
    positions: &[u16],
    page: &[u8],
    s: &mut [u8],
) -> Result<(), Refusal>
    requires { (code.k ≤ 4294967295) × (code.b ≤ 4294967295) }
    ensures { record { number = answer result; left = s.new }
        ≡ wide_syndrome_outcome (wide_code_by S.profile code positions.now) page.now s.old }
{
    let n = params::data_count(code);
    let whole = wide_bytes::count::<S>(page);
    let checks = wide_bytes::count::<S>(s);
    let fits = lengths::two_fit(whole, n + code.k, checks, code.k);
    wide_answers::page_answer::<S>(code, positions, fits)?;
    c_wide_checks::syndrome_into::<S>(code, positions, page, s);
    Ok(())
}

// Works out the syndrome of a page.
pub fn syndrome<S: SmallSymbol>(
    k: u32,
    b: u32,
    table: &[u8],
    page: &[u8],
    syndrome: &mut [u8],
) -> Result<(), Refusal>
    ensures { record { number = answer result; left = syndrome.new }
        ≡ wide_syndrome_outcome (wide_code S.profile k b (positions_of table.now)) page.now syndrome.old }
{
    let code = Params {
        q: 256,
        k: k as usize,
        b: b as usize,
        bits: false,
    };
    if table.len() <= 64 {
        let mut few = [0u16; 32];
        let n = position_bytes::read_positions(table, &mut few);
        return syndrome_with::<S>(code, &few[..n], page, syndrome);
    }
    let mut positions = [0u16; 256];
    let n = position_bytes::read_positions(table, &mut positions);
    syndrome_with::<S>(code, &positions[..n], page, syndrome)
}

// Opens a page, with the positions read.
fn open_with<S: SmallSymbol>(
    code: Params,
    positions: &[u16],
    page: &[u8],
    res: &mut [u8],
    s: &mut [u8],
    d: &mut [u8],
) -> Result<(), Refusal>
    requires { (code.k ≤ 4294967295) × (code.b ≤ 4294967295) }
    ensures { record { number = answer result; left = state_by res.new s.new d.new }
        ≡ wide_open_outcome (wide_code_by S.profile code positions.now) page.now (state_by res.old s.old d.old) }
{
    let n = params::data_count(code);
    let whole = wide_bytes::count::<S>(page);
    let sent = wide_bytes::count::<S>(res);
    let checks = wide_bytes::count::<S>(s);
    let differences = wide_bytes::count::<S>(d);
    let fits = lengths::decode_fits(true, n, code.k, whole, sent, checks, differences);
    wide_answers::page_answer::<S>(code, positions, fits)?;
    c_wide_checks::open_into::<S>(code, positions, page, res, s, d);
    Ok(())
}

// Opens a page.
pub fn open<S: SmallSymbol>(
    k: u32,
    b: u32,
    table: &[u8],
    page: &[u8],
    res: &mut [u8],
    syndrome: &mut [u8],
    difference: &mut [u8],
) -> Result<(), Refusal>
    ensures { record { number = answer result; left = state_by res.new syndrome.new difference.new }
        ≡ wide_open_outcome (wide_code S.profile k b (positions_of table.now)) page.now
        (state_by res.old syndrome.old difference.old) }
{
    let code = Params {
        q: 256,
        k: k as usize,
        b: b as usize,
        bits: false,
    };
    if table.len() <= 64 {
        let mut few = [0u16; 32];
        let n = position_bytes::read_positions(table, &mut few);
        return open_with::<S>(code, &few[..n], page, res, syndrome, difference);
    }
    let mut positions = [0u16; 256];
    let n = position_bytes::read_positions(table, &mut positions);
    open_with::<S>(code, &positions[..n], page, res, syndrome, difference)
}

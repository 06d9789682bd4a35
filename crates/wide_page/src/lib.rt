// The calls on pages of wide symbols that vote on nothing: the table check, encode, syndrome and open. They take no q, and that of `Params`
// is not read: every symbol is below the one of its profile.
#![tactic(auto)]

ghost use Rattle.std.specs.Prelude.{◌≡◌, true, OnOk};
ghost use Rattle.model.specs.Code.{wide_code};
ghost use Rattle.model.specs.Decoder.{state_by};
ghost use Rattle.model.specs.Calls.{table_answer, encode_outcome, syndrome_outcome, open_outcome};
ghost use Rattle.model.specs.Demand.{Encodes};
ghost use Rattle.refusals.specs.Numbers.{answer};

use params::Params;
use refusals::Refusal;
use wide_symbols::WideSymbol;

// Checks a code table.
pub fn check_table<S: WideSymbol>(k: u32, b: u32, positions: &[u16]) -> Result<(), Refusal>
    ensures { answer result ≡ table_answer (wide_code S.profile k b positions.now) }
{
    let code = Params {
        q: 256,
        k: k as usize,
        b: b as usize,
        bits: false,
    };
    wide_answers::table_answer::<S>(code, positions)
}

// Writes the page of the data.
pub fn encode<S: WideSymbol>(
    k: u32,
    b: u32,
    positions: &[u16],
    data: &[S],
    page: &mut [S],
) -> Result<(), Refusal>
    ensures outcome { record { number = answer result; left = S.numbers page.new }
        ≡ encode_outcome (wide_code S.profile k b positions.now) (S.numbers «data».now) (S.numbers page.old) }
    ensures word { OnOk result (Encodes (wide_code S.profile k b positions.now) (S.numbers «data».now) (S.numbers page.new)) }
{
    let code = Params {
        q: 256,
        k: k as usize,
        b: b as usize,
        bits: false,
    };
    let n = params::data_count(code);
    let fits = lengths::two_fit(data.len(), n, page.len(), n + code.k);
    S::all_below(data);
    wide_answers::page_answer::<S>(code, positions, fits)?;
    let end = data.len();
    wide_symbols::copy_into(&mut page[..end], data);
    wide_codeword::write_checks(code, positions, data, &mut page[end..]);
    Ok(())
}

// Writes the syndrome of a page.
pub fn syndrome<S: WideSymbol>(
    k: u32,
    b: u32,
    positions: &[u16],
    page: &[S],
    s: &mut [S],
) -> Result<(), Refusal>
    ensures { record { number = answer result; left = S.numbers s.new }
        ≡ syndrome_outcome (wide_code S.profile k b positions.now) (S.numbers page.now) (S.numbers s.old) }
{
    let code = Params {
        q: 256,
        k: k as usize,
        b: b as usize,
        bits: false,
    };
    let n = params::data_count(code);
    let fits = lengths::two_fit(page.len(), n + code.k, s.len(), code.k);
    S::all_below(page);
    wide_answers::page_answer::<S>(code, positions, fits)?;
    wide_symbols::copy_into(s, &page[n..]);
    wide_codeword::write_syndrome(code, positions, &page[..n], s);
    Ok(())
}

// Opens a received page: fills the result, S and D.
pub fn open<S: WideSymbol>(
    k: u32,
    b: u32,
    positions: &[u16],
    page: &[S],
    res: &mut [S],
    syndrome: &mut [S],
    difference: &mut [S],
) -> Result<(), Refusal>
    ensures { record { number = answer result; left = state_by (S.numbers res.new) (S.numbers syndrome.new) (S.numbers difference.new) }
        ≡ open_outcome (wide_code S.profile k b positions.now) (S.numbers page.now)
        (state_by (S.numbers res.old) (S.numbers syndrome.old) (S.numbers difference.old)) }
{
    let code = Params {
        q: 256,
        k: k as usize,
        b: b as usize,
        bits: false,
    };
    let n = params::data_count(code);
    let fits = lengths::decode_fits(
        true,
        n,
        code.k,
        page.len(),
        res.len(),
        syndrome.len(),
        difference.len(),
    );
    S::all_below(page);
    wide_answers::page_answer::<S>(code, positions, fits)?;
    wide_correction::load_page(page, res, syndrome);
    wide_correction::open_state(code, positions, res, syndrome, difference);
    Ok(())
}

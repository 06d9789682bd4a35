// The calls encode and syndrome: the tests, then the writing of a page or of a syndrome.
#![tactic(auto)]

ghost use Rattle.std.specs.Prelude.{◌≡◌, OnOk};
ghost use Rattle.model.specs.Code.{code_in, code_of};
ghost use Rattle.model.specs.Calls.{encode_outcome, syndrome_outcome};
ghost use Rattle.model.specs.Demand.{Encodes};
ghost use Rattle.params.specs.Codes.{profile_of};
ghost use Rattle.refusals.specs.Numbers.{answer};

use params::Params;
use refusals::Refusal;

// Writes the page of the data, in the profile of bit pages or of bytes.
#[tactic(auto, using(refusals::specs::Numbers::not_zero), unfolding(model::specs::Calls::encode_outcome, model::specs::Calls::encode_answer, model::specs::Calls::outcome))]
pub fn encode_in(
    bits: bool,
    q: u32,
    k: u32,
    b: u32,
    positions: &[u16],
    data: &[u8],
    page: &mut [u8],
) -> Result<(), Refusal>
    ensures outcome { record { number = answer result; left = page.new }
        ≡ encode_outcome (code_in (profile_of bits) q k b positions.now) «data».now page.old }
    ensures word { OnOk result (Encodes (code_in (profile_of bits) q k b positions.now) «data».now page.new) }
{
    let code = Params {
        q,
        k: k as usize,
        b: b as usize,
        bits,
    };
    let n = params::data_count(code);
    let fits = lengths::two_fit(data.len(), n, page.len(), n + code.k);
    answers::page_answer(code, positions, fits, data)?;
    let end = data.len();
    slices::copy_into(&mut page[..end], data);
    let checks = &mut page[end..];
    codeword::first_row(code, positions, data, checks);
    codeword::add_branches(code, positions, data, checks);
    Ok(())
}

// Writes the page of the data.
pub fn encode(
    q: u32,
    k: u32,
    b: u32,
    positions: &[u16],
    data: &[u8],
    page: &mut [u8],
) -> Result<(), Refusal>
    ensures outcome { record { number = answer result; left = page.new }
        ≡ encode_outcome (code_of q k b positions.now) «data».now page.old }
    ensures word { OnOk result (Encodes (code_of q k b positions.now) «data».now page.new) }
{
    encode_in(false, q, k, b, positions, data, page)
}

// Writes the syndrome of a page, in the profile of bit pages or of bytes.
pub fn syndrome_in(
    bits: bool,
    q: u32,
    k: u32,
    b: u32,
    positions: &[u16],
    page: &[u8],
    s: &mut [u8],
) -> Result<(), Refusal>
    ensures { record { number = answer result; left = s.new }
        ≡ syndrome_outcome (code_in (profile_of bits) q k b positions.now) page.now s.old }
{
    let code = Params {
        q,
        k: k as usize,
        b: b as usize,
        bits,
    };
    let n = params::data_count(code);
    let fits = lengths::two_fit(page.len(), n + code.k, s.len(), code.k);
    answers::page_answer(code, positions, fits, page)?;
    codeword::write_syndrome(code, positions, page, s);
    Ok(())
}

// Writes the syndrome of a page.
pub fn syndrome(
    q: u32,
    k: u32,
    b: u32,
    positions: &[u16],
    page: &[u8],
    s: &mut [u8],
) -> Result<(), Refusal>
    ensures { record { number = answer result; left = s.new }
        ≡ syndrome_outcome (code_of q k b positions.now) page.now s.old }
{
    syndrome_in(false, q, k, b, positions, page, s)
}

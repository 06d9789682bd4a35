// The call open: what decode starts from, for a caller who runs the passes one by one.
#![tactic(auto)]

ghost use Rattle.std.specs.Prelude.{◌≡◌};
ghost use Rattle.model.specs.Code.{code_in, code_of};
ghost use Rattle.model.specs.Decoder.{state_by};
ghost use Rattle.model.specs.Calls.{open_outcome};
ghost use Rattle.params.specs.Codes.{profile_of};
ghost use Rattle.refusals.specs.Numbers.{answer};

use params::Params;
use refusals::Refusal;

// Opens a received page: fills the result, S and D, in the profile of bit pages or of bytes.
#[tactic(auto, using(refusals::specs::Numbers::not_zero), unfolding(model::specs::Calls::open_outcome, model::specs::Calls::open_answer, model::specs::Calls::outcome))]
pub fn open_in(
    bits: bool,
    q: u32,
    k: u32,
    b: u32,
    positions: &[u16],
    page: &[u8],
    res: &mut [u8],
    syndrome: &mut [u8],
    difference: &mut [u8],
) -> Result<(), Refusal>
    ensures { record { number = answer result; left = state_by res.new syndrome.new difference.new }
        ≡ open_outcome (code_in (profile_of bits) q k b positions.now) page.now
        (state_by res.old syndrome.old difference.old) }
{
    let code = Params {
        q,
        k: k as usize,
        b: b as usize,
        bits,
    };
    let n = params::data_count(code);
    let fits = lengths::decode_fits(
        true,
        n,
        code.k,
        page.len(),
        res.len(),
        syndrome.len(),
        difference.len(),
    );
    answers::page_answer(code, positions, fits, page)?;
    opening::open_page(code, positions, page, res, syndrome, difference);
    Ok(())
}

// Opens a received page: fills the result, S and D.
pub fn open(
    q: u32,
    k: u32,
    b: u32,
    positions: &[u16],
    page: &[u8],
    res: &mut [u8],
    syndrome: &mut [u8],
    difference: &mut [u8],
) -> Result<(), Refusal>
    ensures { record { number = answer result; left = state_by res.new syndrome.new difference.new }
        ≡ open_outcome (code_of q k b positions.now) page.now (state_by res.old syndrome.old difference.old) }
{
    open_in(false, q, k, b, positions, page, res, syndrome, difference)
}

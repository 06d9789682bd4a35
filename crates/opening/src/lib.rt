// The opening of a received page: what stands in the result, S and D before the first visit.
#![tactic(auto)]

ghost use Rattle.std.specs.Prelude.{◌≡◌};
ghost use Rattle.model.specs.Decoder.{state_by, opened, distance_to};
ghost use Rattle.params.specs.Codes.{code_by};
ghost use Rattle.theory.specs.Answers.{Opens};

use params::Params;

// Opens a page: the result starts as the received data, S as the syndrome, D as zeros. Hands back the distance at the start.
pub fn open_page(
    code: Params,
    positions: &[u16],
    page: &[u8],
    res: &mut [u8],
    s: &mut [u8],
    d: &mut [u8],
) -> u32
    requires { Opens (code_by code positions.now) page.now (state_by res.old s.old d.old) }
    ensures state { state_by res.new s.new d.new
        ≡ opened (code_by code positions.now) page.now }
    ensures distance { result
        ≡ distance_to (code_by code positions.now) page.now (opened (code_by code positions.now) page.now) }
{
    let n = params::data_count(code);
    slices::copy_into(res, &page[..n]);
    codeword::write_syndrome(code, positions, page, s);
    slices::clear(d);
    slices::weight_of(s)
}

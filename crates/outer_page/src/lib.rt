// The call encode in blocks: the tests, then the page of the data, and in it the outer check of each block.
#![tactic(auto)]

ghost use Rattle.std.specs.Prelude.{◌≡◌, ◌<◌, ◌≤◌, get_or, set, OnOk};
ghost use Rattle.model.specs.Code.{code_of, data_count, code_word, data_of};
ghost use Rattle.model.specs.Outer.{outer_word};
ghost use Rattle.model.specs.Calls.{encode_outer_outcome};
ghost use Rattle.model.specs.Demand.{EncodesOuter};
ghost use Rattle.model.specs.Symbols.{sub};
ghost use Rattle.theory.specs.Answers.{BlockFits};
ghost use Rattle.theory.specs.Codes.{Usable};
ghost use Rattle.theory.specs.Steps.{SymbolsBelow};
ghost use Rattle.params.specs.Codes.{code_by};
ghost use Rattle.refusals.specs.Numbers.{answer};
ghost use Rattle.outer_page.specs.Words.{IsWord};

use params::Params;
use refusals::Refusal;

// h subtracted from a data symbol of a page and from its checks, which leaves a code word.
fn subtract_symbol(code: Params, positions: &[u16], symbol: usize, h: u8, page: &mut [u8])
    requires { Usable (code_by code positions.now)
        × (code.q ≤ 256)
        × IsWord (code_by code positions.now) page.old
        × (symbol < data_count (code_by code positions.now))
        × (h < code.q) }
    ensures { page.new ≡ code_word (code_by code positions.now)
        (set (data_of (code_by code positions.now) page.old) symbol
        (sub code.q (get_or (data_of (code_by code positions.now) page.old) symbol 0) h)) }
{
    let n = params::data_count(code);
    let place = checks::place_of(code, params::checks_each(code, positions.len()), symbol);
    let first = place.first;
    let last = place.last;
    let index = symbol - place.start;
    let x = symbols::sub_mod(code.q, page[symbol], h);
    checks::subtract_at(code, &positions[first..last], index, h, &mut page[n..]);
    page[symbol] = x;
}

// In a page of the data, each block's sum subtracted from its last symbol, which is the block's outer check then.
fn write_outer_checks(code: Params, positions: &[u16], block: usize, data: &[u8], page: &mut [u8])
    requires { Usable (code_by code positions.now)
        × (code.q ≤ 256)
        × BlockFits (code_by code positions.now) block
        × SymbolsBelow code.q (data_count (code_by code positions.now)) «data».now
        × (page.old ≡ code_word (code_by code positions.now) «data».now) }
    ensures { page.new
        ≡ code_word (code_by code positions.now) (outer_word (code_by code positions.now) block «data».now) }
{
    let bound = blocks::bound_of(code.q, block);
    let mut at = 0;
    for part in data.chunks(block) {
        let sum = blocks::sum_of(code.q, bound, part);
        at += block;
        subtract_symbol(code, positions, at - 1, sum, page);
    }
}

// Writes the page of the data in blocks, each with an outer check.
#[tactic(auto, using(refusals::specs::Numbers::not_zero), unfolding(model::specs::Calls::encode_outer_outcome, model::specs::Calls::encode_outer_answer, model::specs::Calls::outcome))]
pub fn encode_outer(
    q: u32,
    k: u32,
    b: u32,
    positions: &[u16],
    block: u32,
    data: &[u8],
    page: &mut [u8],
) -> Result<(), Refusal>
    ensures outcome { record { number = answer result; left = page.new }
        ≡ encode_outer_outcome (code_of q k b positions.now) block «data».now page.old }
    ensures word { OnOk result (EncodesOuter (code_of q k b positions.now) block «data».now page.new) }
{
    let code = Params {
        q,
        k: k as usize,
        b: b as usize,
        bits: false,
    };
    let n = params::data_count(code);
    let fits = lengths::two_fit(data.len(), n, page.len(), n + code.k);
    answers::encode_outer_answer(code, positions, block as usize, fits, data)?;
    let end = data.len();
    slices::copy_into(&mut page[..end], data);
    let checks = &mut page[end..];
    codeword::first_row(code, positions, data, checks);
    codeword::add_branches(code, positions, data, checks);
    write_outer_checks(code, positions, block as usize, data, page);
    Ok(())
}

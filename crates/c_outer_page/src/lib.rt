// The C form of encode in blocks, which reads the positions of the table.
#![tactic(auto)]

ghost use Rattle.std.specs.Prelude.{◌≡◌, OnOk};
ghost use Rattle.model.specs.Code.{code_of};
ghost use Rattle.model.specs.Calls.{encode_outer_outcome};
ghost use Rattle.model.specs.Bytes.{positions_of};
ghost use Rattle.model.specs.Demand.{EncodesOuter};
ghost use Rattle.refusals.specs.Numbers.{answer};

use refusals::Refusal;

// Encodes data in blocks, each with an outer check. A small table is read into a small buffer, which costs less to clear.
pub fn encode_outer(
    q: u32,
    k: u32,
    b: u32,
    table: &[u8],
    block: u32,
    data: &[u8],
    page: &mut [u8],
) -> Result<(), Refusal>
    ensures outcome { record { number = answer result; left = page.new }
        ≡ encode_outer_outcome (code_of q k b (positions_of table.now)) block «data».now page.old }
    ensures word { OnOk result (EncodesOuter (code_of q k b (positions_of table.now)) block «data».now page.new) }
{
    if table.len() <= 64 {
        let mut few = [0u16; 32];
        let n = position_bytes::read_positions(table, &mut few);
        return outer_page::encode_outer(q, k, b, &few[..n], block, data, page);
    }
    let mut positions = [0u16; 256];
    let n = position_bytes::read_positions(table, &mut positions);
    outer_page::encode_outer(q, k, b, &positions[..n], block, data, page)
}

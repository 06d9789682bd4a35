// The call decode_outer.
#![tactic(auto)]

ghost use Rattle.std.specs.Prelude.{◌≡◌};
ghost use Rattle.model.specs.Code.{code_of};
ghost use Rattle.model.specs.Decoder.{state_by};
ghost use Rattle.model.specs.Calls.{decode_outer_outcome};
ghost use Rattle.model.specs.Demand.{OuterFalls, OuterRecovers};
ghost use Rattle.refusals.specs.Numbers.{answer};
ghost use Rattle.tally.specs.Counts.{counts_in};

pub use refusals::Refusal;
pub use tally::Tally;

// Decodes a received page whose data was sent in blocks with an outer check: the passes, then the outer steps, and the margins after
// them.
pub fn decode_outer(
    q: u32,
    k: u32,
    b: u32,
    positions: &[u16],
    block: u32,
    page: &[u8],
    thresholds: &[u8],
    res: &mut [u8],
    syndrome: &mut [u8],
    difference: &mut [u8],
    margins: &mut [i32],
) -> Result<Tally, Refusal>
    ensures outcome { record {
      number = answer result;
      left = record {
        state = state_by res.new syndrome.new difference.new;
        margins = margins.new;
        counts = counts_in result;
      };
    } ≡ decode_outer_outcome (code_of q k b positions.now) block page.now thresholds.now
        (state_by res.old syndrome.old difference.old) margins.old }
    ensures falling { answer result ≡ 0 → OuterFalls (code_of q k b positions.now) block thresholds.now page.now
        (counts_in result) }
    ensures recovery { answer result ≡ 0 → OuterRecovers (code_of q k b positions.now) block thresholds.now page.now res.new
        (counts_in result) }
{
    let length = blocks::length_of(block);
    let mut none = [0u8; 0];
    decoder::decode_blocks(
        true, false, q, k, b, positions, length, page, thresholds, &mut none, res, syndrome,
        difference, margins,
    )
}

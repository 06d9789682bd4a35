// The correction of a page in blocks, for every form of decode: the passes, then the outer steps where the passes leave a distance.
#![tactic(auto)]

ghost use Rattle.std.specs.Prelude.{◌≡◌, ◌≢◌, length};
ghost use Rattle.model.specs.Code.{data_count};
ghost use Rattle.model.specs.Decoder.{state_by};
ghost use Rattle.params.specs.Codes.{code_by};
ghost use Rattle.theory.specs.Answers.{Taken};
ghost use Rattle.theory.specs.Counters.{Clear};
ghost use Rattle.theory.specs.InBlocks.{Blocks};
ghost use Rattle.visits.specs.Progress.{progress};
ghost use Rattle.zeros.specs.Counts.{zero_counts};
ghost use Rattle.outer_correction.specs.Corrected.{corrected};

use params::Params;
use tally::Tally;

// Corrects a page that was tested. Where the passes leave no distance no block has a step, whatever it sums to; blocks of 1, which are
// those of decode, have none.
// zeros has one byte a data symbol, all zero; afterwards, where the distance at the end is not 0, the zeros at the checks of each.
// counters are 256 for a vote by them, or none, and all zero; `bits`, the code's, is handed down by itself.
pub fn correct_page(
    bits: bool,
    code: Params,
    positions: &[u16],
    block: usize,
    page: &[u8],
    thresholds: &[u8],
    zeros: &mut [u8],
    counters: &mut [u8],
    res: &mut [u8],
    s: &mut [u8],
    d: &mut [u8],
) -> Tally
    requires { Taken (code_by code positions.now) page.now thresholds.now (state_by res.old s.old d.old)
        × Blocks (code_by code positions.now) block
        × (length zeros.old ≡ data_count (code_by code positions.now))
        × Clear zeros.old
        × Clear counters.old
        × (bits ≡ code.bits) }
    ensures done { progress res.new s.new d.new result
        ≡ corrected (code_by code positions.now) block thresholds.now page.now }
    ensures counted { result.end ≢ 0 → zeros.new ≡ zero_counts (code_by code positions.now) s.new }
    ensures kept { counters.new ≡ counters.old }
{
    let ran = correction::decode_page(
        bits, code, positions, page, thresholds, zeros, counters, res, s, d,
    );
    if ran.end != 0 {
        if block != 1 {
            let steps = outer_steps::outer_steps(code, positions, block, res, s, d);
            if steps != 0 {
                slices::clear(zeros);
                zeros::count_zeros(code, positions, s, zeros);
                let end = correction::state_weight(d, s);
                return ran.changed_by(steps).ended(end);
            }
        }
    }
    ran
}

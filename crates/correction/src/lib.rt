// The correction of a page that was tested: the page is opened, the passes are run, and the distance at the end is counted.
#![tactic(auto)]

ghost use Rattle.std.specs.Prelude.{◌≡◌, ◌≢◌, ◌+◌, ◌≤◌, length};
ghost use Rattle.model.specs.Symbols.{weight};
ghost use Rattle.model.specs.Code.{data_count};
ghost use Rattle.model.specs.Decoder.{state_by};
ghost use Rattle.params.specs.Codes.{code_by};
ghost use Rattle.theory.specs.Answers.{Taken};
ghost use Rattle.theory.specs.Counters.{Clear};
ghost use Rattle.visits.specs.Progress.{progress};
ghost use Rattle.zeros.specs.Counts.{zero_counts};
ghost use Rattle.correction.specs.Decoded.{decoded};

use params::Params;
use tally::Tally;

// The number of nonzero symbols of D and S together.
pub fn state_weight(d: &[u8], s: &[u8]) -> u32
    requires { (length d.now ≤ 4096) × (length s.now ≤ 4096) }
    ensures { result ≡ weight d.now + weight s.now }
{
    slices::weight_of(d) + slices::weight_of(s)
}

// Decodes a page that was tested. A page at distance 0 needs no visit to know that its passes are idle.
// zeros has one byte a data symbol, all zero; afterwards, where the distance at the end is not 0, the zeros at the checks of each.
// counters are 256 for a vote by them, or none, and all zero; `bits`, the code's, is handed down by itself.
pub fn decode_page(
    bits: bool,
    code: Params,
    positions: &[u16],
    page: &[u8],
    thresholds: &[u8],
    zeros: &mut [u8],
    counters: &mut [u8],
    res: &mut [u8],
    s: &mut [u8],
    d: &mut [u8],
) -> Tally
    requires { Taken (code_by code positions.now) page.now thresholds.now (state_by res.old s.old d.old)
        × (length zeros.old ≡ data_count (code_by code positions.now))
        × Clear zeros.old
        × Clear counters.old
        × (bits ≡ code.bits) }
    ensures done { progress res.new s.new d.new result
        ≡ decoded (code_by code positions.now) thresholds.now page.now }
    ensures counted { result.end ≢ 0 → zeros.new ≡ zero_counts (code_by code positions.now) s.new }
    ensures kept { counters.new ≡ counters.old }
{
    let start = opening::open_page(code, positions, page, res, s, d);
    if start == 0 {
        let idle = schedule::idle_passes(thresholds);
        return Tally::opened(0).passed(idle);
    }
    let opened = Tally::opened(start);
    let ran = passes::run(
        bits, code, positions, thresholds, res, s, d, zeros, counters, opened,
    );
    ran.ended(state_weight(d, s))
}

// A visit to one data symbol by its number, without kept zeros.
#![tactic(auto)]

ghost use Rattle.std.specs.Prelude.{◌≡◌, ◌<◌};
ghost use Rattle.model.specs.Code.{data_count};
ghost use Rattle.model.specs.Decoder.{state_by};
ghost use Rattle.params.specs.Codes.{code_by};
ghost use Rattle.visits.specs.Progress.{progress, Ready, visit_of};

use params::Params;
use tally::Tally;

// A visit to a data symbol with one threshold: its estimates are gathered, and the vote over them decides.
pub fn visit_symbol(
    code: Params,
    positions: &[u16],
    symbol: usize,
    threshold: u8,
    res: &mut [u8],
    syndrome: &mut [u8],
    difference: &mut [u8],
    tally: Tally,
) -> Tally
    requires { Ready (code_by code positions.now) (state_by res.old syndrome.old difference.old)
        × (symbol < data_count (code_by code positions.now))
        × (tally.changes < 4294967295) }
    ensures { progress res.new syndrome.new difference.new result
        ≡ visit_of (code_by code positions.now) (record { symbol = symbol; threshold = threshold })
        (progress res.old syndrome.old difference.old tally) }
{
    let each = params::checks_each(code, positions.len());
    let n = each + 1;
    let mut es = [0u8; 33];
    checks::gather_symbol(code, positions, symbol, syndrome, difference, &mut es[..n]);
    let mut none = [0u8; 0];
    let h = visits::decided(&es[..n], threshold, &mut none);
    if h == 0 {
        return tally;
    }
    let place = checks::place_of(code, each, symbol);
    visits::change_at(code, positions, place, h, res, syndrome, difference);
    tally.changed()
}

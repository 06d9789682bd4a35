// The call decode on wide symbols. It takes no q, and that of `Params` is not read.
#![tactic(auto)]

ghost use Rattle.std.specs.Prelude.{◌≡◌, true, ◌*◌, ◌≤◌};
ghost use Rattle.model.specs.Code.{wide_code};
ghost use Rattle.model.specs.Decoder.{state_by};
ghost use Rattle.model.specs.Calls.{decode_outcome};
ghost use Rattle.model.specs.Demand.{DecodeFalls, DecodeRecovers};
ghost use Rattle.refusals.specs.Numbers.{answer};
ghost use Rattle.tally.specs.Counts.{counts_in};
ghost use Rattle.wide_symbols.specs.Codes.{wide_code_by};

use params::Params;
pub use refusals::Refusal;
pub use tally::Tally;
use wide_symbols::WideSymbol;

// Decode with buffers for N data symbols.
fn decode_within<S: WideSymbol, const N: usize>(
    code: Params,
    positions: &[u16],
    page: &[S],
    thresholds: &[u8],
    res: &mut [S],
    syndrome: &mut [S],
    difference: &mut [S],
    margins: &mut [i32],
) -> Result<Tally, Refusal>
    requires { (code.k ≤ 4294967295) × (code.b ≤ 4294967295) × (code.b * code.k ≤ 4096 → code.b * code.k ≤ N) × (N ≤ 4096) }
    ensures { record {
      number = answer result;
      left = record {
        state = state_by (S.numbers res.new) (S.numbers syndrome.new) (S.numbers difference.new);
        margins = margins.new;
        counts = counts_in result;
      };
    } ≡ decode_outcome (wide_code_by S.profile code positions.now) true (S.numbers page.now) thresholds.now
        (state_by (S.numbers res.old) (S.numbers syndrome.old) (S.numbers difference.old)) margins.old }
{
    let mut zeros = [0u8; N];
    let mut marks = [0u8; N];
    wide_receiver::decode_into(
        code, positions, page, thresholds, &mut zeros, &mut marks, res, syndrome, difference,
        margins,
    )
}

// Decodes a received page. A small code clears small buffers.
pub fn decode<S: WideSymbol>(
    k: u32,
    b: u32,
    positions: &[u16],
    page: &[S],
    thresholds: &[u8],
    res: &mut [S],
    syndrome: &mut [S],
    difference: &mut [S],
    margins: &mut [i32],
) -> Result<Tally, Refusal>
    ensures outcome { record {
      number = answer result;
      left = record {
        state = state_by (S.numbers res.new) (S.numbers syndrome.new) (S.numbers difference.new);
        margins = margins.new;
        counts = counts_in result;
      };
    } ≡ decode_outcome (wide_code S.profile k b positions.now) true (S.numbers page.now) thresholds.now
        (state_by (S.numbers res.old) (S.numbers syndrome.old) (S.numbers difference.old)) margins.old }
    ensures falling { answer result ≡ 0 → DecodeFalls (wide_code S.profile k b positions.now) thresholds.now (S.numbers page.now)
        (counts_in result) }
    ensures recovery { answer result ≡ 0 → DecodeRecovers (wide_code S.profile k b positions.now) thresholds.now (S.numbers page.now) (S.numbers res.new) }
{
    let code = Params {
        q: 256,
        k: k as usize,
        b: b as usize,
        bits: false,
    };
    if params::data_count(code) <= 128 {
        return decode_within::<S, 128>(
            code, positions, page, thresholds, res, syndrome, difference, margins,
        );
    }
    decode_within::<S, 4096>(
        code, positions, page, thresholds, res, syndrome, difference, margins,
    )
}

// Which thresholds of the list are taken: the first smaller one after an idle pass, and how many passes are run where every one is idle.
#![tactic(auto)]

ghost use Rattle.std.specs.Prelude.{◌≡◌, ◌≤◌, length, drop};
ghost use Rattle.model.specs.Decoder.{none, first_smaller};
ghost use Rattle.theory.specs.Schedule.{minima};

// The place of the first threshold from `from` on that is smaller than `threshold`, and the end of the list where there is none.
#[tactic(auto, using(crate::specs::Thresholds::smaller_here, crate::specs::Thresholds::smaller_later, crate::specs::Thresholds::smaller_none))]
pub fn next_smaller(thresholds: &[u8], from: usize, threshold: u8) -> usize
    requires { from ≤ length thresholds.now }
    ensures { (from ≤ result)
        × (result ≤ length thresholds.now)
        × (drop result thresholds.now ≡ first_smaller threshold (drop from thresholds.now)) }
{
    for at in from..thresholds.len() {
        if thresholds[at] < threshold {
            return at;
        }
    }
    thresholds.len()
}

// The passes that are run where every one is idle: one for each threshold that is smaller than all before it.
#[tactic(auto, using(crate::specs::Thresholds::minima_at, crate::specs::Thresholds::minima_end))]
pub fn idle_passes(thresholds: &[u8]) -> u32
    requires { length thresholds.now ≤ 64 }
    ensures { result ≡ length (minima none thresholds.now) }
{
    let n = thresholds.len();
    let mut idle: u32 = 0;
    let mut p: usize = 0;
    // kept: a turn goes on from the place that the search found
    while p < n {
        let least = thresholds[p];
        p = next_smaller(thresholds, p + 1, least);
        idle += 1;
    }
    idle
}

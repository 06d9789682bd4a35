// Why a call is refused, as a value, and the number that document 01 gives each refusal.
#![tactic(auto)]

ghost use Rattle.std.specs.Prelude.{◌≡◌};
ghost use Rattle.refusals.specs.Numbers.{number, answer};

// What a call was refused for, in the order of the numbers. The tests have 10 after 2.
#[derive(Clone, Copy, Debug, PartialEq, Eq)]
pub enum Refusal {
    // q is not one that the call takes.
    Q,
    // k is not from 1 to 4,096.
    K,
    // The table is not b runs of equal length J, from 1 to 32.
    J,
    // A position is k or more, or not above the one before it in its run.
    Position,
    // Two data symbols have more than one check in common.
    NotSelfOrthogonal,
    // A lent buffer is not exactly as long as the call needs, or a counter is not 0.
    Length,
    // A symbol of the input is q or more.
    Symbol,
    // There is no threshold, or there are more than 64.
    ThresholdCount,
    // A threshold is above 32.
    Threshold,
    // b is not from 1 to 8, or b times k is above 4,096.
    Branches,
    // The number of a data symbol is b times k or more.
    SymbolNumber,
    // A block length is below 2, or does not divide b times k.
    Block,
    // A file is too long, its count is not from 1 to 64, or its contents are cut short.
    Contents,
    // An entry of a file breaks a rule, a body passes the file's end, or no page has the place asked for.
    Entry,
    // There are bytes after a file's last body, or a symbol is above its page's q - 1.
    Body,
}

impl From<Refusal> for u32 {
    ghost from_gives = { λ refusal n. n ≡ number refusal };

    fn from(refusal: Refusal) -> u32 {
        match refusal {
            Refusal::Q => 1,
            Refusal::K => 2,
            Refusal::J => 3,
            Refusal::Position => 4,
            Refusal::NotSelfOrthogonal => 5,
            Refusal::Length => 6,
            Refusal::Symbol => 7,
            Refusal::ThresholdCount => 8,
            Refusal::Threshold => 9,
            Refusal::Branches => 10,
            Refusal::SymbolNumber => 11,
            Refusal::Block => 12,
            Refusal::Contents => 13,
            Refusal::Entry => 14,
            Refusal::Body => 15,
        }
    }
}

// The number that a call gives in C: 0 where it was done, and else that of the refusal.
pub fn answer(outcome: Result<(), Refusal>) -> u32
    ensures { result ≡ answer outcome }
{
    match outcome {
        Ok(()) => 0,
        Err(refusal) => u32::from(refusal),
    }
}

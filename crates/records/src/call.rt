ghost use Rattle.std.specs.Prelude.{◌≡◌, ◌+◌, ◌<◌, ◌⊎◌, MatchResult, MatchOption};
ghost use Rattle.records.specs.Calls.{place_of, call_number};

use std::error::Error;
use std::fmt;

// What the symbols of a page are.
#[derive(Clone, Copy, Debug, PartialEq, Eq)]
pub enum Profile {
    Bytes,
    Bits,
    U16,
    U32,
}

// The calls that every profile has.
#[derive(Clone, Copy, Debug, PartialEq, Eq)]
pub enum Step {
    CheckTable,
    Encode,
    Syndrome,
    Decode,
    Open,
    Pass,
    Explain,
}

// What a page of a file calls.
#[derive(Clone, Copy, Debug, PartialEq, Eq)]
pub enum Call {
    Of(Profile, Step),
    DecodeCounters,
    EncodeOuter,
    DecodeOuter,
    FileRead,
    FileWrite,
}

// A number by which a program calls nothing.
#[derive(Clone, Copy, Debug, PartialEq, Eq)]
pub struct UnknownCall(pub u32);

impl fmt::Display for UnknownCall {
    fn fmt<W: fmt::Write>(&self, f: &mut fmt::Formatter<W>) -> fmt::Result {
        let number = self.0;
        write!(f, "no call here has the number {number}")
    }
}

impl Error for UnknownCall {}

impl Step {
    // The step that has this place among the calls of its profile.
    fn at(place: u32) -> Option<Step>
        ensures { MatchOption result (6 < place) (λ step. place_of step ≡ place) }
    {
        match place {
            0 => Some(Step::CheckTable),
            1 => Some(Step::Encode),
            2 => Some(Step::Syndrome),
            3 => Some(Step::Decode),
            4 => Some(Step::Open),
            5 => Some(Step::Pass),
            6 => Some(Step::Explain),
            _ => None,
        }
    }
}

// The call that has this number in a file.
impl TryFrom<u32> for Call {
    type Error = UnknownCall;

    fn try_from(number: u32) -> Result<Call, UnknownCall>
        ensures { MatchResult result (λ call. call_number call ≡ number)
            (λ e. (e.0 ≡ number) × ((number ≡ 0) ⊎ (33 < number))) }
    {
        let (profile, place) = match number {
            1..=7 => (Profile::Bytes, number - 1),
            8 => return Ok(Call::DecodeCounters),
            9 => return Ok(Call::EncodeOuter),
            10 => return Ok(Call::DecodeOuter),
            11..=17 => (Profile::Bits, number - 11),
            18..=24 => (Profile::U16, number - 18),
            25..=31 => (Profile::U32, number - 25),
            32 => return Ok(Call::FileRead),
            33 => return Ok(Call::FileWrite),
            _ => return Err(UnknownCall(number)),
        };
        match Step::at(place) {
            Some(step) => Ok(Call::Of(profile, step)),
            None => Err(UnknownCall(number)),
        }
    }
}

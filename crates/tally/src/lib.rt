// The tally of a decode: its four counts as a value, whose methods take it and return the next; and those of what decode hands back.
#![tactic(auto)]

ghost use Rattle.std.specs.Prelude.{◌≡◌, ◌+◌, ◌<◌, ◌≤◌};
ghost use Rattle.tally.specs.Counts.{counts_of, counts_in};

use refusals::Refusal;

// The four counts of a decode.
#[derive(Clone, Copy)]
pub struct Tally {
    pub passes: u32,
    pub changes: u32,
    pub start: u32,
    pub end: u32,
}

impl Tally {
    // Before the first pass, at a distance.
    pub fn opened(start: u32) -> Self
        ensures { result ≡ record { passes = 0; changes = 0; start = start; end = start } }
    {
        Tally {
            passes: 0,
            changes: 0,
            start,
            end: start,
        }
    }

    // One change more.
    pub fn changed(self) -> Self
        requires { self.changes < 4294967295 }
        ensures { result ≡ record { passes = self.passes; changes = self.changes + 1; start = self.start; end = self.end } }
    {
        self.changed_by(1)
    }

    // So many changes more.
    pub fn changed_by(self, changes: u32) -> Self
        requires { self.changes + changes ≤ 4294967295 }
        ensures { result ≡ record { passes = self.passes; changes = self.changes + changes; start = self.start; end = self.end } }
    {
        Tally {
            changes: self.changes + changes,
            ..self
        }
    }

    // With the distance at the end.
    pub fn ended(self, end: u32) -> Self
        ensures { result ≡ record { passes = self.passes; changes = self.changes; start = self.start; end = end } }
    {
        Tally { end, ..self }
    }

    // With the number of passes that were run.
    pub fn passed(self, passes: u32) -> Self
        ensures { result ≡ record { passes = passes; changes = self.changes; start = self.start; end = self.end } }
    {
        Tally { passes, ..self }
    }
}

// The counts of a decode, four zeros where it is refused.
pub fn counts(got: Result<Tally, Refusal>) -> Tally
    ensures { counts_of result ≡ counts_in got }
{
    got.unwrap_or(Tally::opened(0))
}

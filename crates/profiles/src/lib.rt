// The seven calls that every profile has, and whether what each returns and leaves is what the record of a page gives.
#![tactic(auto)]

ghost use Rattle.std.specs.Prelude.{◌≡◌, ◌↔◌, IsTrue, ⊤};
ghost use Rattle.refusals.specs.Numbers.{answer};

use grounds::Told;
use records::{Code, Fault, LentBuffers, Page, Piece, Profile, Record, Step, Symbol, Table};
use refusals::Refusal;
use std::alloc::Global;
use tally::Tally;

// What a call answers: what it hands back, or why it is refused.
pub type Answer<T> = Result<T, Refusal>;

// The buffers of an opened page, for a call that only reads them.
#[derive(Drop)]
pub struct State<S> {
    pub result: Vec<S>,
    pub syndrome: Vec<S>,
    pub difference: Vec<S>,
}

// The calls of a profile, on a code whose table lies anywhere. A value has the numbers that they take before k.
pub trait CodeCalls: Drop {
    type Symbol: Symbol;

    const PROFILE: Profile;

    // Those of a page.
    fn read(page: &mut Page<'_>) -> Result<Self, Fault>;

    fn check_table(&self, code: Code<'_>) -> Answer<()>;

    fn encode(
        &self,
        code: Code<'_>,
        symbols: &[Self::Symbol],
        page: &mut [Self::Symbol],
    ) -> Answer<()>;

    fn syndrome(&self, code: Code<'_>, page: &[Self::Symbol], s: &mut [Self::Symbol]) -> Answer<()>;

    fn decode(
        &self,
        code: Code<'_>,
        page: &[Self::Symbol],
        thresholds: &[u8],
        buffers: &mut LentBuffers<'_, Self::Symbol>,
        margins: &mut [i32],
    ) -> Answer<Tally>;

    fn open(
        &self,
        code: Code<'_>,
        page: &[Self::Symbol],
        buffers: &mut LentBuffers<'_, Self::Symbol>,
    ) -> Answer<()>;

    // Hands back the changes.
    fn pass(
        &self,
        code: Code<'_>,
        threshold: u32,
        buffers: &mut LentBuffers<'_, Self::Symbol>,
    ) -> Answer<u32>;

    fn explain(
        &self,
        code: Code<'_>,
        threshold: u32,
        symbol: u32,
        state: &State<Self::Symbol>,
    ) -> Answer<Told>;
}

// The calls of a profile, on a table that was read into memory. A value has the numbers that they take before k.
pub trait Calls: Drop {
    type Symbol: Symbol;

    const PROFILE: Profile;

    // Those of a page.
    fn read(page: &mut Page<'_>) -> Result<Self, Fault>;

    fn check_table(&self, code: &Table) -> Answer<()>;

    fn encode(
        &self,
        code: &Table,
        symbols: &[Self::Symbol],
        page: &mut [Self::Symbol],
    ) -> Answer<()>;

    fn syndrome(&self, code: &Table, page: &[Self::Symbol], s: &mut [Self::Symbol]) -> Answer<()>;

    fn decode(
        &self,
        code: &Table,
        page: &[Self::Symbol],
        thresholds: &[u8],
        buffers: &mut LentBuffers<'_, Self::Symbol>,
        margins: &mut [i32],
    ) -> Answer<Tally>;

    fn open(
        &self,
        code: &Table,
        page: &[Self::Symbol],
        buffers: &mut LentBuffers<'_, Self::Symbol>,
    ) -> Answer<()>;

    // Hands back the changes.
    fn pass(
        &self,
        code: &Table,
        threshold: u32,
        buffers: &mut LentBuffers<'_, Self::Symbol>,
    ) -> Answer<u32>;

    fn explain(
        &self,
        code: &Table,
        threshold: u32,
        symbol: u32,
        state: &State<Self::Symbol>,
    ) -> Answer<Told>;
}

// Who has the calls on a code has those on a table, which are made on the table's code.
impl<C: CodeCalls> Calls for C {
    type Symbol = C::Symbol;

    const PROFILE: Profile = C::PROFILE;

    fn read(page: &mut Page<'_>) -> Result<C, Fault> {
        C::read(page)
    }

    fn check_table(&self, code: &Table) -> Answer<()> {
        CodeCalls::check_table(self, code.code())
    }

    fn encode(&self, code: &Table, symbols: &[C::Symbol], page: &mut [C::Symbol]) -> Answer<()> {
        CodeCalls::encode(self, code.code(), symbols, page)
    }

    fn syndrome(&self, code: &Table, page: &[C::Symbol], s: &mut [C::Symbol]) -> Answer<()> {
        CodeCalls::syndrome(self, code.code(), page, s)
    }

    fn decode(
        &self,
        code: &Table,
        page: &[C::Symbol],
        thresholds: &[u8],
        buffers: &mut LentBuffers<'_, C::Symbol>,
        margins: &mut [i32],
    ) -> Answer<Tally> {
        CodeCalls::decode(self, code.code(), page, thresholds, buffers, margins)
    }

    fn open(
        &self,
        code: &Table,
        page: &[C::Symbol],
        buffers: &mut LentBuffers<'_, C::Symbol>,
    ) -> Answer<()> {
        CodeCalls::open(self, code.code(), page, buffers)
    }

    fn pass(
        &self,
        code: &Table,
        threshold: u32,
        buffers: &mut LentBuffers<'_, C::Symbol>,
    ) -> Answer<u32> {
        CodeCalls::pass(self, code.code(), threshold, buffers)
    }

    fn explain(
        &self,
        code: &Table,
        threshold: u32,
        symbol: u32,
        state: &State<C::Symbol>,
    ) -> Answer<Told> {
        CodeCalls::explain(self, code.code(), threshold, symbol, state)
    }
}

// Does the call answer with the number that the page gives, 0 where it is done?
pub fn returns<T: Copy + Drop>(page: Page<'_>, got: Answer<T>) -> bool
    ensures { IsTrue result ↔ (page.entry.returned ≡ answer got) }
{
    match got {
        Ok(_) => page.returned == 0,
        Err(refusal) => page.returned == u32::from(refusal),
    }
}

// Encode or syndrome, or another call that takes one input and fills one output.
pub fn fills<S: Symbol, F: FnOnce(&[S], &mut [S]) -> Answer<()>>(
    mut page: Page<'_>,
    call: F,
) -> Result<bool, Fault>
    requires { F.IsAlwaysCallable call }
{
    let input = page.symbols::<S>()?;
    let mut output = page.lend::<S>()?;
    page.end()?;
    let answer = call(&input, &mut output.memory);
    Ok(returns(page, answer) && output.is_due())
}

// Decode, or another call that takes what it takes.
pub fn decodes<
    S: Symbol,
    F: FnOnce(&[S], &[u8], &mut LentBuffers<'_, S>, &mut [i32]) -> Answer<Tally>,
>(mut page: Page<'_>, call: F) -> Result<bool, Fault>
    requires { F.IsAlwaysCallable call }
{
    let received = page.symbols::<S>()?;
    let thresholds = page.string()?;
    let mut buffers = page.lend_buffers::<S>()?;
    let mut margins = page.lend_margins()?;
    let counts = page.string()?;
    page.end()?;
    let answer = call(
        &received,
        thresholds.content,
        &mut buffers,
        &mut margins.memory,
    );
    Ok(returns(page, answer) && buffers.are_due() && margins.is_due() && counts_are(counts, answer))
}

// The four counts that a decode hands back, zeros where it is refused.
pub fn counts_are(counts: Piece<'_>, answer: Answer<Tally>) -> bool {
    let tally = tally::counts(answer);
    counts.holds(&[tally.passes, tally.changes, tally.start, tally.end])
}

// The changes that a pass hands back, or 0.
fn passes<C: Calls>(calls: &C, code: &Table, mut page: Page<'_>) -> Result<bool, Fault> {
    let threshold = page.number()?;
    let mut buffers = page.hold_buffers::<C::Symbol>()?;
    let changes = page.string()?;
    page.end()?;
    let answer = calls.pass(code, threshold, &mut buffers);
    Ok(returns(page, answer) && buffers.are_due() && changes.holds(&[answer.unwrap_or(0)]))
}

// Open, which takes a page and fills the buffers.
fn opens<C: Calls>(calls: &C, code: &Table, mut page: Page<'_>) -> Result<bool, Fault> {
    let received = page.symbols::<C::Symbol>()?;
    let mut buffers = page.lend_buffers::<C::Symbol>()?;
    page.end()?;
    let answer = calls.open(code, &received, &mut buffers);
    Ok(returns(page, answer) && buffers.are_due())
}

// The answer that an explanation hands back, its bits as two numbers, or zeros.
fn explains<C: Calls>(calls: &C, code: &Table, mut page: Page<'_>) -> Result<bool, Fault> {
    let threshold = page.number()?;
    let symbol = page.number()?;
    let state = State {
        result: page.symbols()?,
        syndrome: page.symbols()?,
        difference: page.symbols()?,
    };
    let due = page.string()?;
    page.end()?;
    let answer = calls.explain(code, threshold, symbol, &state);
    let numbers = answer.map_or([0; 6], |told| {
        let low = (told.bits & 0xffff_ffff) as u32;
        let high = (told.bits >> 32) as u32;
        [
            told.ground_number,
            told.leader,
            told.lead,
            told.next,
            low,
            high,
        ]
    });
    Ok(returns(page, answer) && due.holds(&numbers))
}

// Does the call of a page return and leave what its record gives?
pub fn is_right<C: Calls>(record: Record<'_>, alloc: Global) -> Result<bool, Fault> {
    let step = record.step(C::PROFILE)?;
    let mut page = record.page(alloc)?;
    let calls = C::read(&mut page)?;
    let code = page.code()?;
    match step {
        Step::CheckTable => {
            page.end()?;
            Ok(returns(page, calls.check_table(&code)))
        }
        Step::Encode => fills(page, |symbols, out| calls.encode(&code, symbols, out)),
        Step::Syndrome => fills(page, |received, s| calls.syndrome(&code, received, s)),
        Step::Decode => decodes(page, |received, thresholds, buffers, margins| {
            calls.decode(&code, received, thresholds, buffers, margins)
        }),
        Step::Open => opens(&calls, &code, page),
        Step::Pass => passes(&calls, &code, page),
        Step::Explain => explains(&calls, &code, page),
    }
}

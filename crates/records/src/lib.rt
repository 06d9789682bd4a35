// The records of reference pages: their calls, numbers and strings, and the memory that is lent to a call. tests/reference/README.md has the format.
#![tactic(auto)]

ghost use Rattle.std.specs.Prelude.{◌≡◌, ◌+◌, ◌^◌, ◌<◌, ◌≤◌, ◌↔◌, vec_len, IfOk, IsTrue};
ghost use Rattle.records.specs.Calls.{first_call, place_of, call_number};
ghost use Rattle.records.specs.Numbers.{number_among};

use std::alloc::{AllocError, Global};

mod call;
mod symbol;

pub use call::{Call, Profile, Step, UnknownCall};
pub use symbol::{Item, Symbol};

// Why a page is not run to its end.
#[derive(Debug, Drop)]
pub enum Fault {
    // The record does not have what its call takes and leaves, and nothing else, or has more of it than is lent here.
    Malformed,
    Unknown(UnknownCall),
    Memory(AllocError),
}

impl From<UnknownCall> for Fault {
    fn from(e: UnknownCall) -> Fault {
        Fault::Unknown(e)
    }
}

impl From<AllocError> for Fault {
    fn from(e: AllocError) -> Fault {
        Fault::Memory(e)
    }
}

// The 32-bit number at a place among those of a string, low byte first; 0 past the end.
pub fn number_at(bytes: &[u8], place: usize) -> u32
    ensures { result ≡ number_among bytes.now place }
{
    let (numbers, _) = bytes.as_chunks();
    match numbers.get(place) {
        Some(number) => u32::from_le_bytes(*number),
        None => 0,
    }
}

// The 16-bit number at a place among those of a string, low byte first; past the end any.
pub fn pair_at(bytes: &[u8], place: usize) -> u16
    requires { place < 2 ^ 32 }
{
    u16::from_le_bytes([u8::at(bytes, 2 * place), u8::at(bytes, 2 * place + 1)])
}

// What is still to be read of some bytes.
#[derive(Clone, Copy)]
struct Rest<'a>(&'a [u8]);

impl<'a> Rest<'a> {
    // The next bytes, so many.
    fn take(&mut self, len: usize) -> Result<&'a [u8], Fault> {
        let (taken, rest) = self.0.split_at_checked(len).ok_or(Fault::Malformed)?;
        self.0 = rest;
        Ok(taken)
    }

    // The next 32-bit number.
    fn number(&mut self) -> Result<u32, Fault> {
        Ok(number_at(self.take(4)?, 0))
    }
}

// A record: a page, or what opens a group of them.
#[derive(Clone, Copy)]
pub struct Record<'a>(pub &'a [u8]);

impl<'a> Record<'a> {
    // Does it stand before the pages of a group?
    pub fn opens_group(self) -> bool
        ensures { IsTrue result ↔ (number_among self.entry.0.now 0 ≡ 0) }
    {
        number_at(self.0, 0) == 0
    }

    pub fn call(self) -> Result<Call, UnknownCall>
        ensures { IfOk result (λ call. call_number call ≡ number_among self.entry.0.now 0) }
    {
        Call::try_from(number_at(self.0, 0))
    }

    // Which of a profile's calls it is.
    pub fn step(self, profile: Profile) -> Result<Step, UnknownCall>
        ensures { IfOk result (λ step. first_call profile + place_of step ≡ number_among self.entry.0.now 0) }
    {
        match self.call()? {
            Call::Of(of, step) if of == profile => Ok(step),
            _ => Err(self.unknown()),
        }
    }

    // Its call, for a program that does not make it.
    pub fn unknown(self) -> UnknownCall
        ensures { result.0 ≡ number_among self.entry.0.now 0 }
    {
        UnknownCall(number_at(self.0, 0))
    }

    // The name of the group that it opens.
    pub fn name(self) -> Result<&'a [u8], Fault> {
        let mut rest = Rest(self.0);
        rest.take(8)?;
        let numbers = rest.number()?;
        rest.take(4)?;
        rest.take(4 * (numbers as usize))?;
        let len = rest.number()?;
        rest.take(4)?;
        rest.take(len as usize)
    }

    // Can the calls of the group that it opens be made in C alone?
    pub fn c_only(self) -> bool
        ensures { IsTrue result ↔ (number_among self.entry.0.now 4 ≡ 1) }
    {
        number_at(self.0, 4) == 1
    }

    // The page that it is, with the memory that its call is lent to come from an allocator.
    pub fn page(self, alloc: Global) -> Result<Page<'a>, Fault>
        ensures { IfOk result (λ page. page.returned ≡ number_among self.entry.0.now 1) }
    {
        let returned = number_at(self.0, 1);
        let mut rest = Rest(self.0);
        rest.take(8)?;
        let numbers = rest.number()?;
        let strings = rest.number()?;
        let numbers = Rest(rest.take(4 * (numbers as usize))?);
        Ok(Page {
            returned,
            numbers,
            strings,
            rest,
            alloc,
        })
    }
}

// A page: the number that its call must return, and what is still to be read of its numbers and, so many, of its strings.
#[derive(Clone, Copy)]
pub struct Page<'a> {
    pub returned: u32,
    numbers: Rest<'a>,
    strings: u32,
    rest: Rest<'a>,
    alloc: Global,
}

impl<'a> Page<'a> {
    pub fn number(&mut self) -> Result<u32, Fault> {
        self.numbers.number()
    }

    pub fn string(&mut self) -> Result<Piece<'a>, Fault> {
        self.strings = self.strings.checked_sub(1).ok_or(Fault::Malformed)?;
        Piece::read(&mut self.rest)
    }

    // Nothing is left.
    pub fn end(self) -> Result<(), Fault> {
        if self.numbers.0.is_empty() && self.strings == 0 && self.rest.0.is_empty() {
            Ok(())
        } else {
            Err(Fault::Malformed)
        }
    }

    // The code: k, b and, as the first string, the table.
    pub fn code(&mut self) -> Result<Table, Fault>
        ensures { IfOk result (λ c. vec_len c.positions ≤ MOST_POSITIONS) }
    {
        let k = self.number()?;
        let b = self.number()?;
        let table = self.string()?;
        let n = (table.len / 2).min(MOST_POSITIONS);
        let mut positions = vec![in self.alloc; 0u16; n]?;
        for (i, position) in positions.iter_mut().enumerate() {
            *position = pair_at(table.content, i);
        }
        Ok(Table { k, b, positions })
    }

    // A string that the call reads as symbols.
    pub fn symbols<S: Symbol>(&mut self) -> Result<Vec<S>, Fault> {
        let piece = self.string()?;
        Ok(S::read(piece.content, piece.len, self.alloc)?)
    }

    // Memory to lend for an answer.
    pub fn lend<S: Item>(&mut self) -> Result<Lent<'a, S>, Fault>
        ensures { IfOk result (λ it. vec_len it.memory ≤ S.MOST) }
    {
        self.lend_up_to(S::MOST)
    }

    // The same, where no more than so many symbols are lent.
    pub fn lend_up_to<S: Item>(&mut self, most: usize) -> Result<Lent<'a, S>, Fault>
        ensures { IfOk result (λ it. vec_len it.memory ≤ most) }
    {
        self.string()?.lend_kept(most, self.alloc)
    }

    // Memory to lend that holds the content.
    pub fn hold<S: Item>(&mut self) -> Result<Lent<'a, S>, Fault>
        ensures { IfOk result (λ it. vec_len it.memory ≤ S.MOST) }
    {
        self.string()?.hold(self.alloc)
    }

    // Memory to lend for margins, which a record gives after the call or not at all.
    pub fn lend_margins(&mut self) -> Result<Lent<'a, i32>, Fault>
        ensures { IfOk result (λ it. vec_len it.memory ≤ 4100) }
    {
        let piece = self.string()?;
        let due = match piece.gives {
            Gives::After => piece.due,
            _ => None,
        };
        Piece { due, ..piece }.lend(i32::MOST, self.alloc)
    }

    // The strings of the buffers.
    pub fn buffers(&mut self) -> Result<Buffers<'a>, Fault> {
        Ok(Buffers {
            result: self.string()?,
            syndrome: self.string()?,
            difference: self.string()?,
        })
    }

    // Memory to lend for the buffers: for answers.
    pub fn lend_buffers<S: Item>(&mut self) -> Result<LentBuffers<'a, S>, Fault> {
        let buffers = self.buffers()?;
        Ok(LentBuffers {
            result: buffers.result.lend_kept(S::MOST, self.alloc)?,
            syndrome: buffers.syndrome.lend_kept(S::MOST, self.alloc)?,
            difference: buffers.difference.lend_kept(S::MOST, self.alloc)?,
        })
    }

    // The same, holding their contents.
    pub fn hold_buffers<S: Item>(&mut self) -> Result<LentBuffers<'a, S>, Fault> {
        let buffers = self.buffers()?;
        Ok(LentBuffers {
            result: buffers.result.hold(self.alloc)?,
            syndrome: buffers.syndrome.hold(self.alloc)?,
            difference: buffers.difference.hold(self.alloc)?,
        })
    }
}

// Which contents of a string a record gives.
#[derive(Clone, Copy, Debug, PartialEq, Eq)]
enum Gives {
    Nothing,
    Before,
    After,
    Both,
}

impl From<u32> for Gives {
    fn from(number: u32) -> Gives {
        match number {
            0 => Gives::Nothing,
            2 => Gives::After,
            3 => Gives::Both,
            _ => Gives::Before,
        }
    }
}

// One string of a record: what a call reads of it or what memory lent for it may hold before the call, and what that must hold after it.
#[derive(Clone, Copy)]
pub struct Piece<'a> {
    pub len: usize,
    gives: Gives,
    // The bytes behind its head, so many; none where they are not all there.
    pub content: &'a [u8],
    // The content after the call; none where that is as it was.
    due: Option<&'a [u8]>,
}

impl<'a> Piece<'a> {
    fn read(rest: &mut Rest<'a>) -> Result<Piece<'a>, Fault> {
        let len = rest.number()? as usize;
        let gives = Gives::from(rest.number()?);
        let content = rest.0.get(..len).unwrap_or(&[]);
        let due = match gives {
            Gives::Nothing => None,
            Gives::Before | Gives::After => Some(rest.take(len)?),
            Gives::Both => {
                rest.take(len)?;
                Some(rest.take(len)?)
            }
        };
        Ok(Piece {
            len,
            gives,
            content,
            due,
        })
    }

    // Memory to lend for an answer, where no more than so many are lent.
    fn lend<S: Item>(self, most: usize, alloc: Global) -> Result<Lent<'a, S>, Fault>
        ensures { IfOk result (λ it. vec_len it.memory ≤ most) }
    {
        let n = S::count(self.len).ok_or(Fault::Malformed)?;
        if most < n {
            return Err(Fault::Malformed);
        }
        let mut memory = vec![in alloc; S::FILL; n]?;
        for x in memory.iter_mut().skip(S::FILLED) {
            *x = S::REST;
        }
        Ok(Lent {
            piece: self,
            memory,
        })
    }

    // The same for a string that a call may have to leave as it was lent.
    fn lend_kept<S: Item>(self, most: usize, alloc: Global) -> Result<Lent<'a, S>, Fault>
        ensures { IfOk result (λ it. vec_len it.memory ≤ most) }
    {
        if self.gives == Gives::Nothing && MOST_KEPT < self.len {
            return Err(Fault::Malformed);
        }
        self.lend(most, alloc)
    }

    // Memory to lend that holds the content.
    fn hold<S: Item>(self, alloc: Global) -> Result<Lent<'a, S>, Fault>
        ensures { IfOk result (λ it. vec_len it.memory ≤ S.MOST) }
    {
        let mut it = self.lend_kept(S::MOST, alloc)?;
        it.hold();
        Ok(it)
    }

    // The number at a place of what the call must write; 0 where the record does not give that.
    pub fn written(self, place: usize) -> u32 {
        match self.gives {
            Gives::After => number_at(self.content, place),
            _ => 0,
        }
    }

    // Are these the numbers that the call must write?
    pub fn holds(self, numbers: &[u32]) -> bool {
        self.len % 4 == 0
            && self.len / 4 == numbers.len()
            && numbers
                .iter()
                .enumerate()
                .all(|(i, x)| *x == self.written(i))
    }
}

// Memory that is lent to a call for a string of its record.
#[derive(Drop)]
pub struct Lent<'a, S> {
    piece: Piece<'a>,
    pub memory: Vec<S>,
}

impl<'a, S: Item> Lent<'a, S> {
    // Lets it hold the content.
    pub fn hold(&mut self)
        ensures { vec_len self.new.memory ≡ vec_len self.old.memory }
    {
        let content = self.piece.content;
        for (i, x) in self.memory.iter_mut().enumerate() {
            *x = S::at(content, i);
        }
    }

    // Does the record give the content after the call alone?
    pub fn is_for_output(&self) -> bool {
        self.piece.gives == Gives::After
    }

    // After the call: as the record gives it, or else as it was.
    pub fn is_due(&self) -> bool {
        match self.piece.due {
            Some(due) => self
                .memory
                .iter()
                .enumerate()
                .all(|(i, x)| *x == S::at(due, i)),
            None => self.memory.iter().all(|x| *x == S::FILL),
        }
    }
}

// The strings of the buffers of a page, three in a row.
#[derive(Clone, Copy)]
pub struct Buffers<'a> {
    pub result: Piece<'a>,
    pub syndrome: Piece<'a>,
    pub difference: Piece<'a>,
}

// Memory that is lent for them.
#[derive(Drop)]
pub struct LentBuffers<'a, S> {
    pub result: Lent<'a, S>,
    pub syndrome: Lent<'a, S>,
    pub difference: Lent<'a, S>,
}

impl<'a, S: Item> LentBuffers<'a, S> {
    // The three after the call.
    pub fn are_due(&self) -> bool {
        self.result.is_due() && self.syndrome.is_due() && self.difference.is_due()
    }
}

// The numbers of a code and the positions of its table, as they were read.
#[derive(Drop)]
pub struct Table {
    pub k: u32,
    pub b: u32,
    pub positions: Vec<u16>,
}

impl Table {
    pub fn code(&self) -> Code<'_>
        ensures { (result.k ≡ self.now.k) × (result.b ≡ self.now.b) × (result.positions.now ≡ self.now.positions.items) }
    {
        Code {
            k: self.k,
            b: self.b,
            positions: &self.positions,
        }
    }
}

// The numbers that every call takes, and the positions of its table.
#[derive(Clone, Copy)]
pub struct Code<'a> {
    pub k: u32,
    pub b: u32,
    pub positions: &'a [u16],
}

// The most bytes of symbols that a call must leave as they were lent, where a record gives nothing of them.
const MOST_KEPT: usize = 8300;

// The most positions of a table.
const MOST_POSITIONS: usize = 300;

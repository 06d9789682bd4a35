// The run of a file of reference pages: it reads the records, tells a group from a page, counts, and prints a line for each group.
// tests/reference/README.md has the format.
#![tactic(auto)]

ghost use Rattle.std.specs.Prelude.{◌≡◌, ◌≤◌, vec_len, IfOk, IfSome};

use records::{Fault, Record};
use std::alloc::Global;
use std::fs::File;
use std::io::Read;
use std::rt::Files;
use std::{fmt, io};

// The most bytes of a record, but for files of pages.
pub const MOST_RECORD: usize = 40960;

// The most bytes of a record that are read at once.
const PART: usize = 262144;

// A group: how many pages there were, and how many came out wrong; none where its calls can be made in C alone.
#[derive(Clone, Copy)]
struct Group {
    pages: u64,
    wrong: Option<u64>,
}

// The rest of the line that the group's name began.
impl fmt::Display for Group {
    fn fmt<W: fmt::Write>(&self, f: &mut fmt::Formatter<W>) -> fmt::Result {
        let pages = self.pages;
        match self.wrong {
            Some(wrong) => write!(f, ": {pages} pages, {wrong} wrong"),
            None => write!(f, ": {pages} pages, for the C form only"),
        }
    }
}

impl Group {
    fn print(self, rt: &impl Print) -> io::Result<()> {
        if self.pages == 0 {
            return Ok(());
        }
        println!(rt; "{self}")
    }

    // With a page that was run, or is not to be run here; as long as the counts fit.
    fn count(self, right: bool) -> Group {
        Group {
            pages: self.pages.saturating_add(1),
            wrong: match self.wrong {
                Some(wrong) if !right => Some(wrong.saturating_add(1)),
                wrong => wrong,
            },
        }
    }

    // With the record that was read: the group that it opens, or this one with its page.
    fn after<F: Fn(Record<'_>) -> Result<bool, Fault>>(
        self,
        rt: &impl Print,
        record: Record<'_>,
        is_right: &F,
    ) -> io::Result<Group>
        requires { F.IsAlwaysCallable is_right.now }
    {
        if record.opens_group() {
            self.print(rt)?;
            rt.write_all(record.name().unwrap_or(&[]))?;
            return Ok(Group {
                pages: 0,
                wrong: if record.c_only() { None } else { Some(0) },
            });
        }
        if self.wrong.is_none() {
            return Ok(self.count(true));
        }
        match is_right(record) {
            Ok(right) => Ok(self.count(right)),
            Err(Fault::Malformed) => Ok(self.count(false)),
            Err(Fault::Unknown(call)) => {
                println!(rt; "\n{call}")?;
                Ok(self.count(false))
            }
            Err(Fault::Memory(e)) => Err(e.into()),
        }
    }
}

// What is next in a file.
#[derive(Drop)]
enum Next {
    Record(Vec<u8>),
    // Less than a record, or more than is read into memory.
    CutOff,
    End,
}

// Fills memory from a file; false where the file ends before the memory is full.
fn fill(file: &mut impl Read, memory: &mut [u8]) -> io::Result<bool> {
    match file.read_exact(memory) {
        Ok(()) => Ok(true),
        Err(e) if e.kind() == io::ErrorKind::UnexpectedEof => Ok(false),
        Err(e) => Err(e),
    }
}

// Reads a record of so many bytes; none where the file has fewer. A record longer than a part is read in parts, so that the memory written is at
// most that of the bytes that are there and of one part. With `read_to_end` the parts would be shorter, and records of 40,960 bytes take longer.
fn read_record(file: &mut impl Read, alloc: Global, len: usize) -> io::Result<Option<Vec<u8>>>
    ensures { IfOk result (λ read. IfSome read (λ bytes. vec_len bytes ≡ len)) }
{
    if len <= PART {
        let mut record = vec![in alloc; 0u8; len]?;
        return Ok(fill(file, &mut record)?.then_some(record));
    }
    let mut record = Vec::new(alloc);
    // where there is no memory for all of it, it grows with what is read
    let _ = record.try_reserve_exact(len);
    for start in (0..len).step_by(PART) {
        record.resize(start + (len - start).min(PART), 0)?;
        if !fill(file, &mut record[start..])? {
            return Ok(None);
        }
    }
    Ok(Some(record))
}

// Reads the next record, its length first.
fn read_next(file: &mut impl Read, alloc: Global, most: usize) -> io::Result<Next> {
    let mut length = Vec::new(alloc);
    match file.take(4).read_to_end(&mut length)? {
        0 => return Ok(Next::End),
        4 => {}
        _ => return Ok(Next::CutOff),
    }
    let len = records::number_at(&length, 0) as usize;
    if most < len {
        return Ok(Next::CutOff);
    }
    Ok(read_record(file, alloc, len)?.map_or(Next::CutOff, Next::Record))
}

// Runs the pages of pages.bin. `is_right` says whether what the call of a page returns and leaves is what its record gives.
// The turns are bounded by a number that no file uses up, since nothing says that a file ends.
pub fn run<R: Print + Files<File = File>, F: Fn(Record<'_>) -> Result<bool, Fault>>(
    rt: &R,
    alloc: Global,
    most: usize,
    is_right: F,
) -> io::Result<()>
    requires { F.IsAlwaysCallable is_right }
{
    let mut file = File::open(rt, "pages.bin")?;
    let mut group = Group {
        pages: 0,
        wrong: Some(0),
    };
    for _ in 0..u64::MAX {
        match read_next(&mut file, alloc, most)? {
            Next::Record(bytes) => group = group.after(rt, Record(&bytes), &is_right)?,
            Next::CutOff => {
                println!(rt; "\nthe file ends within a record")?;
                break;
            }
            Next::End => break,
        }
    }
    group.print(rt)
}

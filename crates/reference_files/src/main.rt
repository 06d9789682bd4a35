// Runs the reference pages in data/pages.bin through the Rattle calls on files of pages, find, part, body and write, and prints for each group
// how many there are and how many came out wrong.
#![tactic(auto)]

ghost use Rattle.std.specs.Prelude.{◌≤◌, vec_len, IfOk};

use profiles::returns;
use records::{Call, Fault, Item, Page, Piece, Record, number_at};
use std::alloc::{AllocError, Global};
use std::io;

// The most bytes of a record and of an output here, and the most pages of a list.
const MOST_RECORD: usize = 204800;

const MOST_OUTPUT: usize = 66000;

const MOST_LIST: usize = 200;

// The page's body, both ways: the part of the file that the record names, or else an empty one.
fn body_is_due(file: &[u8], place: u32, offset: u32, size: u32) -> bool {
    let start = offset as usize;
    let due = file.get(start..start + size as usize).unwrap_or(&[]);
    file_reader::body(file, place) == due && file_reader::part(file, offset, size) == due
}

// What the reader finds: as the record gives it, or else zeros.
fn find_is_right(mut page: Page<'_>) -> Result<bool, Fault> {
    let place = page.number()?;
    let file = page.string()?.content;
    let entry = page.string()?;
    page.end()?;
    let got = file_reader::find(file, place);
    let found = got.map_or([0; 4], |f| [f.number, f.top, f.offset, f.size]);
    Ok(
        returns(page, got)
            && entry.holds(&found)
            && body_is_due(file, place, entry.written(2), entry.written(3)),
    )
}

// How many pages a list of so many bytes, `each` of them a page, is for.
fn pages_in(list: Piece<'_>, each: usize) -> usize
    ensures { result ≤ MOST_LIST }
{
    list.len.checked_div(each).unwrap_or(0).min(MOST_LIST)
}

// Page numbers of two bytes each; past their end any.
fn numbers_of(list: Piece<'_>, alloc: Global) -> Result<Vec<u16>, AllocError>
    ensures { IfOk result (λ v. vec_len v ≤ MOST_LIST) }
{
    let mut numbers = vec![in alloc; 0u16; pages_in(list, 2)]?;
    for (i, number) in numbers.iter_mut().enumerate() {
        *number = records::pair_at(list.content, i);
    }
    Ok(numbers)
}

// Lengths of four bytes each; past their end 0.
fn lengths_of(list: Piece<'_>, alloc: Global) -> Result<Vec<u32>, AllocError>
    ensures { IfOk result (λ v. vec_len v ≤ MOST_LIST) }
{
    let mut lengths = vec![in alloc; 0u32; pages_in(list, 4)]?;
    for (i, length) in lengths.iter_mut().enumerate() {
        *length = number_at(list.content, i);
    }
    Ok(lengths)
}

// The output after the call and the file's length, 0 where the record gives none. Where the record gives only what the output holds after the
// call, it holds none of that before.
fn write_is_right(mut page: Page<'_>, alloc: Global) -> Result<bool, Fault> {
    let numbers = numbers_of(page.string()?, alloc)?;
    let tops = page.string()?.content;
    let lengths = lengths_of(page.string()?, alloc)?;
    let bodies = page.string()?.content;
    let mut output = page.lend_up_to::<u8>(MOST_OUTPUT)?;
    let length = page.string()?;
    page.end()?;
    if !output.is_for_output() {
        output.hold();
    }
    let got = file_writer::write(&numbers, tops, &lengths, bodies, &mut output.memory);
    Ok(
        returns(page, got)
            && output.is_due()
            && length.len == 4
            && length.written(0) as usize == got.unwrap_or(0),
    )
}

fn is_right(record: Record<'_>, alloc: Global) -> Result<bool, Fault> {
    match record.call()? {
        Call::FileRead => find_is_right(record.page(alloc)?),
        Call::FileWrite => write_is_right(record.page(alloc)?, alloc),
        _ => Err(record.unknown().into()),
    }
}

fn main(rt: HostRuntime) -> io::Result<()> {
    let alloc = rt.alloc();
    runs::run(&rt, alloc, MOST_RECORD, |record| is_right(record, alloc))
}

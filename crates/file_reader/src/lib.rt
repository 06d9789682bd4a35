// The reader of a file of pages: a page is found by its place in the contents, and its body is handed out as a part of the file.
#![tactic(auto)]

ghost use Rattle.std.specs.Prelude.{◌≡◌, true, ◌+◌, ◌<◌, ◌≤◌, length, take, drop, MatchOption};
ghost use Rattle.model.specs.Files.{contents_end, entries_from, sizes_of, total, symbols_fit, read_answer, read_outcome, read_body};
ghost use Rattle.refusals.specs.Numbers.{answer};
ghost use Rattle.file_reader.specs.Turns.{entry_found, end_from};

use refusals::Refusal;

// The pages and the bytes that a file may have.
const FEWEST_PAGES: usize = 1;

const MOST_PAGES: usize = 64;

const MOST_BYTES: usize = 65536;

// What the reader finds: the page's number, q − 1, offset and length.
#[derive(Clone, Copy)]
pub struct Found {
    pub number: u32,
    pub top: u32,
    pub offset: u32,
    pub size: u32,
}

// Where the last body ends; none where an entry breaks a rule.
fn bodies_end(file: &[u8], count: usize) -> Option<usize>
    requires { (contents_end count ≤ length file.now) × (count ≤ 64) }
    ensures { let end = end_from 0 (contents_end count) (length file.now) (entries_from file.now 0 count) in
        MatchOption result (end ≡ 0) (λ n. (n ≡ end) × (0 < n)) }
{
    let mut least = 0;
    let mut start = file_entries::contents_end(count);
    for i in 0..count {
        let e = file_entries::entry_at(file, i);
        if !file_entries::entry_fits(e, least, start, file.len()) {
            return None;
        }
        least = e.number + 1;
        start = e.offset + e.size;
    }
    Some(start)
}

// Whether no symbol of a body is above its q − 1.
fn symbols_fit(file: &[u8], count: usize) -> bool
    requires { (contents_end count + total (sizes_of (entries_from file.now 0 count)) ≤ length file.now) × (count ≤ 64) }
    ensures { result ≡ symbols_fit (entries_from file.now 0 count) (drop (contents_end count) file.now) }
{
    let mut start = file_entries::contents_end(count);
    for i in 0..count {
        let e = file_entries::entry_at(file, i);
        let end = start + e.size;
        if !slices::all_below((e.top + 1) as u32, &file[start..end]) {
            return false;
        }
        start = end;
    }
    true
}

// Whether the reader finds a page, and else why not.
fn read_answer(file: &[u8], place: usize) -> Result<(), Refusal>
    ensures { answer result ≡ read_answer true file.now place }
{
    if MOST_BYTES < file.len() {
        return Err(Refusal::Contents);
    }
    if file.len() < 2 {
        return Err(Refusal::Contents);
    }
    let count = file_entries::two_at(file, 0);
    if count < FEWEST_PAGES {
        return Err(Refusal::Contents);
    }
    if MOST_PAGES < count {
        return Err(Refusal::Contents);
    }
    if file.len() < file_entries::contents_end(count) {
        return Err(Refusal::Contents);
    }
    let Some(end) = bodies_end(file, count) else {
        return Err(Refusal::Entry);
    };
    if count <= place {
        return Err(Refusal::Entry);
    }
    if end != file.len() {
        return Err(Refusal::Body);
    }
    if !symbols_fit(file, count) {
        return Err(Refusal::Body);
    }
    Ok(())
}

// Finds a page by its place in the contents, from 0. The whole file is tested.
pub fn find(file: &[u8], place: u32) -> Result<Found, Refusal>
    ensures { record { number = answer result; left = entry_found result } ≡ read_outcome file.now place }
{
    let at = place as usize;
    read_answer(file, at)?;
    let e = file_entries::entry_at(file, at);
    Ok(Found {
        number: e.number as u32,
        top: e.top as u32,
        offset: e.offset as u32,
        size: e.size as u32,
    })
}

// The part of a file from an offset on, as much of it as is there: of what `find` found the page's body, with no second test of the file.
pub fn part(file: &[u8], offset: u32, size: u32) -> &[u8]
    ensures { result.now ≡ take size (drop offset file.now) }
{
    let start = offset as usize;
    let most = size as usize;
    if file.len() < start {
        return &file[..0];
    }
    if file.len() - start < most {
        return &file[start..];
    }
    let end = start + most;
    &file[start..end]
}

// A page's body, as a part of the file; where the reader refuses, an empty part.
pub fn body(file: &[u8], place: u32) -> &[u8]
    ensures { result.now ≡ read_body file.now place }
{
    match find(file, place) {
        Ok(found) => part(file, found.offset, found.size),
        Err(_) => &file[..0],
    }
}

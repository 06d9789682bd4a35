// The lists that a file of pages is written from: whether they agree, fit into an output and keep the rules.
#![tactic(auto)]

ghost use Rattle.std.specs.Prelude.{◌≡◌, true, ◌+◌, ◌<◌, ◌≤◌, eqb, leb, length};
ghost use Rattle.model.specs.Files.{contents_end, entries_fit, listing, listed_from, total, write_answer};
ghost use Rattle.refusals.specs.Numbers.{answer};
ghost use Rattle.file_lists.specs.Steps.{symbols_listed};

use file_entries::Entry;
use refusals::Refusal;

// The pages and the bytes that a file may have.
const FEWEST_PAGES: usize = 1;

const MOST_PAGES: usize = 64;

const MOST_BYTES: usize = 65536;

// Whether lengths sum to n. No sum is taken, so none can wrap.
fn sums_to(sizes: &[u32], n: usize) -> bool
    ensures { result ≡ eqb (total sizes.now) n }
{
    let mut left = n;
    for size in sizes {
        let size = *size as usize;
        if left < size {
            return false;
        }
        left -= size;
    }
    left == 0
}

// Whether the entries that the lists give keep the rules.
fn lists_fit(numbers: &[u16], tops: &[u8], sizes: &[u32], end: usize) -> bool
    requires { (length tops.now ≡ length numbers.now) × (length sizes.now ≡ length numbers.now) × (length numbers.now ≤ 64) × (end < 4294967296) }
    ensures { result ≡ entries_fit 0 (contents_end (length numbers.now)) end
        (listed_from (contents_end (length numbers.now)) numbers.now tops.now sizes.now) }
{
    let mut least = 0;
    let mut start = file_entries::contents_end(numbers.len());
    for (i, number) in numbers.iter().enumerate() {
        let number = usize::from(*number);
        let top = usize::from(tops[i]);
        let size = sizes[i] as usize;
        let entry = Entry {
            number,
            top,
            offset: start,
            size,
        };
        if !file_entries::entry_fits(entry, least, start, end) {
            return false;
        }
        least = number + 1;
        start += size;
    }
    true
}

// Whether no symbol of a body is above its q − 1.
fn bodies_fit(tops: &[u8], sizes: &[u32], bodies: &[u8]) -> bool
    requires { (length sizes.now ≡ length tops.now) × (total sizes.now ≡ length bodies.now) }
    ensures { result ≡ symbols_listed tops.now sizes.now bodies.now }
{
    let mut start = 0;
    for (i, top) in tops.iter().enumerate() {
        let end = start + sizes[i] as usize;
        if !slices::all_below(u32::from(*top) + 1, &bodies[start..end]) {
            return false;
        }
        start = end;
    }
    true
}

// Whether an output of so many bytes has room for a file of so many pages, whose bodies have so many bytes. The count is taken away eleven times:
// no product can wrap, and no quotient of 64 bits is needed, for which processors of 32 bits would need a function from outside.
pub fn has_room(count: usize, bodies: usize, room: usize) -> bool
    ensures { result ≡ leb (contents_end count + bodies) room }
{
    if room < bodies {
        return false;
    }
    let mut left = room - bodies;
    if left < 2 {
        return false;
    }
    left -= 2;
    for _ in 0..11usize {
        if left < count {
            return false;
        }
        left -= count;
    }
    true
}

// Whether the lists may be written, for an output of some length, and else why not.
pub fn write_answer(
    numbers: &[u16],
    tops: &[u8],
    sizes: &[u32],
    bodies: &[u8],
    room: usize,
) -> Result<(), Refusal>
    ensures { answer result ≡ write_answer true (listing numbers.now tops.now sizes.now bodies.now) room }
{
    let count = numbers.len();
    if tops.len() != count {
        return Err(Refusal::Length);
    }
    if sizes.len() != count {
        return Err(Refusal::Length);
    }
    if !sums_to(sizes, bodies.len()) {
        return Err(Refusal::Length);
    }
    if !has_room(count, bodies.len(), room) {
        return Err(Refusal::Length);
    }
    if count < FEWEST_PAGES {
        return Err(Refusal::Contents);
    }
    if MOST_PAGES < count {
        return Err(Refusal::Contents);
    }
    if MOST_BYTES < bodies.len() {
        return Err(Refusal::Contents);
    }
    let end = file_entries::contents_end(count) + bodies.len();
    if MOST_BYTES < end {
        return Err(Refusal::Contents);
    }
    if !lists_fit(numbers, tops, sizes, end) {
        return Err(Refusal::Entry);
    }
    if !bodies_fit(tops, sizes, bodies) {
        return Err(Refusal::Body);
    }
    Ok(())
}

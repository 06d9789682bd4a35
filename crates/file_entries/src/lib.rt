// The entries of a file's contents: read from bytes, tested, and written as bytes, low byte first.
#![tactic(auto)]

ghost use Rattle.std.specs.Prelude.{◌≡◌, ◌+◌, ◌*◌, ◌<◌, ◌≤◌, length};
ghost use Rattle.std.proofs.lemmas.List.Edits.{sets};
ghost use Rattle.model.specs.Bytes.{bytes_in};
ghost use Rattle.model.specs.Calls.{within};
ghost use Rattle.model.specs.Files.{number_at, entry_bytes, contents_end, entry_at, entry_fits};
ghost use Rattle.file_entries.specs.Entries.{entry_from, entry_in};

// An entry: page number, q − 1, offset and length of the body.
#[derive(Clone, Copy)]
pub struct Entry {
    pub number: usize,
    pub top: usize,
    pub offset: usize,
    pub size: usize,
}

// The number in two bytes.
pub fn two_at(s: &[u8], start: usize) -> usize
    requires { start + 2 ≤ length s.now }
    ensures { (result ≡ number_at s.now start 2) × (result < 65536) }
{
    usize::from(u16::from_le_bytes([s[start], s[start + 1]]))
}

// The number in four bytes.
pub fn four_at(s: &[u8], start: usize) -> usize
    requires { start + 4 ≤ length s.now }
    ensures { (result ≡ number_at s.now start 4) × (result < 4294967296) }
{
    u32::from_le_bytes([s[start], s[start + 1], s[start + 2], s[start + 3]]) as usize
}

// Where the count and so many entries end. The product is one of 32 bits: of 64 a Cortex-M0 would need a function from outside.
pub fn contents_end(count: usize) -> usize
    requires { count ≤ 64 }
    ensures { result ≡ contents_end count }
{
    2 + ((11 * (count as u32)) as usize)
}

// The entry at a place.
pub fn entry_at(file: &[u8], place: usize) -> Entry
    requires { (contents_end place + 11 ≤ length file.now) × (place ≤ 64) }
    ensures { (result ≡ entry_from (entry_at file.now place)) × (result.number < 65536) × (result.top < 256) × (result.offset < 4294967296) × (result.size < 4294967296) }
{
    let start = contents_end(place);
    let number = two_at(file, start);
    let top = usize::from(file[start + 2]);
    let offset = four_at(file, start + 3);
    let size = four_at(file, start + 7);
    Entry {
        number,
        top,
        offset,
        size,
    }
}

// Whether x is from low to high.
#[tactic(auto, unfolding(model::specs::Calls::within))]
fn within(low: usize, high: usize, x: usize) -> bool
    ensures { result ≡ within low high x }
{
    low <= x && x <= high
}

// Whether an entry keeps the rules, where its page number may be `least` or more, its body must start at `start`, and the file ends at `end`.
#[tactic(auto, unfolding(model::specs::Files::entry_fits))]
pub fn entry_fits(e: Entry, least: usize, start: usize, end: usize) -> bool
    requires { (e.offset < 4294967296) × (e.size < 4294967296) }
    ensures { result ≡ entry_fits least start end (entry_in e) }
{
    if e.number < least {
        return false;
    }
    if !within(2, 255, e.top) {
        return false;
    }
    if !within(2, 8192, e.size) {
        return false;
    }
    e.offset == start && e.offset + e.size <= end
}

// Two bytes of a number.
pub fn put_two(d: &mut [u8], at: usize, n: usize)
    requires { at + 2 ≤ length d.old }
    ensures { d.new ≡ sets d.old at (bytes_in 2 n) }
{
    // two stores: `copy_from_slice` may be a call of memmove
    let [low, high] = ((n % 65536) as u16).to_le_bytes();
    d[at] = low;
    d[at + 1] = high;
}

// The 11 bytes of an entry.
pub fn put_entry(d: &mut [u8], at: usize, e: Entry)
    requires { (at + 11 ≤ length d.old) × (e.offset < 4294967296) × (e.size < 4294967296) }
    ensures { d.new ≡ sets d.old at (entry_bytes (entry_in e)) }
{
    put_two(d, at, e.number);
    d[at + 2] = (e.top % 256) as u8;
    number_bytes::put_word(d, at + 3, e.offset as u32);
    number_bytes::put_word(d, at + 7, e.size as u32);
}

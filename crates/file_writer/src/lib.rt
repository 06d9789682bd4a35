// The writer of a file of pages.
#![tactic(auto)]

ghost use Rattle.std.specs.Prelude.{◌≡◌, ◌+◌, ◌≤◌, length};
ghost use Rattle.std.specs.Result.{result_unwrap_or};
ghost use Rattle.std.proofs.lemmas.List.Edits.{sets};
ghost use Rattle.model.specs.Files.{contents_end, contents_of, listing, listed_from, total, write_outcome};
ghost use Rattle.refusals.specs.Numbers.{answer};

use file_entries::Entry;
use refusals::Refusal;

// The entries that the lists give.
fn put_contents(numbers: &[u16], tops: &[u8], sizes: &[u32], d: &mut [u8])
    requires { (length tops.now ≡ length numbers.now) × (length sizes.now ≡ length numbers.now) × (length numbers.now ≤ 64)
        × (contents_end (length numbers.now) + total sizes.now ≤ 65536) × (contents_end (length numbers.now) + total sizes.now ≤ length d.old) }
    ensures { d.new ≡ sets d.old 2
        (contents_of (listed_from (contents_end (length numbers.now)) numbers.now tops.now sizes.now)) }
{
    let mut start = file_entries::contents_end(numbers.len());
    for (i, number) in numbers.iter().enumerate() {
        let number = usize::from(*number);
        let top = usize::from(tops[i]);
        let size = sizes[i] as usize;
        file_entries::put_entry(
            d,
            file_entries::contents_end(i),
            Entry {
                number,
                top,
                offset: start,
                size,
            },
        );
        start += size;
    }
}

// Writes a file, and hands back its length: the front of the output is filled, the rest kept.
pub fn write(
    numbers: &[u16],
    tops: &[u8],
    lengths: &[u32],
    bodies: &[u8],
    output: &mut [u8],
) -> Result<usize, Refusal>
    ensures { record { number = answer result; left = record { size = result_unwrap_or result 0; output = output.new } }
        ≡ write_outcome (listing numbers.now tops.now lengths.now bodies.now) output.old }
{
    file_lists::write_answer(numbers, tops, lengths, bodies, output.len())?;
    file_entries::put_two(output, 0, numbers.len());
    put_contents(numbers, tops, lengths, output);
    let start = file_entries::contents_end(numbers.len());
    let end = start + bodies.len();
    slices::copy_into(&mut output[start..end], bodies);
    Ok(end)
}

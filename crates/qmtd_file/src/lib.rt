// The C calls on a file of pages, exported: each is the function of its C form.
#![tactic(auto)]

ghost use Rattle.std.specs.Prelude.{◌≡◌};
ghost use Rattle.model.specs.Files.{c_read_outcome, c_write_outcome};

// Finds a page of a file by its place in the contents.
#[unsafe(no_mangle)]
pub extern "C" fn qmtd_file_read(file: &[u8], place: u32, entry: &mut [u8]) -> u32
    ensures { record { number = result; left = entry.new } ≡ c_read_outcome file.now place entry.old }
{
    refusals::answer(c_files::read(file, place, entry))
}

// Writes a file of pages.
#[unsafe(no_mangle)]
pub extern "C" fn qmtd_file_write(
    numbers: &[u8],
    tops: &[u8],
    lengths: &[u8],
    bodies: &[u8],
    output: &mut [u8],
    length: &mut [u8],
) -> u32
    ensures { record { number = result; left = record { size = length.new; output = output.new } }
        ≡ c_write_outcome numbers.now tops.now lengths.now bodies.now output.old length.old }
{
    refusals::answer(c_files::write(numbers, tops, lengths, bodies, output, length))
}

// Runs the reference pages in data/pages.bin through the Rattle calls on symbols of four bytes, check_table, encode, syndrome, decode, open,
// pass and explain, and prints for each group how many there are and how many came out wrong.
#![tactic(auto)]

use runs::MOST_RECORD;
use std::io;
use wide_profiles::Wide;

fn main(rt: HostRuntime) -> io::Result<()> {
    let alloc = rt.alloc();
    runs::run(
        &rt,
        alloc,
        MOST_RECORD,
        |record| profiles::is_right::<Wide<u32>>(record, alloc),
    )
}

// Runs the reference pages in data/pages.bin through the Rattle call decode_counters, and prints for each group how many there are and how many
// came out wrong.
#![tactic(auto)]

use profiles::{Answer, counts_are, returns};
use records::{Call, Code, Fault, LentBuffers, Record};
use runs::MOST_RECORD;
use std::alloc::Global;
use std::io;
use tally::Tally;

fn decode(
    q: u32,
    code: Code<'_>,
    page: &[u8],
    thresholds: &[u8],
    buffers: &mut LentBuffers<'_, u8>,
    margins: &mut [i32],
    counters: &mut [u8],
) -> Answer<Tally> {
    decoder::decode_counters(
        q,
        code.k,
        code.b,
        code.positions,
        page,
        thresholds,
        &mut buffers.result.memory,
        &mut buffers.syndrome.memory,
        &mut buffers.difference.memory,
        margins,
        counters,
    )
}

// Is what the call returns and leaves what its record gives? The counters are lent as the record gives them.
fn decode_is_right(record: Record<'_>, alloc: Global) -> Result<bool, Fault> {
    let mut page = record.page(alloc)?;
    let q = page.number()?;
    let table = page.code()?;
    let code = table.code();
    let received = page.symbols::<u8>()?;
    let thresholds = page.string()?;
    let mut buffers = page.lend_buffers()?;
    let mut margins = page.lend_margins()?;
    let mut counters = page.hold()?;
    let counts = page.string()?;
    page.end()?;
    let answer = decode(
        q,
        code,
        &received,
        thresholds.content,
        &mut buffers,
        &mut margins.memory,
        &mut counters.memory,
    );
    Ok(
        returns(page, answer)
            && buffers.are_due()
            && margins.is_due()
            && counters.is_due()
            && counts_are(counts, answer),
    )
}

fn is_right(record: Record<'_>, alloc: Global) -> Result<bool, Fault> {
    match record.call()? {
        Call::DecodeCounters => decode_is_right(record, alloc),
        _ => Err(record.unknown().into()),
    }
}

fn main(rt: HostRuntime) -> io::Result<()> {
    let alloc = rt.alloc();
    runs::run(&rt, alloc, MOST_RECORD, |record| is_right(record, alloc))
}

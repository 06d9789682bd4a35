// Runs the reference pages in data/pages.bin through the Rattle calls encode_outer and decode_outer, and prints for each group how many there are
// and how many came out wrong.
#![tactic(auto)]

use profiles::{decodes, fills};
use records::{Call, Code, Fault, Page, Record};
use runs::MOST_RECORD;
use std::alloc::Global;
use std::io;

// Is what the call returns and leaves what its record gives? A function for each call, which takes the block length.
fn encode_is_right(q: u32, code: Code<'_>, block: u32, page: Page<'_>) -> Result<bool, Fault> {
    fills(page, |symbols, out| {
        outer_page::encode_outer(q, code.k, code.b, code.positions, block, symbols, out)
    })
}

fn decode_is_right(q: u32, code: Code<'_>, block: u32, page: Page<'_>) -> Result<bool, Fault> {
    decodes(page, |received, thresholds, buffers, margins| {
        outer_decoder::decode_outer(
            q,
            code.k,
            code.b,
            code.positions,
            block,
            received,
            thresholds,
            &mut buffers.result.memory,
            &mut buffers.syndrome.memory,
            &mut buffers.difference.memory,
            margins,
        )
    })
}

fn is_right(record: Record<'_>, alloc: Global) -> Result<bool, Fault> {
    let call = record.call()?;
    if call != Call::EncodeOuter && call != Call::DecodeOuter {
        return Err(record.unknown().into());
    }
    let mut page = record.page(alloc)?;
    let q = page.number()?;
    let table = page.code()?;
    let code = table.code();
    let block = page.number()?;
    if call == Call::EncodeOuter {
        encode_is_right(q, code, block, page)
    } else {
        decode_is_right(q, code, block, page)
    }
}

fn main(rt: HostRuntime) -> io::Result<()> {
    let alloc = rt.alloc();
    runs::run(&rt, alloc, MOST_RECORD, |record| is_right(record, alloc))
}

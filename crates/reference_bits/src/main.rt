// Runs the reference pages in data/pages.bin through the Rattle calls on bit pages, check_table, encode, syndrome, decode, open, pass and
// explain, and prints for each group how many there are and how many came out wrong.
#![tactic(auto)]

use grounds::Told;
use profiles::{Answer, CodeCalls, State};
use records::{Code, Fault, LentBuffers, Page, Profile};
use runs::MOST_RECORD;
use std::io;
use tally::Tally;

// The calls on bit pages, with the q that they take.
#[derive(Drop)]
struct Bits {
    q: u32,
}

impl CodeCalls for Bits {
    type Symbol = u8;

    const PROFILE: Profile = Profile::Bits;

    fn read(page: &mut Page<'_>) -> Result<Bits, Fault> {
        Ok(Bits { q: page.number()? })
    }

    fn check_table(&self, code: Code<'_>) -> Answer<()> {
        bits::check_table(self.q, code.k, code.b, code.positions)
    }

    fn encode(&self, code: Code<'_>, symbols: &[u8], page: &mut [u8]) -> Answer<()> {
        bits::encode(self.q, code.k, code.b, code.positions, symbols, page)
    }

    fn syndrome(&self, code: Code<'_>, page: &[u8], s: &mut [u8]) -> Answer<()> {
        bits::syndrome(self.q, code.k, code.b, code.positions, page, s)
    }

    fn decode(
        &self,
        code: Code<'_>,
        page: &[u8],
        thresholds: &[u8],
        buffers: &mut LentBuffers<'_, u8>,
        margins: &mut [i32],
    ) -> Answer<Tally> {
        bits::decode(
            self.q,
            code.k,
            code.b,
            code.positions,
            page,
            thresholds,
            &mut buffers.result.memory,
            &mut buffers.syndrome.memory,
            &mut buffers.difference.memory,
            margins,
        )
    }

    fn open(&self, code: Code<'_>, page: &[u8], buffers: &mut LentBuffers<'_, u8>) -> Answer<()> {
        bits::open(
            self.q,
            code.k,
            code.b,
            code.positions,
            page,
            &mut buffers.result.memory,
            &mut buffers.syndrome.memory,
            &mut buffers.difference.memory,
        )
    }

    fn pass(
        &self,
        code: Code<'_>,
        threshold: u32,
        buffers: &mut LentBuffers<'_, u8>,
    ) -> Answer<u32> {
        bits::pass(
            self.q,
            code.k,
            code.b,
            code.positions,
            threshold,
            &mut buffers.result.memory,
            &mut buffers.syndrome.memory,
            &mut buffers.difference.memory,
        )
    }

    fn explain(
        &self,
        code: Code<'_>,
        threshold: u32,
        symbol: u32,
        state: &State<u8>,
    ) -> Answer<Told> {
        bits::explain(
            self.q,
            code.k,
            code.b,
            code.positions,
            threshold,
            symbol,
            &state.result,
            &state.syndrome,
            &state.difference,
        )
    }
}

fn main(rt: HostRuntime) -> io::Result<()> {
    let alloc = rt.alloc();
    runs::run(
        &rt,
        alloc,
        MOST_RECORD,
        |record| profiles::is_right::<Bits>(record, alloc),
    )
}

// The calls on wide symbols as a profile of reference pages, for either width.
#![tactic(auto)]

use grounds::Told;
use profiles::{Answer, CodeCalls, State};
use records::{Code, Fault, LentBuffers, Page, Profile, Symbol};
use std::marker::PhantomData;
use tally::Tally;
use wide_symbols::WideSymbol;

// A wide symbol of which there are reference pages.
pub trait Width: WideSymbol + Symbol {
    const PROFILE: Profile;
}

impl Width for u16 {
    const PROFILE: Profile = Profile::U16;
}

impl Width for u32 {
    const PROFILE: Profile = Profile::U32;
}

// The calls on symbols of a width, which take no q.
#[derive(Drop)]
pub struct Wide<S> {
    symbols: PhantomData<S>,
}

impl<S: Width> CodeCalls for Wide<S> {
    type Symbol = S;

    const PROFILE: Profile = S::PROFILE;

    fn read(_page: &mut Page<'_>) -> Result<Wide<S>, Fault> {
        Ok(Wide {
            symbols: PhantomData,
        })
    }

    fn check_table(&self, code: Code<'_>) -> Answer<()> {
        wide_page::check_table::<S>(code.k, code.b, code.positions)
    }

    fn encode(&self, code: Code<'_>, symbols: &[S], page: &mut [S]) -> Answer<()> {
        wide_page::encode(code.k, code.b, code.positions, symbols, page)
    }

    fn syndrome(&self, code: Code<'_>, page: &[S], s: &mut [S]) -> Answer<()> {
        wide_page::syndrome(code.k, code.b, code.positions, page, s)
    }

    fn decode(
        &self,
        code: Code<'_>,
        page: &[S],
        thresholds: &[u8],
        buffers: &mut LentBuffers<'_, S>,
        margins: &mut [i32],
    ) -> Answer<Tally> {
        wide_decoder::decode(
            code.k,
            code.b,
            code.positions,
            page,
            thresholds,
            &mut buffers.result.memory,
            &mut buffers.syndrome.memory,
            &mut buffers.difference.memory,
            margins,
        )
    }

    fn open(&self, code: Code<'_>, page: &[S], buffers: &mut LentBuffers<'_, S>) -> Answer<()> {
        wide_page::open(
            code.k,
            code.b,
            code.positions,
            page,
            &mut buffers.result.memory,
            &mut buffers.syndrome.memory,
            &mut buffers.difference.memory,
        )
    }

    fn pass(
        &self,
        code: Code<'_>,
        threshold: u32,
        buffers: &mut LentBuffers<'_, S>,
    ) -> Answer<u32> {
        wide_passing::pass(
            code.k,
            code.b,
            code.positions,
            threshold,
            &mut buffers.result.memory,
            &mut buffers.syndrome.memory,
            &mut buffers.difference.memory,
        )
    }

    fn explain(
        &self,
        code: Code<'_>,
        threshold: u32,
        symbol: u32,
        state: &State<S>,
    ) -> Answer<Told> {
        wide_explainer::explain(
            code.k,
            code.b,
            code.positions,
            threshold,
            symbol,
            &state.result,
            &state.syndrome,
            &state.difference,
        )
    }
}

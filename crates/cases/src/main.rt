// Runs the 14 worked cases of document 01 and prints what the calls give. Each line starts with the number of its case.
#![tactic(auto)]

use refusals::{Refusal, answer};
use std::{fmt, io};
use tally::Tally;

// A code of one branch.
#[derive(Clone, Copy)]
struct Code<'a> {
    q: u32,
    k: u32,
    positions: &'a [u16],
}

const A: Code<'static> = Code {
    q: 256,
    k: 13,
    positions: &[0, 1, 4, 6],
};

// The calls. Those that answer with a number alone return it.
impl Code<'_> {
    fn check_table(self) -> u32 {
        answer(table::check_table(self.q, self.k, 1, self.positions))
    }

    fn encode(self, symbols: &[u8], page: &mut [u8]) -> u32 {
        answer(page::encode(self.q, self.k, 1, self.positions, symbols, page))
    }

    fn syndrome(self, page: &[u8], s: &mut [u8]) -> u32 {
        answer(page::syndrome(self.q, self.k, 1, self.positions, page, s))
    }

    fn decode(self, page: &[u8], thresholds: &[u8]) -> Decode {
        let mut result = [0u8; 13];
        let mut s = [0u8; 13];
        let mut d = [0u8; 13];
        let mut margins = [0i32; 13];
        let got = decoder::decode(
            self.q,
            self.k,
            1,
            self.positions,
            page,
            thresholds,
            &mut result,
            &mut s,
            &mut d,
            &mut margins,
        );
        Decode { got, result, s, d }
    }
}

// What a decode returns and leaves.
#[derive(Clone, Copy)]
struct Decode {
    got: Result<Tally, Refusal>,
    result: [u8; 13],
    s: [u8; 13],
    d: [u8; 13],
}

impl Decode {
    fn number(&self) -> u32 {
        answer(self.got.map(|_| ()))
    }

    // Zeros where it is refused.
    fn tally(&self) -> Tally {
        tally::counts(self.got)
    }
}

// Symbols on a line, a space before each.
#[derive(Clone, Copy)]
struct Symbols<'a>(&'a [u8]);

impl fmt::Display for Symbols<'_> {
    fn fmt<W: fmt::Write>(&self, f: &mut fmt::Formatter<W>) -> fmt::Result {
        for x in self.0 {
            write!(f, " {x}")?;
        }
        Ok(())
    }
}

// Cases 1 and 2: tables.
fn tables(rt: &impl Print) -> io::Result<()> {
    println!(rt; "1: k = 13: {}", A.check_table())?;
    println!(rt; "1: k = 12: {}", Code { k: 12, ..A }.check_table())?;
    let code = Code {
        q: 256,
        k: 7,
        positions: &[0, 1, 3],
    };
    println!(rt; "2: k = 7: {}", code.check_table())?;
    println!(rt; "2: k = 6: {}", Code { k: 6, ..code }.check_table())
}

// Case 3: k = 1, with a symbol 7.
fn smallest_code(rt: &impl Print) -> io::Result<()> {
    let code = Code {
        q: 256,
        k: 1,
        positions: &[0],
    };
    let mut page = [0u8; 2];
    println!(rt; "3: table: {}", code.check_table())?;
    println!(rt; "3: encode: {}", code.encode(&[7], &mut page))?;
    println!(rt; "3: page:{}", Symbols(&page))
}

// Cases 4 and 5: data encoded by code A.
fn show_encode(rt: &impl Print, case: u32, symbols: &[u8]) -> io::Result<()> {
    let mut page = [0u8; 26];
    println!(rt; "{case}: encode: {}", A.encode(symbols, &mut page))?;
    println!(rt; "{case}: data:{}", Symbols(&page[..13]))?;
    println!(rt; "{case}: checks:{}", Symbols(&page[13..]))
}

fn encodings(rt: &impl Print) -> io::Result<()> {
    let mut symbols = [0u8; 13];
    symbols[0] = 7;
    show_encode(rt, 4, &symbols)?;
    symbols[0] = 10;
    symbols[12] = 250;
    show_encode(rt, 5, &symbols)
}

// Cases 6 to 10: a page received with code A. Case 7 is that of request N4, with thresholds 3, 2 and with 3, 3, 2.
fn show_decode(rt: &impl Print, case: u32, page: &[u8], thresholds: &[u8]) -> io::Result<()> {
    let got = A.decode(page, thresholds);
    println!(rt; "{case}: decode: {}", got.number())?;
    println!(rt; "{case}: result:{}", Symbols(&got.result))?;
    println!(rt; "{case}: S:{}", Symbols(&got.s))?;
    println!(rt; "{case}: D:{}", Symbols(&got.d))?;
    let Tally {
        passes,
        changes,
        start,
        end,
    } = got.tally();
    println!(rt; "{case}: counts: {passes} {changes} {start} {end}")
}

fn one_data_symbol(rt: &impl Print) -> io::Result<()> {
    let mut page = [0u8; 26];
    page[0] = 7;
    show_decode(rt, 6, &page, &[2, 2])?;
    show_decode(rt, 7, &page, &[3, 2])?;
    show_decode(rt, 7, &page, &[3, 3, 2])
}

fn one_check_symbol(rt: &impl Print) -> io::Result<()> {
    let mut page = [0u8; 26];
    page[15] = 9;
    show_decode(rt, 8, &page, &[0])
}

fn two_data_symbols(rt: &impl Print) -> io::Result<()> {
    let mut page = [0u8; 26];
    page[0] = 7;
    page[1] = 3;
    show_decode(rt, 9, &page, &[0, 0])
}

fn three_check_symbols(rt: &impl Print) -> io::Result<()> {
    let mut page = [0u8; 26];
    page[13] = 251;
    page[14] = 251;
    page[17] = 251;
    show_decode(rt, 10, &page, &[0])
}

// The numbers of the table check, encode, syndrome and decode.
fn show_numbers(
    rt: &impl Print,
    code: Code<'_>,
    symbols: &[u8],
    encoded: &mut [u8],
    page: &[u8],
) -> io::Result<()> {
    let mut s = [0u8; 13];
    print!(rt; " {}", code.check_table())?;
    print!(rt; " {}", code.encode(symbols, encoded))?;
    print!(rt; " {}", code.syndrome(page, &mut s))?;
    println!(rt; " {}", code.decode(page, &[0]).number())
}

// Cases 11 and 12: data and a page that hold a symbol.
fn show_calls(rt: &impl Print, case: u32, text: &str, q: u32, symbol: u8) -> io::Result<()> {
    let mut symbols = [0u8; 13];
    let mut page = [0u8; 26];
    let mut encoded = [0u8; 26];
    symbols[3] = symbol;
    page[3] = symbol;
    print!(rt; "{case}: {text}")?;
    show_numbers(rt, Code { q, ..A }, &symbols, &mut encoded, &page)
}

// Case 12: a page, lent or received, that is one symbol short.
fn show_short(rt: &impl Print) -> io::Result<()> {
    let mut symbols = [0u8; 13];
    let mut page = [0u8; 25];
    let mut encoded = [0u8; 25];
    symbols[3] = 5;
    page[3] = 5;
    print!(rt; "12: symbol 5, page one short:")?;
    show_numbers(rt, Code { q: 5, ..A }, &symbols, &mut encoded, &page)
}

fn limits(rt: &impl Print) -> io::Result<()> {
    show_calls(rt, 11, "q = 2:", 2, 0)?;
    show_calls(rt, 11, "q = 3:", 3, 0)?;
    show_calls(rt, 11, "q = 256:", 256, 0)?;
    show_calls(rt, 11, "q = 257:", 257, 0)?;
    show_calls(rt, 12, "symbol 4:", 5, 4)?;
    show_calls(rt, 12, "symbol 5:", 5, 5)?;
    show_short(rt)
}

// Case 13: the limits of thresholds.
fn limits_of_thresholds(rt: &impl Print) -> io::Result<()> {
    let code = Code { q: 5, ..A };
    let mut page = [0u8; 26];
    let list = [0u8; 65];
    println!(rt;
        "13: 64 thresholds: {}",
        code.decode(&page, &list[..64]).number()
    )?;
    println!(rt; "13: 65 thresholds: {}", code.decode(&page, &list).number())?;
    println!(rt; "13: threshold 32: {}", code.decode(&page, &[32]).number())?;
    println!(rt; "13: threshold 33: {}", code.decode(&page, &[33]).number())?;
    page[3] = 5;
    println!(rt;
        "13: no thresholds, symbol 5: {}",
        code.decode(&page, &[]).number()
    )
}

// Case 14: received data 0 and checks −s give S = s, so the estimates of symbol 0 are d(0) = 0 and s at its checks 0, 1, 4, 6.
// Any other symbol has at most one of these checks: its other estimates are 0, and it never changes. The changes are those of one pass, at each
// threshold below a limit.
fn show_votes(rt: &impl Print, page: &[u8], limit: u8) -> io::Result<()> {
    let mut s = [0u8; 13];
    println!(rt; "14: syndrome: {}", A.syndrome(page, &mut s))?;
    println!(rt; "14: S:{}", Symbols(&s))?;
    print!(rt; "14: changes:")?;
    for t in 0..limit {
        print!(rt; " {}", A.decode(page, &[t]).tally().changes)?;
    }
    println!(rt)
}

fn votes(rt: &impl Print) -> io::Result<()> {
    let mut page = [0u8; 26];
    page[13] = 254;
    page[14] = 254;
    page[17] = 255;
    page[19] = 255;
    show_votes(rt, &page, 33)?;
    page[13] = 249;
    page[14] = 249;
    page[17] = 247;
    show_votes(rt, &page, 2)
}

fn main(rt: HostRuntime) -> io::Result<()> {
    tables(&rt)?;
    smallest_code(&rt)?;
    encodings(&rt)?;
    one_data_symbol(&rt)?;
    one_check_symbol(&rt)?;
    two_data_symbols(&rt)?;
    three_check_symbols(&rt)?;
    limits(&rt)?;
    limits_of_thresholds(&rt)?;
    votes(&rt)
}

// The nearest float of each ratio of standard input. A line for each: the float's 64 bits in 16 hexadecimal digits, and right behind them `=`,
// `<` or `>` where the float is equal to the ratio, below it or above it; or `refused` and the number.
//
// A ratio is p and q in eight bytes each, their lowest byte first. tools/ratios.py makes ratios, and what must be written, by a division
// of its own.
#![tactic(auto)]

use nearest::Side;
use std::io;
use std::io::Print;

// The sign of a side.
fn sign(side: Side) -> u8 {
    match side {
        Side::Equal => b'=',
        Side::Below => b'<',
        Side::Above => b'>',
    }
}

// The line of a float. By `{:016X}` a run of many ratios takes a third longer.
fn print_float(rt: &impl Print, bits: u64, sign: u8) -> io::Result<()> {
    let mut text = [0; 16];
    digits::hexadecimal(bits, &mut text);
    let mut line = [b'\n'; 18];
    line[..16].copy_from_slice(&text);
    line[16] = sign;
    rt.write_all(&line)
}

// The line of one ratio.
fn print_answer(rt: &impl Print, p: i64, q: i64) -> io::Result<()> {
    match nearest::nearest(p, q) {
        Ok(x) => print_float(rt, x.float.to_bits(), sign(x.side)),
        Err(refusal) => println!(rt; "refused {}", refusals::number_by(refusal)),
    }
}

// The number whose eight bytes begin at a place.
fn number_at(s: &[u8], at: usize) -> i64 {
    words::signed_long(words::long_at(s, at))
}

// A line for each ratio, in turn. What is left of fewer than 16 bytes is no ratio.
fn run(rt: &impl Print, bytes: &[u8]) -> io::Result<()> {
    for ratio in bytes.chunks_exact(16) {
        print_answer(rt, number_at(ratio, 0), number_at(ratio, 8))?;
    }
    Ok(())
}

// What lies behind the first 4,096 ratios is not read.
fn main(rt: HostRuntime) -> io::Result<()> {
    let mut input: [u8; 65536] = rooms::room();
    let end = inputs::read_full(&mut rt.stdin(), &mut input)?;
    run(&rt, &input[..end])
}

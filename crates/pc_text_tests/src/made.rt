//! The printed texts of generated programs. The draws are worked out by hand.
use pc_gen::make;
use pc_print::print;
use pc_test_inputs::{Wrong, compared};
use std::alloc::{AllocError, Global};

const CELL: &[u8] =
    b"class Cell\n  var _n: U64 = 0\n  fun ref add(k: U64) =>\n    _n = _n + k\n  fun value(): U64 =>\n    _n\n\n";

const MAIN: &[u8] = b"actor Main\n  new create(env: Env) =>\n    Work0(env.out, Cell)\n";

// The text of a program with these actors between its class and `Main`.
fn with_workers(alloc: Global, workers: &[u8]) -> Result<Vec<u8>, AllocError> {
    let mut text = Vec::from_slice(alloc, CELL)?;
    text.extend_from_slice(workers)?;
    text.extend_from_slice(MAIN)?;
    Ok(text)
}

// Checks that the generated program has these actors between its class and `Main`.
fn has_workers(alloc: Global, seed: u64, size: u32, workers: &[u8]) -> Result<(), Wrong> {
    if size == 0 || size > 900 {
        return Err(Wrong::PastLimit);
    }
    let wanted = with_workers(alloc, workers)?;
    let file = make(alloc, seed, size)?;
    let text = print(alloc, &file)?;
    compared(text.as_slice(), wanted.as_slice())
}

// The draws of seed 0 are 0 and 468, then 0 and 117.
const ONE: &[u8] =
    b"actor Work0\n  new create(out: OutStream, cell: Cell iso) =>\n    let c: Cell iso = consume cell\n    c.add(468)\n    out.print(c.value().string())\n\n";

const TWO: &[u8] =
    b"actor Work0\n  new create(out: OutStream, cell: Cell iso) =>\n    let c: Cell iso = consume cell\n    c.add(468)\n    Work1(out, consume c)\n\nactor Work1\n  new create(out: OutStream, cell: Cell iso) =>\n    let c: Cell iso = consume cell\n    c.add(117)\n    out.print(c.value().string())\n\n";

// Those of seed 1 are 2 and 758, then 1 and 515.
const OTHERS: &[u8] =
    b"actor Work0\n  new create(out: OutStream, cell: Cell iso) =>\n    let c: Cell iso = consume cell\n    var t: U64 = 0\n    while t < 3 do c.add(t + 758); t = t + 1 end\n    Work1(out, consume c)\n\nactor Work1\n  new create(out: OutStream, cell: Cell iso) =>\n    let c: Cell iso = consume cell\n    if c.value() > 515 then c.add(1) else c.add(515) end\n    out.print(c.value().string())\n\n";

// The first two of seed 3 are 3 and 107.
const FROZEN: &[u8] =
    b"actor Work0\n  new create(out: OutStream, cell: Cell iso) =>\n    let c: Cell iso = consume cell\n    c.add(107)\n    let v: U64 = c.value()\n    let d: Cell val = recover val let e: Cell ref = Cell; e.add(v); e end\n    out.print(d.value().string())\n    out.print(c.value().string())\n\n";

// A seed, a size, and the actors. A seed counts modulo 2^31.
const MADE: [(u64, u32, &[u8]); 5] = [
    (0, 1, ONE),
    (0, 2, TWO),
    (1, 2, OTHERS),
    (3, 1, FROZEN),
    (2_147_483_651, 1, FROZEN),
];

// The place of the first of these programs that has other actors, and what is wrong with it.
fn wrong_program(alloc: Global, made: &[(u64, u32, &[u8])]) -> Option<(usize, Wrong)> {
    for at in 0..made.len() {
        let (seed, size, workers) = made[at];
        if let Err(wrong) = has_workers(alloc, seed, size, workers) {
            return Some((at, wrong));
        }
    }
    None
}

#[test]
fn made_programs_are_what_their_draws_give(rt: HostRuntime) {
    assert_eq!(rt; wrong_program(rt.alloc(), &MADE), None);
}

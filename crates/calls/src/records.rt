// One record of a script: the call that it names, and the line that it prints.
// Each function leaves the planner with which the run goes on, and answers whether its answer was written, or None where the script is cut. (Handed back
// in the answer, the planner would be copied for each Result and Option around it.)
// None of them is laid into `next`: what one needs of the stack the others are not to take.
use crate::{answers, input, lent};
use planner::{After, Loaded, Planner};
use std::io;
use std::io::{Read, Write};

// The next record; one that is unknown ends the run as well.
// Its number is a byte of the script that stands here and nowhere else: an enum would only say each twice.
// The loads go in as closures: by its name alone, the check does not see the contract of another crate's function.
pub(crate) fn next(
    script: &mut impl Read,
    out: &mut impl Write,
    p: &mut Planner,
) -> Option<io::Result<()>> {
    let [kind]: [u8; 1] = input::bytes(script)?;
    match kind {
        1 => load(script, out, p, |p, file| planner::load(p, file)),
        2 => link(script, out, p),
        5 => check(script, out, p),
        6 => solve(script, out, p),
        7 => load(script, out, p, |p, file| planner::load_rows(p, file)),
        8 => room(script, out),
        _ => None,
    }
}

// 1 load and 7 load from rows: u16 length, bytes.
#[inline(never)]
fn load<F: Fn(Planner, &[u8]) -> After<Loaded>>(
    script: &mut impl Read,
    out: &mut impl Write,
    p: &mut Planner,
    call: F,
) -> Option<io::Result<()>>
    requires { F.IsAlwaysCallable call }
{
    let mut buffer = [0u8; 65536];
    let after = call(*p, input::counted(script, &mut buffer)?);
    *p = after.planner;
    Some(answers::of_load(out, after.answer))
}

// 2 link: sender, receiver, open, fixed, rate as five u64.
#[inline(never)]
fn link(script: &mut impl Read, out: &mut impl Write, p: &mut Planner) -> Option<io::Result<()>> {
    let sender = input::number(script)?;
    let receiver = input::number(script)?;
    let opened = input::number(script)?;
    let fixed = input::number(script)?;
    let rate = input::number(script)?;
    let after = planner::link(*p, sender, receiver, opened, fixed, rate);
    *p = after.planner;
    Some(answers::of_link(out, after.answer))
}

// 5 check: u16 length, plan bytes.
#[inline(never)]
fn check(script: &mut impl Read, out: &mut impl Write, p: &Planner) -> Option<io::Result<()>> {
    let mut buffer = [0u8; 65536];
    let answer = planner::check(*p, input::counted(script, &mut buffer)?);
    Some(answers::of_check(out, answer))
}

// 6 solve: u32 number of cells lent, at most 8,192; u32 length of the output lent, at most 4,096.
#[inline(never)]
fn solve(script: &mut impl Read, out: &mut impl Write, p: &Planner) -> Option<io::Result<()>> {
    let n = (input::word(script)? as usize).min(8192);
    let m = (input::word(script)? as usize).min(4096);
    let mut most_cells = [0u64; 8192];
    let mut most_output = [0u8; 4096];
    lent::fill(&mut most_cells, lent::cell_before);
    lent::fill(&mut most_output, lent::byte_before);
    let cells = &mut most_cells[..n];
    let output = &mut most_output[..m];
    let answer = planner::solve(*p, cells, output);
    let needed = planner::cells_needed(*p);
    Some(answers::of_solve(out, answer, needed, cells, output))
}

// 8 room: n and s as two u64, u16 length, join bytes. It takes no planner.
// The buffer stands first: made behind a `?` it would be cleared twice.
#[inline(never)]
fn room(script: &mut impl Read, out: &mut impl Write) -> Option<io::Result<()>> {
    let mut buffer = [0u8; 65536];
    let n = input::number(script)?;
    let s = input::number(script)?;
    let answer = room::room(n, s, input::counted(script, &mut buffer)?);
    Some(answers::of_room(out, answer))
}

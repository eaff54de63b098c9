// The lines of each call's answer. Each word and number is a write of its own, so that of a line that does not fit what fits is written.
ghost use Rattle.std.specs.Prelude.{◌≤◌, ◌<◌, length};

use crate::lent::{byte_before, cell_before, kept};
use planner::{Charge, Loaded, Refusal, Rejection, Solution};
use room::Figures;
use std::io;
use std::io::Write;

fn hex_digit(d: u8) -> u8
    requires { d < 16 }
{
    if d < 10 { b'0' + d } else { b'a' - 10 + d }
}

// The bytes of an output in hexadecimal, at the front of the digits. Not by a format string for each byte: that takes some twenty times as long.
fn hex<'a>(bytes: &[u8], digits: &'a mut [u8; 8192]) -> &'a [u8]
    requires { length bytes.now ≤ 4096 }
{
    for (i, b) in bytes.iter().enumerate() {
        digits[2 * i] = hex_digit(b / 16);
        digits[2 * i + 1] = hex_digit(b % 16);
    }
    &digits[..2 * bytes.len()]
}

pub(crate) fn of_load(out: &mut impl Write, answer: Result<Loaded, Refusal>) -> io::Result<()> {
    match answer {
        Ok(load) => writeln!(out, "load {} {}", load.relations, load.subqueries),
        Err(refusal) => writeln!(out, "{refusal}"),
    }
}

pub(crate) fn of_link(out: &mut impl Write, answer: Result<(), Refusal>) -> io::Result<()> {
    match answer {
        Ok(()) => writeln!(out, "link"),
        Err(refusal) => writeln!(out, "{refusal}"),
    }
}

// `cells OK` or `cells CHANGED`: whether what must be unchanged is.
fn say_kept(out: &mut impl Write, what: &str, kept: bool) -> io::Result<()> {
    let how = if kept { " OK\n" } else { " CHANGED\n" };
    write!(out, "{what}{how}")
}

// Whether the cells from one on are as they were lent.
fn say_cells(out: &mut impl Write, cells: &[u64], from: usize) -> io::Result<()> {
    say_kept(out, "cells", kept(cells, from, cell_before))
}

// Nothing was written to the output, and the cells from one on stay.
fn say_unwritten(
    out: &mut impl Write,
    cells: &[u64],
    from: usize,
    output: &[u8],
) -> io::Result<()> {
    say_cells(out, cells, from)?;
    say_kept(out, "output", kept(output, 0, byte_before))
}

// The first cell that must be unchanged after a refusal: where the output is too short, as many as are needed were used.
fn first_kept(refusal: Refusal, needed: usize) -> usize {
    match refusal {
        Refusal::ShortOutput => needed,
        _ => 0,
    }
}

// Solve's answer, and whether those of the lent cells and bytes stayed that must: without a refusal the cells past the needed ones.
pub(crate) fn of_solve(
    out: &mut impl Write,
    answer: Result<Solution, Refusal>,
    needed: usize,
    cells: &[u64],
    output: &[u8],
) -> io::Result<()>
    requires { length output.now ≤ 4096 }
{
    match answer {
        Ok(
            Solution::Found {
                cost,
                length,
                trials,
            },
        ) => {
            write!(out, "solved {} {length} {trials} ", cost.0)?;
            out.write_all(hex(output, &mut [0u8; 8192]))?;
            writeln!(out)?;
            say_cells(out, cells, needed)
        }
        Ok(Solution::NoRoute { trials }) => {
            writeln!(out, "no-route {trials}")?;
            say_unwritten(out, cells, needed, output)
        }
        Err(refusal) => {
            writeln!(out, "{refusal}")?;
            say_unwritten(out, cells, first_kept(refusal, needed), output)
        }
    }
}

// The place of a step that is refused stands behind the refusal.
pub(crate) fn of_check(out: &mut impl Write, answer: Result<Charge, Rejection>) -> io::Result<()> {
    match answer {
        Ok(cost) => writeln!(out, "check {}", cost.0),
        Err(Rejection { refusal, place }) => match refusal {
            Refusal::UnknownStep
            | Refusal::LoadedBefore
            | Refusal::SendNotAllowed
            | Refusal::JoinNotAllowed
            | Refusal::WrongEnd => writeln!(out, "{refusal} {place}"),
            _ => writeln!(out, "{refusal}"),
        },
    }
}

pub(crate) fn of_room(out: &mut impl Write, answer: Result<Figures, Refusal>) -> io::Result<()> {
    match answer {
        Ok(room) => writeln!(
            out,
            "room {} {} {}",
            room.subqueries, room.cells, room.trials
        ),
        Err(refusal) => writeln!(out, "{refusal}"),
    }
}

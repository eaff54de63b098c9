// A figure: a cost as a number, with a mark for none. Which of two figures is kept.
ghost use Rattle.std.specs.Prelude.{◌+◌, ◌^◌, ◌≤◌, ◌<◌, ◌≡◌};
ghost use Rattle.board.specs.Figures.{none_mark, lesser, better_of};

// The figure that stands for none: no sum of figures and prices comes near it, and no sum with it is below it. A number rather than an Option: figures
// are compared eight at a time by the sign of a difference, where a case of none would be a branch in each lane and twice the bytes.
pub const NONE: u64 = 1152921504606846976;

// A figure and the place where it was found.
#[derive(Clone, Copy)]
pub struct Choice {
    pub figure: u64,
    pub at: usize,
}

// The lesser of a new figure and the kept one, by the sign of their difference: no branch, and fewer instructions than a comparison has.
pub fn lesser(new: u64, kept: u64) -> u64
    requires { (new < 2 ^ 62) × (kept ≤ none_mark) }
    ensures { (result ≡ lesser new kept) × (result ≤ none_mark) }
{
    let d = new as i64 - kept as i64;
    let less = if d < 0 { d } else { 0 };
    (kept as i64 + less) as u64
}

// The new figure at i where it is less than the kept one, else the kept one: of equal figures the lower place stays.
pub fn better(new: u64, i: usize, kept: Choice) -> Choice
    ensures { result ≡ better_of new i kept }
{
    if new < kept.figure {
        Choice { figure: new, at: i }
    } else {
        kept
    }
}

// The held results as an array and a depth, with the methods that the kit's `ArrayVec` has.
ghost use Rattle.std.specs.Prelude.{◌+◌, ◌-◌, ◌≤◌, ◌<◌, ◌≡◌, ◌++◌, [], ◌∷◌, length, take};
ghost use Rattle.rules.specs.Code.{entries};

use crate::{Held, Stack};

impl Stack {
    // Nothing is held.
    pub(crate) fn new() -> Self
        ensures { entries result ≡ [] }
    {
        Stack {
            held: [Held::default(); 9],
            depth: 0,
        }
    }

    // What is held, the top last.
    pub(crate) fn as_slice(&self) -> &[Held]
        ensures value { result.now ≡ entries self.now }
        ensures fits { length result.now ≤ 9 }
    {
        &self.held[..self.depth]
    }

    // Puts a result on top.
    pub(crate) fn push(&mut self, h: Held)
        requires { length (entries self.old) < 9 }
        ensures { entries self.new ≡ entries self.old ++ h ∷ [] }
    {
        self.held[self.depth] = h;
        self.depth += 1;
    }

    // Takes the top away, where there is one.
    pub(crate) fn pop(&mut self)
        ensures { entries self.new ≡ take (length (entries self.old) - 1) (entries self.old) }
    {
        self.depth = self.depth.saturating_sub(1);
    }
}

// How the figures of a join's two operands become one.
ghost use Rattle.std.specs.Prelude.{◌+◌, ◌^◌, ◌<◌, ◌≡◌};

use query::Charge;

// For costs it is the sum.
pub fn combine(a: Charge, b: Charge) -> Charge
    requires { a.0 + b.0 < 2 ^ 64 }
    ensures { result.0 ≡ a.0 + b.0 }
{
    Charge(a.0 + b.0)
}

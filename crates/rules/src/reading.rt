// A step as a plan writes it: a byte for its kind and one for its argument.
ghost use Rattle.std.specs.Prelude.{◌≡◌, get_or};
ghost use Rattle.rules.specs.Code.{step_read};

use crate::Step;
use query::Refusal;

impl TryFrom<[u8; 2]> for Step {
    type Error = Refusal;

    ghost try_from_gives = { λ bytes step. step ≡ step_read (get_or bytes 0 0) (get_or bytes 1 0) };

    fn try_from([kind, arg]: [u8; 2]) -> Result<Step, Refusal> {
        let arg = usize::from(arg);
        match kind {
            1 => Ok(Step::Load(arg)),
            2 => Ok(Step::Send(arg)),
            3 => Ok(Step::Join(arg)),
            _ => Err(Refusal::UnknownStep),
        }
    }
}

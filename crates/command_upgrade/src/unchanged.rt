// Lines that stay as they are.
use command_base::{AnswersLine, LineFault};
use proof_laws::Line;

// Answers each line by itself.
#[derive(Clone, Copy, Debug)]
pub(crate) struct Unchanged;

impl AnswersLine for Unchanged {
    ghost use Rattle.std.specs.Prelude.{◌≡◌};

    ghost Subject = { Unit {0} };

    ghost subject = { λ _. tt };

    ghost answers = { λ _ lines news. news ≡ lines };

    ghost refuses = { λ _ line why. ⊥ };

    fn answer(&mut self, line: Line) -> Result<Line, LineFault> {
        Ok(line)
    }
}

// What the lower level said of a tree's part that was lent to it, as an answer.
#![tactic(auto)]

ghost use Rattle.std.specs.Prelude.{◌≡◌};
ghost use Rattle.lending.specs.Answers.{given_answer};

use rules::{Answer, Fault};

// The answer of a count given back, or a block cleared.
pub fn given_answer(given: Answer, said: Result<(), Fault>) -> Answer
    ensures { result ≡ given_answer given said }
{
    match said {
        Ok(()) => given,
        Err(fault) => Answer::from(fault),
    }
}

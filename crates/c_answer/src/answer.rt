// An answer as the members of `struct locator_answer`: its length, the context used and the form.
ghost use Rattle.std.specs.Prelude.{◌≡◌};
ghost use Rattle.c_answer.specs.Answer.{form_number, answer_members};

use answers::{Form, Refusal};
use locator::Answered;

pub const ANSWER_MEMBERS: usize = 3;

// The number of a form; 0 is no form.
fn form_number(form: Form) -> usize
    ensures { result ≡ form_number form }
{
    match form {
        Form::Nt40 => 1,
        Form::Response => 2,
        Form::Ex => 3,
    }
}

pub fn answer_members(answer: Result<Answered, Refusal>) -> [usize; ANSWER_MEMBERS]
    ensures { result ≡ answer_members answer }
{
    match answer {
        Ok(answered) => [
            answered.length,
            answered.context.0 as usize,
            form_number(answered.form),
        ],
        Err(_) => [0, 0, 0],
    }
}

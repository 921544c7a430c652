ghost use Rattle.std.specs.Prelude.{◌≡◌};
ghost use Rattle.script_text.specs.Questions.{question_of};

use model::Question;

/// The question that has this number.
pub fn question_of_number(number: usize) -> Option<Question>
    ensures { result ≡ question_of number }
{
    match number {
        1 => Some(Question::ClientRandom),
        2 => Some(Question::ServerFlight),
        3 => Some(Question::CheckCertificates),
        4 => Some(Question::CheckSignature),
        5 => Some(Question::WrapPremaster),
        6 => Some(Question::UnwrapPremaster),
        _ => None,
    }
}

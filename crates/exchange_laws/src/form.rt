// How the body of an answer is told.
ghost use Rattle.std.specs.Prelude.{◌≡◌};
ghost use Rattle.session_model.specs.Responses.{form_of};

use http_edge::Form;

/// How the body of an answer is told: 204 and 304 have none.
pub fn form_of(status: u16, body: &[u8]) -> Form
    ensures { result ≡ form_of status body.now }
{
    if status == 204 || status == 304 {
        Form::Empty
    } else {
        Form::Json(body.len() as u64)
    }
}

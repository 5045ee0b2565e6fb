// The refusals, as they go through the frame: each with the one number that its answer tells.
ghost use Rattle.std.specs.Prelude.{◌≡◌};
ghost use Rattle.frame.specs.Refused.{refused};

use rules::Answer;

// Why a call is refused, with the place up to which the text is taken, or with the room that the
// result needs. The last two are those of a page and of a program's request.
#[derive(Clone, Copy)]
pub enum Refusal {
    BadContext,
    TooLong,
    NotUtf8(usize),
    CutShort(usize),
    NotAForm(usize),
    LoneSurrogate(usize),
    NoRoom(usize),
    BadRange,
    BadRequest,
}

// The answer of a refusal.
impl From<Refusal> for Answer {
    ghost from_gives = { λ why answer. answer ≡ refused why };

    fn from(why: Refusal) -> Answer {
        match why {
            Refusal::BadContext => Answer::refusal(rules::BAD_CONTEXT, 0, 0),
            Refusal::TooLong => Answer::refusal(rules::TOO_LONG, 0, 0),
            Refusal::NotUtf8(place) => Answer::refusal(rules::NOT_UTF8, 0, place),
            Refusal::CutShort(place) => Answer::refusal(rules::CUT_SHORT, 0, place),
            Refusal::NotAForm(place) => Answer::refusal(rules::NOT_A_FORM, 0, place),
            Refusal::LoneSurrogate(place) => Answer::refusal(rules::LONE_SURROGATE, 0, place),
            Refusal::NoRoom(length) => Answer::refusal(rules::NO_ROOM, length, 0),
            Refusal::BadRange => Answer::refusal(rules::BAD_RANGE, 0, 0),
            Refusal::BadRequest => Answer::refusal(rules::BAD_REQUEST, 0, 0),
        }
    }
}

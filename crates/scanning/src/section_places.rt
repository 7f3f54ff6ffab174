// Where a section went wrong that is refused: by its text where its end is there, by its whole length where it is not.
ghost use Rattle.std.specs.Prelude.{◌≡◌};
ghost use Rattle.stream.specs.Places.{head_place, line_place, trailer_place};

use crate::texts;

#[tactic(auto, using(crate::proofs::AnswerLaws::place_ended, crate::proofs::AnswerLaws::place_open), unfolding(stream::specs::Places::head_place, stream::specs::Head::ends_head))]
pub fn head_place(text: &[u8]) -> usize
    ensures { result ≡ head_place text.now }
{
    if text::ends_twice(text) {
        return texts::head(text).at;
    }
    text.len()
}

#[tactic(auto, using(crate::proofs::AnswerLaws::place_ended, crate::proofs::AnswerLaws::place_open), unfolding(stream::specs::Places::line_place))]
pub fn line_place(text: &[u8]) -> usize
    ensures { result ≡ line_place text.now }
{
    if text::ends_line(text) {
        return texts::chunk_line(text).at;
    }
    text.len()
}

#[tactic(auto, using(crate::proofs::AnswerLaws::place_ended, crate::proofs::AnswerLaws::place_open), unfolding(stream::specs::Places::trailer_place, stream::specs::Trailer::ends_trailer))]
pub fn trailer_place(text: &[u8]) -> usize
    ensures { result ≡ trailer_place text.now }
{
    if text::is_crlf(text) | text::ends_twice(text) {
        return texts::trailer(text).at;
    }
    text.len()
}

// Each kind of text with its line ends: whether it is good by its text alone, and how many of its first bytes some good text also has.
ghost use Rattle.std.specs.Prelude.{◌≡◌};
ghost use Rattle.octets.specs.Viable.{LongestViable};
ghost use Rattle.stream.specs.Blocks.{is_chunk_line};
ghost use Rattle.stream.specs.Forms.{chunk_form, data_end_form, field_line_form, head_form, name_form, status_line_form, trailer_form};
ghost use Rattle.stream.specs.GoodText.{is_good_data_end, is_good_field_line, is_good_head, is_good_status_line, is_good_trailer, is_name};
ghost use Rattle.scanning.specs.Answers.{answer_for};

use crate::scan::scan;
use crate::state::State;
use places::Checked;

pub fn chunk_line(text: &[u8]) -> Checked
    ensures answers { result ≡ answer_for is_chunk_line chunk_form text.now }
    ensures exactly { LongestViable is_chunk_line text.now result.at }
{
    scan(State::Line, text)
}

pub fn data_end(text: &[u8]) -> Checked
    ensures answers { result ≡ answer_for is_good_data_end data_end_form text.now }
    ensures exactly { LongestViable is_good_data_end text.now result.at }
{
    scan(State::Return, text)
}

pub fn trailer(text: &[u8]) -> Checked
    ensures answers { result ≡ answer_for is_good_trailer trailer_form text.now }
    ensures exactly { LongestViable is_good_trailer text.now result.at }
{
    scan(State::Lines, text)
}

pub fn head(text: &[u8]) -> Checked
    ensures answers { result ≡ answer_for is_good_head head_form text.now }
    ensures exactly { LongestViable is_good_head text.now result.at }
{
    scan(State::Version(true, 0), text)
}

pub fn status_line(text: &[u8]) -> Checked
    ensures answers { result ≡ answer_for is_good_status_line status_line_form text.now }
    ensures exactly { LongestViable is_good_status_line text.now result.at }
{
    scan(State::Version(false, 0), text)
}

pub fn field_line(text: &[u8]) -> Checked
    ensures answers { result ≡ answer_for is_good_field_line field_line_form text.now }
    ensures exactly { LongestViable is_good_field_line text.now result.at }
{
    scan(State::Field, text)
}

// The name of a field, without what follows it.
pub fn name(text: &[u8]) -> Checked
    ensures answers { result ≡ answer_for is_name name_form text.now }
    ensures exactly { LongestViable is_name text.now result.at }
{
    scan(State::Name, text)
}

// What one byte of the trailer does: it is gathered from the front of the block buffer, and judged once, at its end; with it the end of the show.
#![tactic(auto)]

ghost use Rattle.std.specs.Prelude.{List, ◌≡◌, ℕ, ◌≤◌, length};
ghost use Rattle.stream.specs.Trailer.{is_whole_trailer};
ghost use Rattle.state.specs.Configuration.{configuration, next_of};
ghost use Rattle.trailer_steps.specs.Trailer.{trailer_answered, trailer_gathered, push_trailer};

use ends::Asked;
use limits::HEAD_LIMIT;
use refusals::Refusal;
use state::{Phase, Reader, Stepped, Word, in_phase, refused, said};

#[tactic(auto, unfolding(stream::specs::Trailer::is_whole_trailer))]
fn is_whole_trailer(text: &[u8]) -> bool
    ensures { result ≡ is_whole_trailer text.now }
{
    field_lines::ends_trailer(text) | (HEAD_LIMIT <= text.len())
}

// Where the judgement of the trailer of `have` bytes leads; a refusal clears it.
#[tactic(auto, unfolding(crate::specs::Trailer::trailer_answered))]
fn answer_judged(
    r: Reader,
    block: &mut [u8],
    have: usize,
    total: u64,
    judged: Result<Option<Asked>, Refusal>,
) -> Stepped
    ensures { (h q : List ℕ) → next_of result h block.new q ≡ trailer_answered (configuration r h block.old q) have total judged }
{
    match judged {
        Ok(None) => said(Word::Closed(total), in_phase(r, Phase::Closed(total))),
        Ok(Some(asked)) => {
            let length = asked.length;
            let key = r.fixed.key;
            let signature = asked.signature;
            Stepped {
                word: Word::Question { length, key },
                signature,
                reader: in_phase(r, Phase::EndAsked { have, total }),
            }
        }
        Err(why) => refused(r, block, have, why),
    }
}

// With its newest byte, the trailer is the first `have` bytes of the block buffer.
#[tactic(auto, unfolding(crate::specs::Trailer::trailer_gathered))]
fn judge_trailer(
    r: Reader,
    head: &[u8],
    block: &mut [u8],
    question: &mut [u8],
    have: usize,
    total: u64,
) -> Stepped
    requires { have ≤ length block.old }
    ensures { next_of result head.now block.new question.new ≡ trailer_gathered (configuration r head.now block.old question.old) have total }
{
    if !is_whole_trailer(&block[..have]) {
        return said(Word::More, r);
    }
    let hash = sha256::finish(r.chain.body);
    let text = handing::accepted_head(head, r.fixed.accepted);
    let judged = ends::judge(text, &block[..have], total, hash, question);
    answer_judged(r, block, have, total, judged)
}

// A byte of the trailer, of which `have` bytes have come, after a body of `total` bytes.
#[tactic(auto, unfolding(crate::specs::Trailer::push_trailer))]
pub fn push_trailer(
    r: Reader,
    head: &[u8],
    block: &mut [u8],
    question: &mut [u8],
    have: usize,
    total: u64,
    x: u8,
) -> Stepped
    ensures { next_of result head.now block.new question.new ≡ push_trailer (configuration r head.now block.old question.old) have total x }
{
    if block.len() <= have {
        let at = HEAD_LIMIT;
        return refused(r, block, have, Refusal { number: 6, at });
    }
    block[have] = x;
    let next = have + 1;
    let reader = in_phase(r, Phase::Trailer { have: next, total });
    judge_trailer(reader, head, block, question, next, total)
}

// What one byte of the head does: it is gathered from the front of the head buffer, and the head that is whole with it is judged.
#![tactic(auto)]

ghost use Rattle.std.specs.Prelude.{List, ◌≡◌, ℕ, ◌≤◌, length};
ghost use Rattle.ring.specs.Keys.{terms_of};
ghost use Rattle.stream.specs.Head.{is_whole_head};
ghost use Rattle.state.specs.Configuration.{configuration, next_of};
ghost use Rattle.head_steps.specs.HeadByte.{asking, head_answered, head_gathered, push_head};

use blocks::BlockNumber;
use judging::Asked;
use limits::HEAD_LIMIT;
use refusals::Refusal;
use ring::KeyRing;
use state::{Chain, Fixed, Phase, Reader, Stepped, Word};

#[tactic(auto, unfolding(stream::specs::Head::is_whole_head, stream::specs::Head::ends_head))]
fn is_whole_head(text: &[u8]) -> bool
    ensures { result ≡ is_whole_head text.now }
{
    text::ends_twice(text) | (HEAD_LIMIT <= text.len())
}

// The reader with its head's question open: it keeps what the head fixes.
fn asked(r: Reader, n: usize, fixed: Fixed) -> Reader
    ensures { result ≡ asking r n fixed }
{
    let chain = Chain {
        number: BlockNumber(0),
        body: sha256::start(),
        ..r.chain
    };
    Reader {
        phase: Phase::HeadAsked(n),
        fixed,
        chain,
        ..r
    }
}

// Where the judgement of the head of n bytes leads. Nothing is pending, so that a refusal clears nothing.
#[tactic(auto, using(state::proofs::BufferLaws::cleared_none), unfolding(crate::specs::HeadByte::head_answered, state::specs::Configuration::refuse))]
fn answer_judged(r: Reader, n: usize, judged: Result<Asked, Refusal>) -> Stepped
    ensures { (h b q : List ℕ) → next_of result h b q ≡ head_answered (configuration r h b q) n judged }
{
    match judged {
        Err(why) => state::said(
            Word::Refused(why),
            state::in_phase(r, Phase::Refused(why.number)),
        ),
        Ok(a) => {
            let id = a.id;
            let signature = a.signature;
            let fixed = Fixed {
                status: a.status,
                block_size: a.size,
                extent: a.extent,
                key: a.key,
                id,
                id_length: a.id_length,
                ..r.fixed
            };
            Stepped {
                word: Word::Question {
                    length: a.length,
                    key: a.key,
                },
                signature,
                reader: asked(r, n, fixed),
            }
        }
    }
}

// With its newest byte, the head is the first n bytes of the head buffer.
#[tactic(auto, unfolding(crate::specs::HeadByte::head_gathered))]
fn judge_head(
    r: Reader,
    head: &[u8],
    question: &mut [u8],
    ring: KeyRing,
    uri: &[u8],
    n: usize,
) -> Stepped
    requires { n ≤ length head.now }
    ensures { (b : List ℕ) → next_of result head.now b question.new ≡ head_gathered (terms_of ring uri.now) (configuration r head.now b question.old) n }
{
    if !is_whole_head(&head[..n]) {
        return state::said(Word::More, r);
    }
    let judged = judging::judge(&head[..n], ring, uri, question);
    answer_judged(r, n, judged)
}

// A byte of the head, of which `have` bytes have come.
#[tactic(auto, using(state::proofs::BufferLaws::cleared_none), unfolding(crate::specs::HeadByte::push_head, state::specs::Configuration::refuse))]
pub fn push_head(
    r: Reader,
    head: &mut [u8],
    question: &mut [u8],
    ring: KeyRing,
    uri: &[u8],
    have: usize,
    x: u8,
) -> Stepped
    ensures { (b : List ℕ) → next_of result head.new b question.new ≡ push_head (terms_of ring uri.now) (configuration r head.old b question.old) have x }
{
    if head.len() <= have {
        let why = Refusal {
            number: 3,
            at: HEAD_LIMIT,
        };
        return state::said(Word::Refused(why), state::in_phase(r, Phase::Refused(3)));
    }
    head[have] = x;
    let next = have + 1;
    judge_head(
        state::in_phase(r, Phase::Head(next)),
        head,
        question,
        ring,
        uri,
        next,
    )
}

// The reader's calls, with contracts in the words of the claims: a run starts from `fresh_reader`, `called` is one call of it, and
// `block_seen`, `value_seen` and `count_seen` are what the claims say a caller sees. Each body is the call itself.
#![tactic(auto)]

ghost use Rattle.std.specs.Prelude.{List, ◌≡◌, ℕ};
ghost use Rattle.sections.specs.Calls as C;
ghost use Rattle.state.specs.Configuration.{configuration, fresh_reader};
ghost use Rattle.calls.specs.Response.{made};
ghost use Rattle.agreement.specs.Run.{called, block_seen, value_seen, count_seen};

use reader::Outcome;
use ring::KeyRing;
use state::Reader;

fn fresh() -> Reader
    ensures { result ≡ fresh_reader }
{
    reader::fresh()
}

fn feed(
    r: Reader,
    head: &mut [u8],
    block: &mut [u8],
    question: &mut [u8],
    ring: KeyRing,
    uri: &[u8],
    piece: &[u8],
) -> Outcome
    ensures { made result head.new block.new question.new ≡ called ring uri.now (configuration r head.old block.old question.old) (C.feed piece.now) }
{
    reader::feed(r, head, block, question, ring, uri, piece)
}

fn answer(r: Reader, head: &mut [u8], block: &mut [u8], question: &mut [u8], good: bool) -> Outcome
    ensures { (ring : KeyRing) (uri : List ℕ) → made result head.new block.new question.new ≡ called ring uri (configuration r head.old block.old question.old) (C.answer good) }
{
    reader::answer(r, head, block, question, good)
}

fn end(r: Reader, head: &mut [u8], block: &mut [u8], question: &mut [u8]) -> Outcome
    ensures { (ring : KeyRing) (uri : List ℕ) → made result head.new block.new question.new ≡ called ring uri (configuration r head.old block.old question.old) C.end }
{
    reader::end(r, head, block, question)
}

fn block_part(r: Reader, block: &[u8]) -> &[u8]
    ensures { (h q : List ℕ) → result.now ≡ block_seen (configuration r h block.now q) }
{
    reader::block_part(block, r.released)
}

fn field_part<'a>(r: Reader, head: &'a [u8], name: &[u8]) -> &'a [u8]
    ensures { (b q : List ℕ) → result.now ≡ value_seen (configuration r head.now b q) name.now }
{
    let fixed = r.fixed;
    reader::field_part(head, fixed.accepted, name)
}

fn field_count(r: Reader, head: &[u8], name: &[u8]) -> usize
    ensures { (b q : List ℕ) → result ≡ count_seen (configuration r head.now b q) name.now }
{
    let fixed = r.fixed;
    reader::field_count(head, fixed.accepted, name)
}

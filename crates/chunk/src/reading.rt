// The text of a chunk line, taken apart.
ghost use Rattle.std.specs.Prelude.{◌≡◌};
ghost use Rattle.chunk.specs.Parts.{extension_read, text_read, line_read};

use classes::Class;

// What a line carries after the size of its chunk.
#[derive(Clone, Copy)]
pub(crate) enum Carried {
    Nothing,
    Signature([u8; 64]),
    Hash([u8; 64]),
}

#[derive(Clone, Copy)]
pub(crate) struct ChunkText {
    pub size: u64,
    pub carried: Carried,
}

// What stands after the size: nothing, or a signature or a hash with its name in front.
#[tactic(auto, using(crate::proofs::ReadLaws::rest_is, crate::proofs::ReadLaws::signature_room, crate::proofs::ReadLaws::hash_room), unfolding(crate::specs::Parts::extension_read))]
fn read_extension(rest: &[u8]) -> Option<Carried>
    ensures { result ≡ extension_read rest.now }
{
    if rest.is_empty() {
        return Some(Carried::Nothing);
    }
    if text::starts_with(rest, 0, b";ouisig=") {
        return Some(Carried::Signature(base64_text::bytes(&rest[8..])?));
    }
    if text::starts_with(rest, 0, b";ouihash=") {
        return Some(Carried::Hash(base64_text::bytes(&rest[9..])?));
    }
    None
}

// A line without its CR LF.
fn read_text(s: &[u8]) -> Option<ChunkText>
    ensures { result ≡ text_read s.now }
{
    let end = classes::run_end(s, 0, Class::Hex);
    let size = number::hex(&s[..end], limits::SIZE_DIGITS).ok()?;
    let carried = read_extension(&s[end..])?;
    Some(ChunkText { size, carried })
}

// A whole line, CR LF included.
#[tactic(auto, using(crate::proofs::ReadLaws::line_room, crate::proofs::ReadLaws::line_ended), unfolding(crate::specs::Parts::line_read, stream::specs::Blocks::is_chunk_line))]
pub(crate) fn read(line: &[u8]) -> Option<ChunkText>
    ensures { result ≡ line_read line.now }
{
    if !text::ends_line(line) {
        return None;
    }
    read_text(&line[..line.len() - 2])
}

// A head read whole: what it says, or the first rule that it breaks.
ghost use Rattle.std.specs.Prelude.{◌≡◌, true};
ghost use Rattle.fields.specs.Table.{fields_in};
ghost use Rattle.stream.specs.Head.{head_of};
ghost use Rattle.stream.specs.Lines.{is_status_line};
ghost use Rattle.head.specs.Reading.{Reads};
ghost use Rattle.head.specs.Steps.{ReadsRest};

use crate::signed::Signed;
use crate::{lines, plain, signed, status};
use fields::Fields;
use ranges::Extent;

// The status as a number, the bytes of the body that the answer carries, the table of the fields, and the parameters.
#[derive(Clone, Copy)]
pub struct HeadRead {
    pub status: u64,
    pub extent: Extent,
    pub fields: Fields,
    pub signed: Signed,
}

// Or the number of the first broken rule, since the groups of rules are asked in their order.
pub fn read(text: &[u8]) -> Result<HeadRead, u8>
    ensures { Reads text.now result }
{
    let Some(table) = lines::read_lines(text) else {
        return Err(3);
    };
    let version = plain::version_fault(text, table);
    if version != 0 {
        return Err(version);
    }
    read_rest(text, table).ok_or(4)
}

// What the head with these fields says, if it keeps the rules after the version's.
fn read_rest(text: &[u8], table: Fields) -> Option<HeadRead>
    requires status_line { is_status_line (head_of text.now).status_line ≡ true }
    requires fields { fields_in text.now table ≡ (head_of text.now).fields }
    ensures { ReadsRest text.now result }
{
    if !plain::is_plain(text, table) {
        return None;
    }
    let signed = signed::read_signed(text, table).all()?;
    let bsigs = signed.bsigs;
    let status = status::read_status(text, table, bsigs.size).ok()?;
    let extent = status.extent;
    Some(HeadRead {
        status: status.number,
        extent,
        fields: table,
        signed,
    })
}

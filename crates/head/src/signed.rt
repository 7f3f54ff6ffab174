// The fields that hold parameters: `X-Ouinet-Injection`, `X-Ouinet-BSigs`, `X-Ouinet-Sig0` and its list of names.
ghost use Rattle.std.specs.Prelude.{List, ℕ};
ghost use Rattle.fields.specs.Table.{fields_in};
ghost use Rattle.params.specs.HeadSig.{ReadsSig0};
ghost use Rattle.stream.specs.Fields.{value_of};
ghost use Rattle.stream.specs.Lines.{Field};
ghost use Rattle.stream.specs.Signatures.{sig0_name, sig0_scan};
ghost use Rattle.head.specs.Steps.{ReadsList, ReadsSigned, SaysParts};

use fields::Fields;
use names::Names;
use params::{Bsigs, Injection, Sig0};

// What each says. The places of `sig0` are places in the head's text; those of `names` are places in the part of it that has the
// names.
#[derive(Clone, Copy)]
pub struct Signed {
    pub injection: Injection,
    pub bsigs: Bsigs,
    pub sig0: Sig0,
    pub names: Names,
}

// What each says by itself, whatever the others are; None where it is not good.
#[derive(Clone, Copy)]
pub struct SignedParts {
    pub injection: Option<Injection>,
    pub bsigs: Option<Bsigs>,
    pub sig0: Option<Sig0>,
    pub names: Option<Names>,
}

impl SignedParts {
    // None where one of them is not good.
    pub fn all(self) -> Option<Signed>
        ensures { (text : List ℕ) (fs : List Field) → SaysParts text fs self → ReadsSigned text fs result }
    {
        let injection = self.injection?;
        let bsigs = self.bsigs?;
        let sig0 = self.sig0?;
        let names = self.names?;
        Some(Signed {
            injection,
            bsigs,
            sig0,
            names,
        })
    }
}

// What `X-Ouinet-Sig0` says, with its places in the whole text.
fn sig0_in(text: &[u8], f: Fields) -> Option<Sig0>
    ensures { ReadsSig0 text.now (sig0_scan (value_of sig0_name (fields_in text.now f))) result }
{
    let v = fields::find(text, f, b"x-ouinet-sig0")?;
    let start = v.start;
    let s = params::read_sig0(places::part(text, start, v.end))?;
    let key = s.key;
    let signature = s.signature;
    Some(Sig0 {
        key,
        signature,
        created_start: start + s.created_start,
        created_end: start + s.created_end,
        names_start: start + s.names_start,
        names_end: start + s.names_end,
    })
}

// The names that `X-Ouinet-Sig0` lists, where the list is good.
fn listed(text: &[u8], f: Fields, read: Option<Sig0>) -> Option<Names>
    requires { ReadsSig0 text.now (sig0_scan (value_of sig0_name (fields_in text.now f))) read }
    ensures { ReadsList (fields_in text.now f) (sig0_scan (value_of sig0_name (fields_in text.now f))) result }
{
    let sig0 = read?;
    let list = places::part(text, sig0.names_start, sig0.names_end);
    let names = names::read_names(list)?;
    if !names::is_list(text, f, list, names) {
        return None;
    }
    Some(names)
}

pub fn read_signed(text: &[u8], f: Fields) -> SignedParts
    ensures { SaysParts text.now (fields_in text.now f) result }
{
    let injection = params::read_injection(fields::value_of(text, f, b"x-ouinet-injection"));
    let bsigs = params::read_bsigs(fields::value_of(text, f, b"x-ouinet-bsigs"));
    let sig0 = sig0_in(text, f);
    let names = listed(text, f, sig0);
    SignedParts {
        injection,
        bsigs,
        sig0,
        names,
    }
}

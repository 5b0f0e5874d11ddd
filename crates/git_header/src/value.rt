ghost use Rattle.std.specs.Prelude.{◌++◌, IfOk, IfErr};
ghost use Rattle.hex.specs.Hex.{encode_lower};
ghost use Rattle.git_name.specs.Name.{IsName};
ghost use Rattle.git_name.specs.Text.{Lacks};
ghost use Rattle.git_header.specs.Line.{IsLine};
ghost use Rattle.git_header.specs.Value.{IsNameText, IsIdentLine, IsNoValue};
ghost use Rattle.git_header.specs.Ident.{IsIdentValue, spelled_ident};
ghost use Rattle.git_header.specs.View.{ident_of};
ghost use Rattle.git_header.specs.declared.fault.HeaderFault.TheVariants as fault;

use crate::fault::HeaderFault;
use crate::ident::Ident;
use crate::line::take_value;
use git_name::Name;

/// The name after the required word in the first line of a header, and what follows the line.
pub fn take_name<'a>(word: &[u8], text: &'a [u8]) -> Result<(Name, &'a [u8]), HeaderFault>
    ensures name { IfOk result (λ p. IsName p.0) }
    ensures found { IfOk result (λ p. IsLine (word.now ++ encode_lower p.0) p.1.now text.now) }
    ensures plain { IfOk result (λ p. Lacks 0 (word.now ++ encode_lower p.0)) }
    ensures exact { IfErr result (λ why. IsNoValue word.now IsNameText fault.Name why text.now) }
{
    let (digits, rest) = take_value(word, text)?;
    let Some(name) = Name::parse_hex(digits) else {
        return Err(HeaderFault::Name);
    };
    let _bytes = name.as_bytes();
    Ok((name, rest))
}

/// The ident after the required word in the first line of a header, and what follows the line.
pub fn take_ident<'a>(word: &[u8], text: &'a [u8]) -> Result<(Ident<'a>, &'a [u8]), HeaderFault>
    ensures ident { IfOk result (λ p. IsIdentValue (ident_of p.0)) }
    ensures found { IfOk result (λ p. IsLine (word.now ++ spelled_ident (ident_of p.0)) p.1.now text.now) }
    ensures plain { IfOk result (λ p. Lacks 0 (word.now ++ spelled_ident (ident_of p.0))) }
    ensures exact { IfErr result (λ why. IsNoValue word.now IsIdentLine fault.Ident why text.now) }
{
    let (value, rest) = take_value(word, text)?;
    let Some(ident) = Ident::read(value) else {
        return Err(HeaderFault::Ident);
    };
    Ok((ident, rest))
}

ghost use Rattle.std.specs.Prelude.{◌≡◌, ◌++◌, List, ℕ, map, codes, OnOk, IfOk};
ghost use Rattle.std.specs.List.{flat_map, AllByRecursion};
ghost use Rattle.git_name.specs.Name.{IsName};
ghost use Rattle.git_name.specs.Text.{ended};
ghost use Rattle.git_header.specs.Line.{ending};
ghost use Rattle.git_header.specs.Header.{continuing, header_lines};
ghost use Rattle.git_header.specs.Value.{word_and_name, ident_line};
ghost use Rattle.git_commit.specs.Commit.{IsCommit, parent_line};
ghost use Rattle.git_header.specs.View.{ident_of};
ghost use Rattle.git_header.specs.Ident.{spelled_time, spelled_ident};
ghost use Rattle.git_header.specs.Left.{header_of, more_left};
ghost use Rattle.git_header.specs.Lent.{message_of};

use crate::header::Header;
use git_header::{Continuation, Ident, Sign};
use git_name::Name;
use itoa::Buffer;
use std::alloc::{AllocError, Global};

// Writes a word, a name and a line feed.
fn put_name(out: &mut Vec<u8>, word: &[u8], name: &Name) -> Result<(), AllocError>
    ensures line { OnOk result (out.new.items ≡ out.old.items ++ ended (word_and_name word.now name.now)) }
    ensures name { IsName name.now }
{
    // Called for its clause that the bytes are a name.
    let _bytes = name.as_bytes();
    let mut digits = [0; 64];
    name.write_hex(&mut digits);
    out.extend_from_slice(word)?;
    out.extend_from_slice(&digits)?;
    out.push(b'\n')?;
    Ok(())
}

// Writes a line for each parent.
fn put_parents(out: &mut Vec<u8>, parents: &[Name]) -> Result<(), AllocError>
    ensures lines { OnOk result (out.new.items ≡ out.old.items ++ flat_map ended (map parent_line parents.now)) }
    ensures names { OnOk result (AllByRecursion IsName parents.now) }
{
    for parent in parents {
        put_name(out, b"parent ", parent)?;
    }
    Ok(())
}

// Writes what follows the angle brackets.
fn put_time(out: &mut Vec<u8>, seconds: u64, sign: Sign, zone: &[u8]) -> Result<(), AllocError>
    ensures { OnOk result (out.new.items ≡ out.old.items ++ spelled_time seconds sign zone.now) }
{
    let mut digits = Buffer::new();
    out.push(b' ')?;
    out.extend_from_slice(digits.format(seconds).as_bytes())?;
    out.push(b' ')?;
    out.push(sign.byte())?;
    out.extend_from_slice(zone)?;
    Ok(())
}

// Writes an ident.
fn put_ident(out: &mut Vec<u8>, ident: Ident<'_>) -> Result<(), AllocError>
    ensures { OnOk result (out.new.items ≡ out.old.items ++ spelled_ident (ident_of ident.entry)) }
{
    out.extend_from_slice(ident.name())?;
    out.push(b'<')?;
    out.extend_from_slice(ident.email())?;
    out.push(b'>')?;
    put_time(out, ident.seconds(), ident.sign(), ident.zone())
}

// Writes a word, an ident and a line feed.
fn put_ident_line(out: &mut Vec<u8>, word: &[u8], ident: Ident<'_>) -> Result<(), AllocError>
    ensures { OnOk result (out.new.items ≡ out.old.items ++ ended (ident_line word.now (ident_of ident.entry))) }
{
    out.extend_from_slice(word)?;
    put_ident(out, ident)?;
    out.push(b'\n')?;
    Ok(())
}

// Writes continuation lines.
fn put_more(out: &mut Vec<u8>, more: Continuation<'_>) -> Result<(), AllocError>
    ensures { OnOk result (out.new.items ≡ out.old.items ++ flat_map ended (map continuing (more_left more.entry))) }
{
    for value in more {
        out.push(b' ')?;
        out.extend_from_slice(value)?;
        out.push(b'\n')?;
    }
    Ok(())
}

// Writes a further header.
fn put_header(out: &mut Vec<u8>, header: Header<'_>) -> Result<(), AllocError>
    ensures { OnOk result (out.new.items ≡ out.old.items ++ flat_map ended (header_lines (header_of header.entry))) }
{
    out.extend_from_slice(header.key())?;
    out.push(b' ')?;
    out.extend_from_slice(header.value())?;
    out.push(b'\n')?;
    put_more(out, header.more())
}

// Writes further headers.
fn put_headers(out: &mut Vec<u8>, headers: &[Header<'_>]) -> Result<(), AllocError>
    ensures { OnOk result (out.new.items ≡ out.old.items ++ flat_map ended (flat_map header_lines (map header_of headers.now))) }
{
    for header in headers {
        put_header(out, *header)?;
    }
    Ok(())
}

// Writes the empty line and the message, if there is one.
fn put_message(out: &mut Vec<u8>, message: Option<&[u8]>) -> Result<(), AllocError>
    ensures { OnOk result (out.new.items ≡ out.old.items ++ ending (message_of message.entry)) }
{
    let Some(message) = message else {
        return Ok(());
    };
    out.push(b'\n')?;
    out.extend_from_slice(message)?;
    Ok(())
}

/// Returns the bytes of the commit of these parts, which are valid by their types.
pub fn write(
    alloc: Global,
    tree: &Name,
    parents: &[Name],
    author: Ident<'_>,
    committer: Ident<'_>,
    headers: &[Header<'_>],
    message: Option<&[u8]>,
) -> Result<Vec<u8>, AllocError>
    ensures { IfOk result (λ out. IsCommit (record { tree = tree.now; parents = parents.now; author = ident_of author.entry; committer = ident_of committer.entry; headers = map header_of headers.now; message = message_of message.entry }) out.items) }
{
    let mut out = Vec::new(alloc);
    put_name(&mut out, b"tree ", tree)?;
    put_parents(&mut out, parents)?;
    put_ident_line(&mut out, b"author ", author)?;
    put_ident_line(&mut out, b"committer ", committer)?;
    put_headers(&mut out, headers)?;
    put_message(&mut out, message)?;
    Ok(out)
}

ghost use Rattle.std.specs.Prelude.{◌≡◌, IfOk, IfErr, IsOkAnd};

use crate::fault::TagFault;
use crate::header::TagHeaders;
use crate::parts::{take_object, take_tag_name, take_tagger, take_type};
use git_header::Ident;
use git_name::{Kind, Name};

/// A tag, borrowed from its bytes.
#[derive(Clone, Copy, Debug)]
pub struct Tag<'a> {
    object: Name,
    kind: Kind,
    name: &'a [u8],
    tagger: Option<Ident<'a>>,
    headers: TagHeaders<'a>,
    message: Option<&'a [u8]>,
}

impl<'a> Tag<'a> {
    ghost use Rattle.std.specs.Option.{option_map};
    ghost use Rattle.std.specs.Result.{result_ok};
    ghost use Rattle.git_header.specs.Lent.{message_of};
    ghost use Rattle.git_object.specs.Whole.{tag_of};
    ghost use Rattle.git_object.specs.Tag.{TagValue, IsTag};
    ghost use Rattle.git_object.specs.TagIn.{tag_in};
    ghost use Rattle.git_object.specs.Fault.{IsTagFault};
    ghost use Rattle.git_header.specs.Left.{headers_left};
    ghost use Rattle.git_object.specs.View.{tagger_of};

    // Reads the parts of a tag in turn.
    fn parts_of(bytes: &'a [u8]) -> Result<Tag<'a>, TagFault>
        ensures found { IfOk result (λ tag. IsTag (tag_of tag) bytes.now) }
        ensures exact { IfErr result (λ why. IsTagFault why bytes.now) }
    {
        let (object, rest) = match take_object(bytes) {
            Ok(taken) => taken,
            Err(fault) => return Err(fault),
        };
        let (kind, rest) = take_type(rest)?;
        let (name, rest) = take_tag_name(rest)?;
        let (tagger, rest) = take_tagger(rest)?;
        let (headers, message) = TagHeaders::take(rest)?;
        Ok(Tag {
            object,
            kind,
            name,
            tagger,
            headers,
            message,
        })
    }

    /// Reads a tag from its one spelling. It allocates nothing.
    pub fn read(bytes: &'a [u8]) -> Result<Tag<'a>, TagFault>
        // What is read is a tag of these parts.
        ensures found { IfOk result (λ tag. IsTag (tag_of tag) bytes.now) }
        // Every tag is read.
        ensures only { (value : TagValue) → IsTag value bytes.now → IsOkAnd result (λ tag. tag_of tag ≡ value) }
        // The value that models compute.
        ensures value { option_map tag_of (result_ok result) ≡ tag_in bytes.now }
        // Which fault it is.
        ensures exact { IfErr result (λ why. IsTagFault why bytes.now) }
    {
        Tag::parts_of(bytes)
    }

    /// The name of the tagged object.
    pub fn object(&self) -> Name
        ensures { result ≡ (tag_of self.now).object }
    {
        self.object
    }

    /// The kind that the tagged object must have.
    pub fn kind(&self) -> Kind
        ensures { result ≡ (tag_of self.now).kind }
    {
        self.kind
    }

    /// The name that the tag gives itself.
    pub fn name(&self) -> &'a [u8]
        ensures { result.now ≡ (tag_of self.now).name }
    {
        self.name
    }

    /// Who made it, and when. Old tags have no tagger.
    pub fn tagger(&self) -> Option<Ident<'a>>
        ensures { tagger_of result ≡ (tag_of self.now).tagger }
    {
        self.tagger
    }

    /// The further headers, in order.
    pub fn headers(&self) -> TagHeaders<'a>
        ensures { headers_left result ≡ (tag_of self.now).headers }
    {
        self.headers
    }

    /// The message. `None` is no message, which differs from an empty one.
    pub fn message(&self) -> Option<&'a [u8]>
        ensures { message_of result ≡ (tag_of self.now).message }
    {
        self.message
    }
}

ghost use Rattle.std.specs.Prelude.{◌≡◌, ◌∷◌};

mod changes;
mod offers;
mod queries;

use crate::words::{is_word, sole_word, two_words};
use changes::{drop_of, fork, init, part_end, push, set_head, update_refs};
use git_name::{first_word, split_once};
use offers::read_offering;

/// The greatest length of a payload in bytes.
pub const MAX_PAYLOAD: usize = 1_048_576;

/// A tenant's request. Its words and its body are borrowed from the payload. A word is any bytes except
/// SP and LF; whether it is a valid name is judged when the request is answered.
#[derive(Clone, Copy, Debug)]
pub enum Request<'a> {
    /// `init REPO`: a new repository.
    Init(&'a [u8]),
    /// `drop REPO`: removes a repository with its references.
    Drop(&'a [u8]),
    /// `fork SRC DST`: a new repository with the references and the HEAD of another.
    Fork(&'a [u8], &'a [u8]),
    /// `push REPO` and a body: a transaction of references, and new objects.
    Push(&'a [u8], &'a [u8]),
    /// `part` and a body: a piece of an upload.
    Part(&'a [u8]),
    /// `part-end REPO`: uses the upload as a push's body.
    PartEnd(&'a [u8]),
    /// `part-drop`: discards the upload.
    PartDrop,
    /// `update-refs REPO` and a body: a transaction of references.
    UpdateRefs(&'a [u8], &'a [u8]),
    /// `set-head REPO REF`: makes HEAD of a repository name another branch.
    SetHead(&'a [u8], &'a [u8]),
    /// `offer REPO TENANT`: shows a repository, as it is now, to another tenant.
    Offer(&'a [u8], &'a [u8]),
    /// `withdraw REPO TENANT`: removes an offer.
    Withdraw(&'a [u8], &'a [u8]),
    /// `fork-offer GIVER REPO DST`: a new repository with the references and the HEAD of an offer.
    ForkOffer(&'a [u8], &'a [u8], &'a [u8]),
    /// `cat-file NAME`: the record of an object.
    CatFile([u8; 32]),
    /// `ls-tree NAME`: the rows of the tree that a name leads to.
    LsTree([u8; 32]),
    /// `rev-list REPO ITEM..`: the commits that the items reach, except those that the items with `^`
    /// reach. The items are as in the line, separated by one SP each; there is at least one, and none is
    /// empty or `^` alone.
    RevList(&'a [u8], &'a [u8]),
    /// `merge-base REPO A B`: the best common ancestors of two items.
    MergeBase(&'a [u8], &'a [u8], &'a [u8]),
    /// `for-each-ref REPO [PREFIX]`: the references of a repository.
    ForEachRef(&'a [u8], Option<&'a [u8]>),
    /// `head REPO`: the branch that HEAD of a repository names.
    Head(&'a [u8]),
    /// `offers`: the offers made to the tenant, and those that it made.
    Offers,
    /// `repos`: the names of the tenant's repositories.
    Repositories,
    /// `fetch REPO ITEM..`: the records of the objects that the items reach, except those that the items
    /// with `^` reach. The items are as in `RevList`.
    Fetch(&'a [u8], &'a [u8]),
    /// `quota`: what the visible objects use, and the limit.
    Quota,
    /// `prune`: removes objects that no reference reaches.
    Prune,
    /// Not a request.
    Bad,
}

impl<'a> Request<'a> {
    ghost use Rattle.fork_request.specs.Asked.{ask_of, asked};

    #[tactic(auto, unfolding(crate::specs::Asked::asked))]
    /// Reads what a payload asks. Every payload is a request, or a bad one.
    pub fn read(payload: &'a [u8]) -> Request<'a>
        ensures { ask_of result ≡ asked payload.now }
    {
        if payload.len() > MAX_PAYLOAD {
            return Request::Bad;
        }
        match split_once(payload, b'\n') {
            Some((line, body)) => read_line(line, body),
            None => Request::Bad,
        }
    }
}

ghost use Rattle.git_name.specs.Text.{words_of};
ghost use Rattle.fork_request.specs.Asked.{ask_of, asked_alone, asked_plain, asked_verb, asked_words};

// What a line and the body after it ask.
fn read_line<'a>(line: &'a [u8], body: &'a [u8]) -> Request<'a>
    ensures { ask_of result ≡ asked_words (words_of line.now) body.now }
{
    match first_word(line) {
        Some((verb, words)) => read_words(verb, words, body),
        None => read_verb(line, body),
    }
}

// What a verb without words after it asks.
fn read_verb<'a>(verb: &'a [u8], body: &'a [u8]) -> Request<'a>
    ensures { ask_of result ≡ asked_alone verb.now body.now }
{
    if is_word(verb, b"part") {
        return Request::Part(body);
    }
    if is_word(verb, b"part-drop") {
        return plain(Request::PartDrop, body);
    }
    if is_word(verb, b"offers") {
        return plain(Request::Offers, body);
    }
    if is_word(verb, b"repos") {
        return plain(Request::Repositories, body);
    }
    if is_word(verb, b"quota") {
        return plain(Request::Quota, body);
    }
    if is_word(verb, b"prune") {
        return plain(Request::Prune, body);
    }
    Request::Bad
}

// What the words after a verb ask.
fn read_words<'a>(verb: &'a [u8], words: &'a [u8], body: &'a [u8]) -> Request<'a>
    ensures { ask_of result ≡ asked_verb verb.now (words_of words.now) body.now }
{
    if is_word(verb, b"init") {
        return init(sole_word(words), body);
    }
    if is_word(verb, b"drop") {
        return drop_of(sole_word(words), body);
    }
    if is_word(verb, b"fork") {
        return fork(two_words(words), body);
    }
    if is_word(verb, b"push") {
        return push(sole_word(words), body);
    }
    if is_word(verb, b"part-end") {
        return part_end(sole_word(words), body);
    }
    if is_word(verb, b"update-refs") {
        return update_refs(sole_word(words), body);
    }
    if is_word(verb, b"set-head") {
        return set_head(two_words(words), body);
    }
    read_offering(verb, words, body)
}

// The request, if nothing follows its line, or else a bad one.
fn plain<'a>(request: Request<'a>, body: &'a [u8]) -> Request<'a>
    ensures { ask_of result ≡ asked_plain (ask_of request.entry) body.now }
{
    if body.is_empty() {
        request
    } else {
        Request::Bad
    }
}

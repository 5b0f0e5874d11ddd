ghost use Rattle.std.specs.Prelude.{◌≡◌, option_map};
ghost use Rattle.git_name.specs.Text.{words_of};
ghost use Rattle.fork_request.specs.Asked.{host_alone, host_plain, host_sweep, host_verb, host_words};

use crate::request::MAX_PAYLOAD;
use crate::words::{is_word, sole_word};
use git_name::{decimal, first_word, split_once};

/// The most places of the catalogue that one sweep may look at (own).
pub const MAX_SWEEP: u64 = 1_048_576;

/// A request to the host itself, which names no tenant.
#[derive(Clone, Copy, Debug, PartialEq, Eq)]
pub enum HostRequest {
    /// `sweep K`: looks at the next places of the catalogue, at most K, and removes what nobody holds. K is
    /// in decimal, without leading zeros.
    Sweep(u64),
    /// `collect`: looks at each place once, from the beginning.
    Collect,
    /// `census`: reports how many names are catalogued.
    Census,
    /// `fsck`: reads the files of all objects that some tenant holds, and reports what is wrong.
    Fsck,
    /// `tenants`: reports what each tenant has and may have, in numbers.
    Tenants,
    /// Not a request.
    Bad,
}

impl HostRequest {
    ghost use Rattle.fork_request.specs.Asked.{asked_host};

    #[tactic(auto, unfolding(crate::specs::Asked::asked_host))]
    /// Reads what a payload asks of the host. Every payload is a request, or a bad one.
    pub fn read(payload: &[u8]) -> HostRequest
        ensures { result ≡ asked_host payload.now }
    {
        if payload.len() > MAX_PAYLOAD {
            return HostRequest::Bad;
        }
        match split_once(payload, b'\n') {
            Some((line, body)) => read_line(line, body),
            None => HostRequest::Bad,
        }
    }
}

// What a line and the body after it ask.
fn read_line(line: &[u8], body: &[u8]) -> HostRequest
    ensures { result ≡ host_words (words_of line.now) body.now }
{
    match first_word(line) {
        Some((verb, words)) => read_words(verb, words, body),
        None => read_verb(line, body),
    }
}

// What a verb without words after it asks.
fn read_verb(verb: &[u8], body: &[u8]) -> HostRequest
    ensures { result ≡ host_alone verb.now body.now }
{
    if is_word(verb, b"collect") {
        return plain(HostRequest::Collect, body);
    }
    if is_word(verb, b"census") {
        return plain(HostRequest::Census, body);
    }
    if is_word(verb, b"fsck") {
        return plain(HostRequest::Fsck, body);
    }
    if is_word(verb, b"tenants") {
        return plain(HostRequest::Tenants, body);
    }
    HostRequest::Bad
}

// What the words after a verb ask.
fn read_words(verb: &[u8], words: &[u8], body: &[u8]) -> HostRequest
    ensures { result ≡ host_verb verb.now (words_of words.now) body.now }
{
    if is_word(verb, b"sweep") {
        return sweep(sole_word(words), body);
    }
    HostRequest::Bad
}

fn sweep(sole: Option<&[u8]>, body: &[u8]) -> HostRequest
    ensures { result ≡ host_sweep (option_map (λ word. word.now) sole.entry) body.now }
{
    let Some(digits) = sole else {
        return HostRequest::Bad;
    };
    let Some(most) = decimal(digits) else {
        return HostRequest::Bad;
    };
    if most > MAX_SWEEP {
        return HostRequest::Bad;
    }
    plain(HostRequest::Sweep(most), body)
}

fn plain(request: HostRequest, body: &[u8]) -> HostRequest
    ensures { result ≡ host_plain request body.now }
{
    if body.is_empty() {
        request
    } else {
        HostRequest::Bad
    }
}

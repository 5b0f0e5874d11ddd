// Requests that change a tenant's repositories, references or objects.
ghost use Rattle.std.specs.Prelude.{◌≡◌, option_map};
ghost use Rattle.fork_request.specs.Asked.{ask_of, asked_drop, asked_fork, asked_init, asked_part_end, asked_push, asked_set_head, asked_update};

use super::{Request, plain};

pub(super) fn init<'a>(sole: Option<&'a [u8]>, body: &'a [u8]) -> Request<'a>
    ensures { ask_of result ≡ asked_init (option_map (λ word. word.now) sole.entry) body.now }
{
    match sole {
        Some(repository) if body.is_empty() => Request::Init(repository),
        _ => Request::Bad,
    }
}

pub(super) fn drop_of<'a>(sole: Option<&'a [u8]>, body: &'a [u8]) -> Request<'a>
    ensures { ask_of result ≡ asked_drop (option_map (λ word. word.now) sole.entry) body.now }
{
    match sole {
        Some(repository) if body.is_empty() => Request::Drop(repository),
        _ => Request::Bad,
    }
}

pub(super) fn fork<'a>(pair: Option<(&'a [u8], &'a [u8])>, body: &'a [u8]) -> Request<'a>
    ensures { ask_of result ≡ asked_fork (option_map (λ p. (p.0.now, p.1.now)) pair.entry) body.now }
{
    match pair {
        Some((source, copy)) if body.is_empty() => Request::Fork(source, copy),
        _ => Request::Bad,
    }
}

pub(super) fn push<'a>(sole: Option<&'a [u8]>, body: &'a [u8]) -> Request<'a>
    ensures { ask_of result ≡ asked_push (option_map (λ word. word.now) sole.entry) body.now }
{
    match sole {
        Some(repository) => Request::Push(repository, body),
        None => Request::Bad,
    }
}

pub(super) fn part_end<'a>(sole: Option<&'a [u8]>, body: &'a [u8]) -> Request<'a>
    ensures { ask_of result ≡ asked_part_end (option_map (λ word. word.now) sole.entry) body.now }
{
    match sole {
        Some(repository) if body.is_empty() => Request::PartEnd(repository),
        _ => Request::Bad,
    }
}

pub(super) fn update_refs<'a>(sole: Option<&'a [u8]>, body: &'a [u8]) -> Request<'a>
    ensures { ask_of result ≡ asked_update (option_map (λ word. word.now) sole.entry) body.now }
{
    match sole {
        Some(repository) => Request::UpdateRefs(repository, body),
        None => Request::Bad,
    }
}

pub(super) fn set_head<'a>(pair: Option<(&'a [u8], &'a [u8])>, body: &'a [u8]) -> Request<'a>
    ensures { ask_of result ≡ asked_set_head (option_map (λ p. (p.0.now, p.1.now)) pair.entry) body.now }
{
    match pair {
        Some((repository, reference)) => plain(Request::SetHead(repository, reference), body),
        None => Request::Bad,
    }
}

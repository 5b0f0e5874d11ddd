// Requests about offers between tenants.
ghost use Rattle.std.specs.Prelude.{◌≡◌, option_map};
ghost use Rattle.git_name.specs.Text.{words_of};
ghost use Rattle.fork_request.specs.Asked.{ask_of, asked_fork_offer, asked_offer, asked_offering, asked_withdraw};

use super::queries::read_query;
use super::{Request, plain};
use crate::words::{is_word, three_words, two_words};

// What the words after a verb ask that changes offers, or that is a query's.
pub(super) fn read_offering<'a>(verb: &'a [u8], words: &'a [u8], body: &'a [u8]) -> Request<'a>
    ensures { ask_of result ≡ asked_offering verb.now (words_of words.now) body.now }
{
    if is_word(verb, b"offer") {
        return offer(two_words(words), body);
    }
    if is_word(verb, b"withdraw") {
        return withdraw(two_words(words), body);
    }
    if is_word(verb, b"fork-offer") {
        return fork_offer(three_words(words), body);
    }
    read_query(verb, words, body)
}

fn offer<'a>(pair: Option<(&'a [u8], &'a [u8])>, body: &'a [u8]) -> Request<'a>
    ensures { ask_of result ≡ asked_offer (option_map (λ p. (p.0.now, p.1.now)) pair.entry) body.now }
{
    match pair {
        Some((repository, receiver)) => plain(Request::Offer(repository, receiver), body),
        None => Request::Bad,
    }
}

fn withdraw<'a>(pair: Option<(&'a [u8], &'a [u8])>, body: &'a [u8]) -> Request<'a>
    ensures { ask_of result ≡ asked_withdraw (option_map (λ p. (p.0.now, p.1.now)) pair.entry) body.now }
{
    match pair {
        Some((repository, receiver)) => plain(Request::Withdraw(repository, receiver), body),
        None => Request::Bad,
    }
}

fn fork_offer<'a>(words: Option<(&'a [u8], &'a [u8], &'a [u8])>, body: &'a [u8]) -> Request<'a>
    ensures { ask_of result ≡ asked_fork_offer (option_map (λ p. (p.0.now, p.1.now, p.2.now)) words.entry) body.now }
{
    match words {
        Some((giver, repository, copy)) => plain(Request::ForkOffer(giver, repository, copy), body),
        None => Request::Bad,
    }
}

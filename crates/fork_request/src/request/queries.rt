// Queries: requests that change nothing of what the tenant has.
ghost use Rattle.std.specs.Prelude.{◌≡◌, ◌∷◌, option_map};
ghost use Rattle.git_name.specs.Text.{words_of};
ghost use Rattle.fork_request.specs.Asked.{ask_of, asked_bases, asked_cat_file, asked_fetch, asked_head, asked_ls_tree, asked_query, asked_references, asked_revisions};

use super::{Request, plain};
use crate::words::{is_word, one_or_two_words, sole_word, three_words, word_and_items};
use git_name::Name;

// What the words after a query's verb ask.
pub(super) fn read_query<'a>(verb: &'a [u8], words: &'a [u8], body: &'a [u8]) -> Request<'a>
    ensures { ask_of result ≡ asked_query verb.now (words_of words.now) body.now }
{
    if is_word(verb, b"cat-file") {
        return cat_file(sole_word(words), body);
    }
    if is_word(verb, b"ls-tree") {
        return ls_tree(sole_word(words), body);
    }
    if is_word(verb, b"rev-list") {
        return rev_list(word_and_items(words), body);
    }
    if is_word(verb, b"merge-base") {
        return merge_base(three_words(words), body);
    }
    if is_word(verb, b"for-each-ref") {
        return for_each_ref(one_or_two_words(words), body);
    }
    if is_word(verb, b"head") {
        return head(sole_word(words), body);
    }
    if is_word(verb, b"fetch") {
        return fetch(word_and_items(words), body);
    }
    Request::Bad
}

fn cat_file<'a>(sole: Option<&'a [u8]>, body: &'a [u8]) -> Request<'a>
    ensures { ask_of result ≡ asked_cat_file (option_map (λ word. word.now) sole.entry) body.now }
{
    let Some(digits) = sole else {
        return Request::Bad;
    };
    match Name::parse_hex(digits) {
        Some(name) if body.is_empty() => Request::CatFile(*name.as_bytes()),
        _ => Request::Bad,
    }
}

fn ls_tree<'a>(sole: Option<&'a [u8]>, body: &'a [u8]) -> Request<'a>
    ensures { ask_of result ≡ asked_ls_tree (option_map (λ word. word.now) sole.entry) body.now }
{
    let Some(digits) = sole else {
        return Request::Bad;
    };
    match Name::parse_hex(digits) {
        Some(name) => plain(Request::LsTree(*name.as_bytes()), body),
        None => Request::Bad,
    }
}

fn rev_list<'a>(words: Option<(&'a [u8], &'a [u8])>, body: &'a [u8]) -> Request<'a>
    ensures { ask_of result ≡ asked_revisions (option_map (λ p. (p.0.now, words_of p.1.now)) words.entry) body.now }
{
    match words {
        Some((repository, items)) => plain(Request::RevList(repository, items), body),
        None => Request::Bad,
    }
}

fn merge_base<'a>(words: Option<(&'a [u8], &'a [u8], &'a [u8])>, body: &'a [u8]) -> Request<'a>
    ensures { ask_of result ≡ asked_bases (option_map (λ p. (p.0.now, p.1.now, p.2.now)) words.entry) body.now }
{
    match words {
        Some((repository, first, second)) => {
            plain(Request::MergeBase(repository, first, second), body)
        }
        None => Request::Bad,
    }
}

fn for_each_ref<'a>(words: Option<(&'a [u8], Option<&'a [u8]>)>, body: &'a [u8]) -> Request<'a>
    ensures { ask_of result ≡ asked_references (option_map (λ p. (p.0.now, option_map (λ word. word.now) p.1)) words.entry) body.now }
{
    match words {
        Some((repository, prefix)) if body.is_empty() => Request::ForEachRef(repository, prefix),
        _ => Request::Bad,
    }
}

fn head<'a>(sole: Option<&'a [u8]>, body: &'a [u8]) -> Request<'a>
    ensures { ask_of result ≡ asked_head (option_map (λ word. word.now) sole.entry) body.now }
{
    match sole {
        Some(repository) => plain(Request::Head(repository), body),
        None => Request::Bad,
    }
}

fn fetch<'a>(words: Option<(&'a [u8], &'a [u8])>, body: &'a [u8]) -> Request<'a>
    ensures { ask_of result ≡ asked_fetch (option_map (λ p. (p.0.now, words_of p.1.now)) words.entry) body.now }
{
    match words {
        Some((repository, items)) => plain(Request::Fetch(repository, items), body),
        None => Request::Bad,
    }
}

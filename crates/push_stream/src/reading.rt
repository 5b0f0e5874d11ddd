ghost use Rattle.std.specs.Prelude.{◌≡◌, ◌≤◌, ◌++◌, ℕ, List, length};
ghost use Rattle.push_stream.specs.Brief.{brief_of};
ghost use Rattle.push_stream.specs.declared.content_limit.TheConstants.{MAX_REST};
ghost use Rattle.push_stream.specs.Reading.{finished_flow, gained, gained_by, read_on, reading_of, rest_in};
ghost use Rattle.push_stream.specs.Stream.{finished, stream_of};

/// A law, with no code to run: what a piece adds to a stream depends only on the piece and on what was known
/// before. It adds objects, and it changes what is known of the stream. That is the stream's state: its
/// commands, the names, kinds and lengths of its objects, its unfinished rest, and how many bytes were
/// received. No earlier content is part of it.
pub fn briefs_suffice()
    ensures brief { (xs ys piece : List ℕ) → reading_of xs ≡ reading_of ys → reading_of (xs ++ piece) ≡ reading_of (ys ++ piece) }
    ensures objects { (xs ys piece : List ℕ) → reading_of xs ≡ reading_of ys → gained_by xs piece ≡ gained_by ys piece }
{}

/// A law, with no code to run: reading a stream can continue from what is known of it, and what is
/// known of a whole stream is the brief of what it holds.
pub fn readings_go_on()
    ensures brief { (bytes piece : List ℕ) → reading_of (bytes ++ piece) ≡ read_on (reading_of bytes) piece }
    ensures objects { (bytes piece : List ℕ) → gained_by bytes piece ≡ gained (reading_of bytes).flow piece }
    ensures finished { (bytes : List ℕ) → finished_flow (reading_of bytes).flow ≡ brief_of (finished (stream_of bytes)) }
{}

/// A law, with no code to run: an unfinished rest is short.
pub fn rests_are_short()
    ensures { (bytes : List ℕ) → length (rest_in (reading_of bytes).flow) ≤ MAX_REST }
{}

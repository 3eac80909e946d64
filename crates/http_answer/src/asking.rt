//! What a request asks for.

ghost use Rattle.std.specs.Prelude.{◌≡◌, IfOk, option_map};
ghost use Rattle.http_answer.specs.Inside.{action_for, asked_for, place_for};
ghost use Rattle.http_answer.specs.Places.{action_of, is_among, known_methods, methods_of, place_at, reading, reading_and_posting};
ghost use Rattle.http_answer.specs.Replies.{asked, asked_at, mainline_of, reads_at, text_in, values_by, values_of, values_of_lines};

use crate::lines::is_list;
use crate::query::asked_text;
use bytes::Bytes;
use http::Request;
use std::alloc::{AllocError, Global};

/// What is at a path.
#[derive(Clone, Copy)]
pub(crate) enum Place {
    /// The page with a board.
    Board,
    /// Values of positions, which any page may read.
    Positions,
    /// Lines of best play, which any page may read.
    Mainlines,
    /// Games of folders, and the page on them.
    Games,
    /// The server as a whole, of which only its methods can be asked.
    Whole,
}

/// What a method asks for at a place.
#[derive(Clone, Copy)]
pub(crate) enum Verb {
    /// What is there.
    Read,
    /// Which methods there are.
    ListMethods,
    /// Nothing: it isn't one of them.
    Refuse,
    /// Nothing: nobody knows it.
    Unknown,
}

/// What a request asks for.
#[derive(Drop)]
pub(crate) enum Topic {
    /// The page.
    Page,
    /// The values of the position of this text.
    Values(Vec<u8>),
    /// A line of best play from the position of this text.
    Mainline(Vec<u8>),
    /// One of them, of no text.
    NoText,
    /// The values of the position of each line of this body.
    Lines(Bytes),
    /// Those of more lines than a body may have.
    TooManyLines,
    /// Which methods there are.
    Methods(Place),
    /// It by another method.
    OtherMethod(Place),
    /// It by a method that nobody knows.
    UnknownMethod,
    /// What isn't here.
    Elsewhere,
}

/// The text that a query asks about.
fn text_in(alloc: Global, query: Option<&str>) -> Result<Option<Vec<u8>>, AllocError>
    ensures { IfOk result (λ text. option_map (λ v. v.items) text ≡ text_in (option_map (λ s. s.now) query.entry)) }
{
    match query {
        None => Ok(None),
        Some(query) => asked_text(alloc, query),
    }
}

/// The values of the position of this text.
fn values_of(text: Option<Vec<u8>>) -> Topic
    ensures { asked_for result ≡ values_of (option_map (λ v. v.items) text) }
{
    match text {
        None => Topic::NoText,
        Some(text) => Topic::Values(text),
    }
}

/// A line of best play from the position of this text.
fn mainline_of(text: Option<Vec<u8>>) -> Topic
    ensures { asked_for result ≡ mainline_of (option_map (λ v. v.items) text) }
{
    match text {
        None => Topic::NoText,
        Some(text) => Topic::Mainline(text),
    }
}

/// What a body asks for.
fn values_of_lines(body: &Bytes) -> Result<Topic, AllocError>
    ensures { IfOk result (λ w. asked_for w ≡ values_of_lines body.now) }
{
    if is_list(body.as_slice()) {
        Ok(Topic::Lines(body.clone()?))
    } else {
        Ok(Topic::TooManyLines)
    }
}

/// Whether a method is one of those by which a place is read.
fn is_reading(method: &str) -> bool
    ensures { result ≡ is_among method.now reading }
{
    method == "GET" || method == "HEAD" || method == "OPTIONS"
}

/// Whether a method is one of these or `POST`.
fn is_reading_or_posting(method: &str) -> bool
    ensures { result ≡ is_among method.now reading_and_posting }
{
    method == "GET" || method == "HEAD" || method == "POST" || method == "OPTIONS"
}

/// Whether a place has a method.
fn has_method(place: Place, method: &str) -> bool
    ensures { result ≡ is_among method.now (methods_of (place_for place)) }
{
    match place {
        Place::Board | Place::Mainlines | Place::Games => is_reading(method),
        Place::Positions | Place::Whole => is_reading_or_posting(method),
    }
}

/// Whether a method is one that a server knows.
fn is_known(method: &str) -> bool
    ensures { result ≡ is_among method.now known_methods }
{
    method == "GET"
        || method == "HEAD"
        || method == "POST"
        || method == "PUT"
        || method == "DELETE"
        || method == "CONNECT"
        || method == "OPTIONS"
        || method == "TRACE"
        || method == "PATCH"
}

/// What a method asks for at a place.
pub(crate) fn verb_at(place: Place, method: &str) -> Verb
    ensures { action_for result ≡ action_of (methods_of (place_for place)) method.now }
{
    if has_method(place, method) {
        if method == "OPTIONS" {
            Verb::ListMethods
        } else {
            Verb::Read
        }
    } else if is_known(method) {
        Verb::Refuse
    } else {
        Verb::Unknown
    }
}

/// What is at a path, if something is.
fn place_at(path: &str) -> Option<Place>
    ensures { option_map place_for result ≡ place_at path.now }
{
    if path == "/" {
        Some(Place::Board)
    } else if path == "/standard" {
        Some(Place::Positions)
    } else if path == "/standard/mainline" {
        Some(Place::Mainlines)
    } else if path == "/mainline" {
        Some(Place::Mainlines)
    } else if path == "*" {
        Some(Place::Whole)
    } else {
        None
    }
}

/// What a method asks for of values, of the position of a query or of those of a body.
fn values_by(
    alloc: Global,
    method: &str,
    query: Option<&str>,
    body: &Bytes,
) -> Result<Topic, AllocError>
    ensures { IfOk result (λ w. asked_for w ≡ values_by method.now (option_map (λ s. s.now) query.entry) body.now) }
{
    if method == "POST" {
        values_of_lines(body)
    } else {
        Ok(values_of(text_in(alloc, query)?))
    }
}

/// What is asked for by who reads what is at a place.
fn reads_at(
    alloc: Global,
    place: Place,
    method: &str,
    query: Option<&str>,
    body: &Bytes,
) -> Result<Topic, AllocError>
    ensures { IfOk result (λ w. asked_for w ≡ reads_at (place_for place) method.now (option_map (λ s. s.now) query.entry) body.now) }
{
    match place {
        Place::Board => Ok(Topic::Page),
        Place::Positions => values_by(alloc, method, query, body),
        Place::Mainlines => Ok(mainline_of(text_in(alloc, query)?)),
        Place::Games | Place::Whole => Ok(Topic::Elsewhere),
    }
}

/// What is asked for at a path by a method, a query and a body, where so much is at the path.
fn asked_at(
    alloc: Global,
    place: Option<Place>,
    method: &str,
    query: Option<&str>,
    body: &Bytes,
) -> Result<Topic, AllocError>
    ensures { IfOk result (λ w. asked_for w ≡ asked_at (option_map place_for place) method.now (option_map (λ s. s.now) query.entry) body.now) }
{
    let Some(place) = place else {
        return Ok(Topic::Elsewhere);
    };
    match verb_at(place, method) {
        Verb::Read => reads_at(alloc, place, method, query, body),
        Verb::ListMethods => Ok(Topic::Methods(place)),
        Verb::Refuse => Ok(Topic::OtherMethod(place)),
        Verb::Unknown => Ok(Topic::UnknownMethod),
    }
}

/// What a request asks for.
pub(crate) fn topic_of(alloc: Global, request: &Request<Bytes>) -> Result<Topic, AllocError>
    ensures { IfOk result (λ w. asked_for w ≡ asked request.now) }
{
    let uri = request.uri();
    asked_at(
        alloc,
        place_at(uri.path()),
        request.method().as_str(),
        uri.query(),
        request.body(),
    )
}

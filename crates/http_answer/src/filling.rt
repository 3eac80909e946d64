//! Responses that are filled.

ghost use Rattle.std.specs.Prelude.{◌≡◌, ◌∷◌, ◌++◌, [], OnOk, codes};
ghost use Rattle.http_server.specs.Response.{IsBlank, IsResponse, fields_of};
ghost use Rattle.http_answer.specs.Inside.{place_for};
ghost use Rattle.http_answer.specs.Places.{HasMethods, LacksMemory, LacksMethod, RefusesMethod, allowed, an_hour, any_origin, html_type, json_type, kept_for, listed, methods_of, preflight, typed};
ghost use Rattle.http_answer.specs.Replies.{HasError, HasLine, lifetime_of, object_text, status_of, value_lifetime, value_status};
ghost use Rattle.move_msg.specs.TextLines.{ended};

use crate::asking::Place;
use bytes::BufMut;
use http::{HeaderValue, StatusCode, header};
use http_server::Response;
use json_lines::{ApiLine, put_api_line};
use judge_core::ProbeFault;
use std::alloc::{AllocError, Global};

/// Adds the type of a body.
fn add_kind(response: &mut Response, kind: HeaderValue) -> Result<(), AllocError>
    ensures fields { OnOk result (fields_of response.new ≡ fields_of response.old ++ typed kind.bytes ∷ []) }
    ensures status { response.new.status ≡ response.old.status }
    ensures body { response.new.body ≡ response.old.body }
{
    response.add_header(header::CONTENT_TYPE, kind)
}

/// Adds that any page may read the answer.
fn add_any_origin(response: &mut Response) -> Result<(), AllocError>
    ensures fields { OnOk result (fields_of response.new ≡ fields_of response.old ++ any_origin ∷ []) }
    ensures status { response.new.status ≡ response.old.status }
    ensures body { response.new.body ≡ response.old.body }
{
    response.add_header(
        header::ACCESS_CONTROL_ALLOW_ORIGIN,
        HeaderValue::from_static("*"),
    )
}

/// Adds which methods there are at a place.
fn add_allowed(response: &mut Response, place: Place) -> Result<(), AllocError>
    ensures fields { OnOk result (fields_of response.new ≡ fields_of response.old ++ allowed (place_for place) ∷ []) }
    ensures status { response.new.status ≡ response.old.status }
    ensures body { response.new.body ≡ response.old.body }
{
    response.add_header(header::ALLOW, methods_at(place))
}

/// Fills a response that pages of this server alone may read.
pub(crate) fn fill(
    response: &mut Response,
    status: StatusCode,
    kind: HeaderValue,
    body: &[u8],
) -> Result<(), AllocError>
    requires { IsBlank response.old }
    ensures { OnOk result (IsResponse status (typed kind.bytes ∷ []) body.now response.new) }
{
    response.status = status;
    add_kind(response, kind)?;
    response.body.put_slice(body)
}

/// Fills a response that any page may read.
pub(crate) fn fill_shared(
    response: &mut Response,
    status: StatusCode,
    kind: HeaderValue,
    body: &[u8],
) -> Result<(), AllocError>
    requires { IsBlank response.old }
    ensures { OnOk result (IsResponse status (typed kind.bytes ∷ any_origin ∷ []) body.now response.new) }
{
    response.status = status;
    add_kind(response, kind)?;
    add_any_origin(response)?;
    response.body.put_slice(body)
}

/// Fills a response of this server's own that a cache may keep so long.
pub(crate) fn fill_kept(
    response: &mut Response,
    status: StatusCode,
    kind: HeaderValue,
    lifetime: HeaderValue,
    body: &[u8],
) -> Result<(), AllocError>
    requires { IsBlank response.old }
    ensures { OnOk result (IsResponse status (typed kind.bytes ∷ kept_for lifetime.bytes ∷ []) body.now response.new) }
{
    fill(response, status, kind, body)?;
    response.add_header(header::CACHE_CONTROL, lifetime)
}

/// Fills a response with a page.
pub(crate) fn fill_page(response: &mut Response, page: &str) -> Result<(), AllocError>
    requires { IsBlank response.old }
    ensures { OnOk result (IsResponse 200 (html_type ∷ kept_for an_hour ∷ []) page.now response.new) }
{
    fill_kept(
        response,
        StatusCode::OK,
        HeaderValue::from_static("text/html; charset=utf-8"),
        HeaderValue::from_static("public, max-age=3600"),
        page.as_bytes(),
    )
}

/// Fills a response with the error of a request about a position, as JSON.
pub(crate) fn fill_error(
    response: &mut Response,
    status: StatusCode,
    body: &[u8],
) -> Result<(), AllocError>
    requires { IsBlank response.old }
    ensures { OnOk result (HasError status body.now response.new) }
{
    fill_shared(
        response,
        status,
        HeaderValue::from_static("application/json"),
        body,
    )
}

/// Fills a response to a request for what isn't here.
pub(crate) fn fill_elsewhere(response: &mut Response) -> Result<(), AllocError>
    requires { IsBlank response.old }
    ensures { OnOk result (IsResponse 404 (json_type ∷ []) (codes "{\"error\":\"not found\"}") response.new) }
{
    fill(
        response,
        StatusCode::NOT_FOUND,
        HeaderValue::from_static("application/json"),
        b"{\"error\":\"not found\"}",
    )
}

/// Fills a response with the objects of lines, a line each.
pub(crate) fn fill_objects(response: &mut Response, objects: &[u8]) -> Result<(), AllocError>
    requires { IsBlank response.old }
    ensures { OnOk result (IsResponse 200 (typed (codes "application/x-ndjson") ∷ any_origin ∷ []) objects.now response.new) }
{
    fill_shared(
        response,
        StatusCode::OK,
        HeaderValue::from_static("application/x-ndjson"),
        objects,
    )
}

/// The methods that there are at a place.
fn methods_at(place: Place) -> HeaderValue
    ensures { result.bytes ≡ listed (methods_of (place_for place)) }
{
    match place {
        Place::Board | Place::Mainlines | Place::Games => {
            HeaderValue::from_static("GET, HEAD, OPTIONS")
        }
        Place::Positions | Place::Whole => HeaderValue::from_static("GET, HEAD, POST, OPTIONS"),
    }
}

/// Adds what a page from elsewhere may send to a place.
fn add_preflight(response: &mut Response, place: Place) -> Result<(), AllocError>
    ensures fields { OnOk result (fields_of response.new ≡ fields_of response.old ++ preflight (place_for place)) }
    ensures status { response.new.status ≡ response.old.status }
    ensures body { response.new.body ≡ response.old.body }
{
    add_any_origin(response)?;
    response.add_header(header::ACCESS_CONTROL_ALLOW_METHODS, methods_at(place))?;
    response.add_header(
        header::ACCESS_CONTROL_ALLOW_HEADERS,
        HeaderValue::from_static("content-type"),
    )
}

/// Fills a response with the methods that there are at a place.
pub(crate) fn fill_methods(response: &mut Response, place: Place) -> Result<(), AllocError>
    requires { IsBlank response.old }
    ensures { OnOk result (HasMethods (place_for place) response.new) }
{
    response.status = StatusCode::NO_CONTENT;
    add_allowed(response, place)?;
    match place {
        Place::Positions | Place::Mainlines => add_preflight(response, place),
        Place::Board | Place::Games | Place::Whole => Ok(()),
    }
}

/// Fills a response that refuses a method at a place.
pub(crate) fn fill_other_method(response: &mut Response, place: Place) -> Result<(), AllocError>
    requires { IsBlank response.old }
    ensures { OnOk result (RefusesMethod (place_for place) response.new) }
{
    fill(
        response,
        StatusCode::METHOD_NOT_ALLOWED,
        HeaderValue::from_static("application/json"),
        b"{\"error\":\"method not allowed\"}",
    )?;
    add_allowed(response, place)?;
    match place {
        Place::Positions | Place::Mainlines => add_any_origin(response),
        Place::Board | Place::Games | Place::Whole => Ok(()),
    }
}

/// Fills a response to a method that nobody knows.
pub(crate) fn fill_unknown_method(response: &mut Response) -> Result<(), AllocError>
    requires { IsBlank response.old }
    ensures { OnOk result (LacksMethod response.new) }
{
    fill(
        response,
        StatusCode::NOT_IMPLEMENTED,
        HeaderValue::from_static("application/json"),
        b"{\"error\":\"method not implemented\"}",
    )
}

/// Fills a response that says that memory is refused, whatever it had before. It takes none.
pub(crate) fn fill_starved(response: &mut Response)
    ensures { LacksMemory response.new }
{
    response.clear();
    response.status = StatusCode::SERVICE_UNAVAILABLE;
}

/// Adds an object of the tablebase API to a text.
fn add_object(text: &mut Vec<u8>, line: &ApiLine) -> Result<(), AllocError>
    ensures { OnOk result (text.new.items ≡ text.old.items ++ object_text line.now) }
{
    match put_api_line(text, line) {
        Ok(()) => Ok(()),
        Err(_) => Err(AllocError),
    }
}

/// Adds an object of the tablebase API to a text, and a line feed.
pub(crate) fn add_object_line(text: &mut Vec<u8>, line: &ApiLine) -> Result<(), AllocError>
    ensures { OnOk result (text.new.items ≡ text.old.items ++ ended (object_text line.now)) }
{
    add_object(text, line)?;
    text.push(b'\n')?;
    Ok(())
}

/// The status of an answer with this value.
fn value_status(value: Result<i32, ProbeFault>) -> StatusCode
    ensures { result ≡ value_status value }
{
    match value {
        Ok(_) => StatusCode::OK,
        Err(ProbeFault::OutOfScope) => StatusCode::NOT_FOUND,
        Err(ProbeFault::NotCovered(_) | ProbeFault::Damaged(_) | ProbeFault::OutOfMemory) => {
            StatusCode::OK
        }
    }
}

/// The status of a line.
fn status_of(line: &ApiLine) -> StatusCode
    ensures { result ≡ status_of line.now }
{
    match line {
        ApiLine::Fault(_) => StatusCode::BAD_REQUEST,
        ApiLine::Refused(_) => StatusCode::INTERNAL_SERVER_ERROR,
        ApiLine::Values(position, _) | ApiLine::Mainline(position, _) => {
            value_status(position.told.columns.probed.wdl)
        }
    }
}

/// How long a cache may keep an answer with this value.
fn value_lifetime(value: Result<i32, ProbeFault>) -> HeaderValue
    ensures { result.bytes ≡ value_lifetime value }
{
    match value {
        Ok(_) | Err(ProbeFault::OutOfScope) => HeaderValue::from_static("public, max-age=3600"),
        Err(ProbeFault::NotCovered(_) | ProbeFault::Damaged(_) | ProbeFault::OutOfMemory) => {
            HeaderValue::from_static("no-store")
        }
    }
}

/// How long a cache may keep a line.
fn lifetime_of(line: &ApiLine) -> HeaderValue
    ensures { result.bytes ≡ lifetime_of line.now }
{
    match line {
        ApiLine::Fault(_) => HeaderValue::from_static("public, max-age=3600"),
        ApiLine::Refused(_) => HeaderValue::from_static("no-store"),
        ApiLine::Values(position, _) | ApiLine::Mainline(position, _) => {
            value_lifetime(position.told.columns.probed.wdl)
        }
    }
}

/// Fills a response with a line.
pub(crate) fn fill_line(
    alloc: Global,
    response: &mut Response,
    line: &ApiLine,
) -> Result<(), AllocError>
    requires { IsBlank response.old }
    ensures { OnOk result (HasLine line.now response.new) }
{
    let mut body = Vec::new(alloc);
    add_object(&mut body, line)?;
    fill_shared(
        response,
        status_of(line),
        HeaderValue::from_static("application/json"),
        &body,
    )?;
    response.add_header(header::CACHE_CONTROL, lifetime_of(line))
}

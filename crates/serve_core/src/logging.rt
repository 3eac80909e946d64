//! Lines that are noted: of a request, and of what failed.

ghost use Rattle.std.specs.Prelude.{◌≡◌, ◌++◌, IfOk, OnOk, codes, string_bytes};
ghost use Rattle.serve_core.specs.Logging.{asked_words, request_line, sent_size};

use bytes::Bytes;
use http::Request;
use http_server::Response;
use itoa::{Buffer, Integer};
use std::alloc::{AllocError, Global};

/// How many bytes of a response's body are sent.
fn sent_size(method: &str, response: &Response) -> usize
    ensures { result ≡ sent_size method.now response.now }
{
    if method == "HEAD" {
        0
    } else {
        response.body.len()
    }
}

/// Adds a number behind a space.
fn add_number<I: Integer>(line: &mut String, number: I) -> Result<(), AllocError>
    ensures { OnOk result (string_bytes line.new ≡ (string_bytes line.old ++ codes " ") ++ I.text number) }
{
    let mut digits = Buffer::new();
    line.push_str(" ")?;
    line.push_str(digits.format(number))
}

/// The method of a request, and its path without its query.
fn asked_words(alloc: Global, request: &Request<Bytes>) -> Result<String, AllocError>
    ensures { IfOk result (λ words. string_bytes words ≡ asked_words request.now) }
{
    let mut words = String::from_str(alloc, request.method().as_str())?;
    words.push_str(" ")?;
    words.push_str(request.uri().path())?;
    Ok(words)
}

/// The line that is noted of a request and its response: the method, the path without its query, the status and how many bytes of a body
/// are sent. The error comes where memory is refused.
pub fn request_line(
    alloc: Global,
    request: &Request<Bytes>,
    response: &Response,
) -> Result<String, AllocError>
    ensures { IfOk result (λ line. string_bytes line ≡ request_line request.now response.now) }
{
    let mut line = asked_words(alloc, request)?;
    add_number(&mut line, response.status.as_u16())?;
    add_number(&mut line, sent_size(request.method().as_str(), response))?;
    Ok(line)
}

/// A line that says of something why it failed.
pub(crate) fn line_why(
    alloc: Global,
    subject: &str,
    says: &str,
    why: &str,
) -> Result<String, AllocError>
    ensures { IfOk result (λ line. string_bytes line ≡ (subject.now ++ says.now) ++ why.now) }
{
    let mut line = String::from_str(alloc, subject)?;
    line.push_str(says)?;
    line.push_str(why)?;
    Ok(line)
}

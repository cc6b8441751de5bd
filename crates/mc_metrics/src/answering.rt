//! What is answered to requests over HTTP.
ghost use Rattle.std.specs.Prelude.{◌≡◌, OnOk};
ghost use Rattle.http.specs.Request.{head_of};
ghost use Rattle.http_server.specs.Response.{IsBlank};
ghost use Rattle.http_uri.specs.Uri.{uri_path};
ghost use Rattle.mc_metrics.specs.Answering.{GivesAnswer, http_answer_to, metrics_answer, not_allowed, not_found, page_answer, text_answer};

use crate::exposition::write_metrics;
use crate::page::write_page;
use crate::snapshot::Snapshot;
use bytes::Bytes;
use http::{HeaderValue, Request, StatusCode, header};
use http_server::{Response, Service};
use std::alloc::{AllocError, Global};

/// Answers requests with the numbers of one time. An answer changes nothing.
#[derive(Debug, Drop)]
pub struct Scrape {
    pub alloc: Global,
    pub snapshot: Snapshot,
}

/// Answers with a text that is made.
fn give_text(
    text: Vec<u8>,
    content_type: HeaderValue,
    response: &mut Response,
) -> Result<(), AllocError>
    requires { IsBlank response.old }
    ensures { OnOk result
        (GivesAnswer (text_answer content_type.bytes text.items) response.new) }
{
    response.add_header(header::CONTENT_TYPE, content_type)?;
    response.body.push(Bytes::from_vec(text)?)
}

/// Answers with the metrics.
fn give_metrics(
    alloc: Global,
    snapshot: &Snapshot,
    response: &mut Response,
) -> Result<(), AllocError>
    requires { IsBlank response.old }
    ensures { OnOk result (GivesAnswer (metrics_answer snapshot.now) response.new) }
{
    let mut text = Vec::new(alloc);
    write_metrics(snapshot, &mut text)?;
    let content_type = HeaderValue::from_static("text/plain; version=0.0.4; charset=utf-8");
    give_text(text, content_type, response)
}

/// Answers with the page.
fn give_page(alloc: Global, snapshot: &Snapshot, response: &mut Response) -> Result<(), AllocError>
    requires { IsBlank response.old }
    ensures { OnOk result (GivesAnswer (page_answer snapshot.now) response.new) }
{
    let mut text = Vec::new(alloc);
    write_page(snapshot, &mut text)?;
    let content_type = HeaderValue::from_static("text/html; charset=utf-8");
    give_text(text, content_type, response)
}

/// Answers that nothing is at the path.
fn refuse_path(response: &mut Response) -> Result<(), AllocError>
    requires { IsBlank response.old }
    ensures { OnOk result (GivesAnswer not_found response.new) }
{
    response.status = StatusCode::NOT_FOUND;
    Ok(())
}

/// Answers that the method isn't allowed.
fn refuse_method(response: &mut Response) -> Result<(), AllocError>
    requires { IsBlank response.old }
    ensures { OnOk result (GivesAnswer not_allowed response.new) }
{
    response.status = StatusCode::METHOD_NOT_ALLOWED;
    response.add_header(header::ALLOW, HeaderValue::from_static("GET, HEAD"))
}

/// Answers a request of this method for this path.
///
/// Returns an error if memory runs out.
fn answer(
    alloc: Global,
    snapshot: &Snapshot,
    method: &str,
    path: &str,
    response: &mut Response,
) -> Result<(), AllocError>
    requires { IsBlank response.old }
    ensures { OnOk result
        (GivesAnswer (http_answer_to snapshot.now method.now path.now) response.new) }
{
    if method != "GET" && method != "HEAD" {
        refuse_method(response)
    } else if path == "/metrics" {
        give_metrics(alloc, snapshot, response)
    } else if path == "/" {
        give_page(alloc, snapshot, response)
    } else {
        refuse_path(response)
    }
}

impl Service for Scrape {
    // The answer is the one for the request's method and path and the snapshot, which stays.
    ghost answers = { λ old request response new. let head = head_of request in
        GivesAnswer (http_answer_to old.snapshot head.method (uri_path head.uri)) response
        × (new ≡ old) };

    fn call(
        &mut self,
        request: &Request<Bytes>,
        response: &mut Response,
    ) -> Result<(), AllocError> {
        let method = request.method().as_str();
        answer(
            self.alloc,
            &self.snapshot,
            method,
            request.uri().path(),
            response,
        )
    }
}

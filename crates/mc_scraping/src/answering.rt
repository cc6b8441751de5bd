//! What answers the requests of a round.
ghost use Rattle.std.specs.Prelude.{◌≡◌, IfSome, IsSome};
ghost use Rattle.http.specs.Request.{head_of};
ghost use Rattle.http_uri.specs.Uri.{uri_path};
ghost use Rattle.mc_metrics.specs.Answering.{GivesAnswer, http_answer_to};

use crate::boards::Boards;
use bytes::Bytes;
use http::Request;
use http_server::{Response, Service};
use mc_metrics::Scrape;
use std::alloc::{AllocError, Global};
use std::fs::Files;

/// Answers the requests of a round, all by the numbers that are shown when the first of them is
/// there whole. Until then nothing is read.
#[derive(Drop)]
pub(crate) struct Answering<'a, R> {
    rt: &'a R,
    alloc: Global,
    boards: &'a Boards,
    // What has answered a request of this round, if there was one.
    scrape: Option<Scrape>,
}

impl<'a, R: Files> Answering<'a, R> {
    /// Returns what answers by these boards, of which nothing was read yet.
    pub(crate) fn new(rt: &'a R, alloc: Global, boards: &'a Boards) -> Answering<'a, R> {
        Answering {
            rt,
            alloc,
            boards,
            scrape: None,
        }
    }
}

impl<R: Files> Service for Answering<'_, R> {
    // The answer is the one for the request's method and path and the numbers of the round, which
    // stay once a request was answered.
    ghost answers = { λ old request response new. let head = head_of request in
        IsSome new.scrape × (IsSome old.scrape → new.scrape ≡ old.scrape)
        × IfSome new.scrape (λ scrape. GivesAnswer
        (http_answer_to scrape.snapshot head.method (uri_path head.uri)) response) };

    fn call(
        &mut self,
        request: &Request<Bytes>,
        response: &mut Response,
    ) -> Result<(), AllocError> {
        if let Some(scrape) = &mut self.scrape {
            return scrape.call(request, response);
        }
        let Ok(snapshot) = self.boards.snapshot(self.rt, self.alloc) else {
            return Err(AllocError);
        };
        let mut scrape = Scrape {
            alloc: self.alloc,
            snapshot,
        };
        scrape.call(request, response)?;
        self.scrape = Some(scrape);
        Ok(())
    }
}

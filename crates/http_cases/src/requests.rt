//! Requests by their methods and targets, and what they ask for.

use crate::requests_shown;
use crate::texts::put_texts;
use anyhow::{Result, anyhow};
use cat_model::{Asked, Refusal};
use http_routes::{Routed, route};
use std::alloc::Global;

/// What the request of a line asks for.
pub fn given(alloc: Global, said: &str) -> Result<String> {
    let (method, rest) = said.split_once(" ").unwrap_or((said, ""));
    let (target, text) = rest.split_once(" ").unwrap_or((rest, ""));
    let body = body_of(alloc, text)?;
    match route(alloc, method.as_bytes(), target.as_bytes(), body.as_slice()) {
        Ok(Routed { asked, filter }) => {
            let mut out = asked_for(alloc, &asked)?;
            if filter.is_some() {
                out.push_str(" filtered")?;
            }
            Ok(out)
        }
        Err(_) => Err(anyhow!("out of memory")),
    }
}

fn asked_for(alloc: Global, asked: &Asked) -> Result<String> {
    match asked {
        Asked::Good(request) => requests_shown::request(alloc, request),
        Asked::Bad(refusal) => refused(alloc, refusal),
    }
}

fn body_of(alloc: Global, text: &str) -> Result<Vec<u8>> {
    let Some(count) = text.strip_prefix("*") else {
        return Ok(Vec::from_slice(alloc, text.as_bytes())?);
    };
    let count = count.parse::<u32>().map_err(|_| anyhow!("bad length"))?;
    let mut body = Vec::new(alloc);
    for _ in 0..count {
        body.push(b'x')?;
    }
    Ok(body)
}

fn refused(alloc: Global, refusal: &Refusal) -> Result<String> {
    match refusal {
        Refusal::Invalid { field } => {
            let field = field.as_str();
            Ok(format!(in alloc; "400 {field}")?)
        }
        Refusal::NotFound { what } => {
            let what = what.as_str();
            Ok(format!(in alloc; "404 {what}")?)
        }
        Refusal::Method { allow } => {
            let mut out = String::from_str(alloc, "405 ")?;
            put_texts(&mut out, allow.as_slice())?;
            Ok(out)
        }
        Refusal::TooLarge => Ok(String::from_str(alloc, "413")?),
        _ => Ok(String::from_str(alloc, "another refusal")?),
    }
}

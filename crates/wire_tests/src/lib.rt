//! Tests of the bytes of requests and replies. There is no code beside them.
#![tactic(auto)]

#[cfg(test)]
mod cuts;
#[cfg(test)]
mod rejections;
#[cfg(test)]
mod replies;

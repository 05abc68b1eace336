//! Expressions read from tokens.

ghost use Rattle.std.specs.Prelude.{◌≡◌, ◌<◌, ◌≤◌, ◌-◌, ◌^◌, ◌∷◌, take, drop, length};
ghost use Rattle.std.specs.Option.{option_copied};
ghost use Rattle.filter_expr.specs.Answers.{GivesBy};
ghost use Rattle.filter_expr.specs.Expressions.{expression_of};
ghost use Rattle.filter_expr.specs.Grammar as grammar;

use crate::expression::negated;
use crate::lexer::{Token, tokens};
use crate::tests_of::test_of;
use crate::{Filter, FilterFault, Shape};
use std::alloc::Global;

/// A sign that parts an expression.
#[derive(Clone, Copy)]
pub(crate) enum Joint {
    And,
    Or,
}

fn is_joint(joint: Joint, token: &Token) -> bool
    ensures { result ≡ grammar.is_joint joint token.now }
{
    matches!(
        (joint, token),
        (Joint::And, Token::And) | (Joint::Or, Token::Or)
    )
}

fn open_behind(token: &Token, depth: usize) -> usize
    requires { depth < 2 ^ 64 - 1 }
    ensures { result ≡ grammar.open_behind token.now depth }
{
    match token {
        Token::Open => depth + 1,
        Token::Close => depth.saturating_sub(1),
        _ => depth,
    }
}

/// How many tokens stand before the first sign that parts these.
#[tactic(auto, using(crate::proofs::Parting::front_more))]
fn piece_length(joint: Joint, tokens: &[Token]) -> usize
    ensures within { result ≤ length tokens.now }
    ensures pieces { grammar.pieces joint 0 tokens.now ≡ take result tokens.now ∷ grammar.pieces_behind joint (drop result tokens.now) }
{
    let mut depth = 0;
    for (i, token) in tokens.iter().enumerate() {
        if is_joint(joint, token) && depth == 0 {
            return i;
        }
        depth = open_behind(token, depth);
    }
    tokens.len()
}

fn is_close(token: &Token) -> bool
    ensures { result ≡ grammar.is_close token.now }
{
    matches!(token, Token::Close)
}

/// What is before a closing parenthesis at the end.
#[tactic(auto, using(crate::proofs::Parting::inside_last))]
fn inside(tokens: &[Token]) -> Option<&[Token]>
    ensures { option_copied result ≡ grammar.inside tokens.now }
{
    let (last, before) = tokens.split_last()?;
    if is_close(last) { Some(before) } else { None }
}

fn joining(alloc: Global, joint: Joint, a: Filter, b: Filter) -> Result<Filter, FilterFault>
    ensures { GivesBy expression_of result (Some (grammar.joining joint (expression_of a) (expression_of b))) }
{
    let a = Box::new(alloc, a)?;
    let b = Box::new(alloc, b)?;
    match joint {
        Joint::And => Ok(Filter::And(a, b)),
        Joint::Or => Ok(Filter::Or(a, b)),
    }
}

/// What the tokens are that this sign parts, so many levels deep at most.
#[cycle(parsing)]
fn parted(
    alloc: Global,
    joint: Joint,
    shape: Shape,
    levels: u32,
    tokens: &[Token],
) -> Result<Filter, FilterFault>
    ensures { GivesBy expression_of result (grammar.parted_of joint shape levels tokens.now) }
{
    let end = piece_length(joint, tokens);
    let mut found = piece(alloc, joint, shape, levels, &tokens[..end])?;
    let mut rest = &tokens[end..];
    while let Some((_, more)) = rest.split_first() {
        let end = piece_length(joint, more);
        let next = piece(alloc, joint, shape, levels, &more[..end])?;
        found = joining(alloc, joint, found, next)?;
        rest = &more[end..];
    }
    Ok(found)
}

/// A piece between such signs.
#[cycle(parsing)]
fn piece(
    alloc: Global,
    joint: Joint,
    shape: Shape,
    levels: u32,
    tokens: &[Token],
) -> Result<Filter, FilterFault>
    ensures { GivesBy expression_of result (grammar.piece_of joint shape levels tokens.now) }
{
    match joint {
        Joint::And => part(alloc, shape, levels, tokens),
        Joint::Or => parted(alloc, Joint::And, shape, levels, tokens),
    }
}

/// A part: what has no such sign outside parentheses.
#[cycle(parsing)]
fn part(alloc: Global, shape: Shape, levels: u32, tokens: &[Token]) -> Result<Filter, FilterFault>
    ensures { GivesBy expression_of result (grammar.part_of shape levels tokens.now) }
{
    if levels == 0 {
        return test_of(alloc, shape, tokens);
    }
    match tokens {
        [Token::Not, more @ ..] => negated(alloc, part(alloc, shape, levels - 1, more)?),
        [Token::Open, more @ ..] => match inside(more) {
            Some(inside) => parted(alloc, Joint::Or, shape, levels - 1, inside),
            None => Err(FilterFault::Bad),
        },
        _ => test_of(alloc, shape, tokens),
    }
}

/// The filter that a text is for elements of that shape. `Bad` comes exactly where it is none.
///
/// The pieces of one level have no token in common, and each is gone over once for `or` and once for `and`. So the
/// tokens are gone over at most twice for each of at most 65 depths, however the text is made.
#[tactic(auto, unfolding(crate::specs::Grammar::filter_of))]
pub fn parse(alloc: Global, text: &str, shape: Shape) -> Result<Filter, FilterFault>
    ensures { GivesBy expression_of result (grammar.filter_of shape text.now) }
{
    if text.len() > 4096 {
        return Err(FilterFault::Bad);
    }
    let tokens = tokens(alloc, text.as_bytes())?;
    parted(alloc, Joint::Or, shape, 64, tokens.as_slice())
}

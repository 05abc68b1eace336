//! Tests of one member.

ghost use Rattle.std.specs.Prelude.{◌≡◌, ◌<◌, ◌≤◌, ◌^◌, true, length, IfSome, IfNone, bytes_eq, if◌then◌else◌, Option, None};
ghost use Rattle.std.specs.Option.{option_copied};
ghost use Rattle.std.specs.Char.{is_ascii_digit};
ghost use Rattle.std.specs.List.{list_all};
ghost use Rattle.std.specs.Str.Parse.{digits_value};
ghost use Rattle.filter_expr.specs.Answers.{Gives, GivesBy};
ghost use Rattle.filter_expr.specs.Expressions.{Expression, expression_of};
ghost use Rattle.filter_expr.specs.Tests as spec;

use crate::expression::negated;
use crate::lexer::Token;
use crate::selectors::{Sort, selector_at};
use crate::{Filter, FilterFault, Literal, Selector, Shape, Test};
use cat_model::Bytes;
use std::alloc::Global;

fn value_of(token: &Token) -> Option<&[u8]>
    ensures { option_copied result ≡ spec.value_of token.now }
{
    match token {
        Token::Word(word) => Some(word.as_slice()),
        Token::Quoted(text) => Some(text.as_slice()),
        _ => None,
    }
}

fn is_all_digits(word: &[u8]) -> bool
    ensures { result ≡ list_all is_ascii_digit word.now }
{
    word.iter().all(|byte| byte.is_ascii_digit())
}

fn is_number(word: &[u8]) -> bool
    ensures { result ≡ spec.is_number word.now }
{
    !word.is_empty() && (word.len() == 1 || word[0] != b'0') && is_all_digits(word)
}

// The value of decimal digits, where it is below 2 ^ 64.
fn digits(word: &[u8]) -> Option<u64>
    requires some { 0 < length word.now }
    requires digits { list_all is_ascii_digit word.now ≡ true }
    ensures value { IfSome result (λ n. n ≡ digits_value 10 word.now) }
    ensures none { IfNone result (2 ^ 64 ≤ digits_value 10 word.now) }
{
    match str::from_utf8(word) {
        Ok(text) => text.parse::<u64>().ok(),
        Err(_) => None,
    }
}

fn number_of(word: &[u8]) -> Option<u64>
    ensures { result ≡ spec.number_of word.now }
{
    if is_number(word) { digits(word) } else { None }
}

fn is(word: &[u8], text: &str) -> bool
    ensures { result ≡ bytes_eq word.now text.now }
{
    word == text.as_bytes()
}

fn truth_of(word: &[u8]) -> Option<bool>
    ensures { result ≡ spec.truth_of word.now }
{
    if is(word, "true") {
        Some(true)
    } else if is(word, "false") {
        Some(false)
    } else {
        None
    }
}

/// A value of a member of this sort.
fn literal_of(alloc: Global, sort: Sort, value: &[u8]) -> Result<Literal, FilterFault>
    ensures { Gives result (spec.literal_of sort value.now) }
{
    match sort {
        Sort::Text => Ok(Literal::Text(Bytes::new(alloc, value)?)),
        Sort::Number => Ok(Literal::Number(number_of(value).ok_or(FilterFault::Bad)?)),
        Sort::Truth => Ok(Literal::Truth(truth_of(value).ok_or(FilterFault::Bad)?)),
        Sort::Texts => Err(FilterFault::Bad),
    }
}

fn equals_literal(alloc: Global, selector: Selector, value: &[u8]) -> Result<Test, FilterFault>
    ensures { Gives result (spec.equals_literal selector value.now) }
{
    let literal = literal_of(alloc, selector.sort(), value)?;
    Ok(Test::Equals(selector, literal))
}

fn has_value(alloc: Global, selector: Selector, value: &[u8]) -> Result<Test, FilterFault>
    ensures { Gives result (spec.has_value selector value.now) }
{
    match selector.sort() {
        Sort::Texts => Ok(Test::Has(selector, Bytes::new(alloc, value)?)),
        _ => Err(FilterFault::Bad),
    }
}

fn is_blank(selector: Selector) -> Result<Test, FilterFault>
    ensures { Gives result (spec.is_blank selector) }
{
    match selector.sort() {
        Sort::Text | Sort::Texts => Ok(Test::IsEmpty(selector)),
        _ => Err(FilterFault::Bad),
    }
}

/// The member that a path names.
fn selected(shape: Shape, path: &Token) -> Result<Selector, FilterFault>
    ensures { Gives result (spec.selected shape path.now) }
{
    match path {
        Token::Word(path) => selector_at(shape, path.as_slice()).ok_or(FilterFault::Bad),
        _ => Err(FilterFault::Bad),
    }
}

/// The member's value is this.
#[tactic(auto, unfolding(crate::specs::Tests::equality))]
fn equality(alloc: Global, shape: Shape, path: &Token, value: &Token) -> Result<Filter, FilterFault>
    ensures { GivesBy expression_of result (spec.equality shape path.now value.now) }
{
    let selector = selected(shape, path)?;
    let value = value_of(value).ok_or(FilterFault::Bad)?;
    Ok(Filter::Is(equals_literal(alloc, selector, value)?))
}

/// The value is in the member.
#[tactic(auto, unfolding(crate::specs::Tests::membership))]
fn membership(
    alloc: Global,
    shape: Shape,
    path: &Token,
    value: &Token,
) -> Result<Filter, FilterFault>
    ensures { GivesBy expression_of result (spec.membership shape path.now value.now) }
{
    let selector = selected(shape, path)?;
    let value = value_of(value).ok_or(FilterFault::Bad)?;
    Ok(Filter::Is(has_value(alloc, selector, value)?))
}

/// The member is empty.
#[tactic(auto, unfolding(crate::specs::Tests::emptiness))]
fn emptiness(shape: Shape, path: &Token) -> Result<Filter, FilterFault>
    ensures { GivesBy expression_of result (spec.emptiness shape path.now) }
{
    let selector = selected(shape, path)?;
    Ok(Filter::Is(is_blank(selector)?))
}

fn is_empty_word(token: &Token) -> bool
    ensures { (e : Option Expression) → spec.if_empty token.now e ≡ (if result then e else None) }
{
    matches!(token, Token::Empty)
}

/// The test of three tokens.
#[tactic(auto, unfolding(crate::specs::Tests::short_test))]
fn short_test(
    alloc: Global,
    shape: Shape,
    first: &Token,
    sign: &Token,
    last: &Token,
) -> Result<Filter, FilterFault>
    ensures { GivesBy expression_of result (spec.short_test shape first.now sign.now last.now) }
{
    match sign {
        Token::Equal => equality(alloc, shape, first, last),
        Token::Unequal => negated(alloc, equality(alloc, shape, first, last)?),
        Token::In => membership(alloc, shape, last, first),
        Token::Contains => membership(alloc, shape, first, last),
        Token::Is => {
            if is_empty_word(last) {
                emptiness(shape, first)
            } else {
                Err(FilterFault::Bad)
            }
        }
        _ => Err(FilterFault::Bad),
    }
}

/// The value is not in the member.
fn not_held(
    alloc: Global,
    shape: Shape,
    first: &Token,
    sign: &Token,
    last: &Token,
) -> Result<Filter, FilterFault>
    ensures { GivesBy expression_of result (spec.not_held shape first.now sign.now last.now) }
{
    match sign {
        Token::In => negated(alloc, membership(alloc, shape, last, first)?),
        Token::Contains => negated(alloc, membership(alloc, shape, first, last)?),
        _ => Err(FilterFault::Bad),
    }
}

/// The member is not empty.
fn not_empty(
    alloc: Global,
    shape: Shape,
    path: &Token,
    sign: &Token,
    last: &Token,
) -> Result<Filter, FilterFault>
    ensures { GivesBy expression_of result (spec.not_empty shape path.now sign.now last.now) }
{
    match sign {
        Token::Not => {
            if is_empty_word(last) {
                negated(alloc, emptiness(shape, path)?)
            } else {
                Err(FilterFault::Bad)
            }
        }
        _ => Err(FilterFault::Bad),
    }
}

/// The test of four tokens.
#[tactic(auto, unfolding(crate::specs::Tests::long_test))]
fn long_test(
    alloc: Global,
    shape: Shape,
    first: &Token,
    second: &Token,
    third: &Token,
    last: &Token,
) -> Result<Filter, FilterFault>
    ensures { GivesBy expression_of result (spec.long_test shape first.now second.now third.now last.now) }
{
    match second {
        Token::Not => not_held(alloc, shape, first, third, last),
        Token::Is => not_empty(alloc, shape, first, third, last),
        _ => Err(FilterFault::Bad),
    }
}

/// The test that these tokens are.
#[tactic(auto, using(crate::proofs::Forms::no_form))]
pub(crate) fn test_of(alloc: Global, shape: Shape, tokens: &[Token]) -> Result<Filter, FilterFault>
    ensures { GivesBy expression_of result (spec.test_of shape tokens.now) }
{
    match tokens {
        [first, sign, last] => short_test(alloc, shape, first, sign, last),
        [first, second, third, last] => long_test(alloc, shape, first, second, third, last),
        _ => Err(FilterFault::Bad),
    }
}

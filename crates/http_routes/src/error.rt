//! Why a request is refused, before it is a request.

use cat_model::{List, Memory, Refusal, Text, Texts};
use json_bodies::{Field, ReadError};
use std::alloc::{AllocError, AllocFailed, Global};

/// A part of a target that may be wrong: a parameter of its path or of its query, or several of them together.
#[derive(Clone, Copy, Debug, PartialEq, Eq)]
pub enum Parameter {
    Key,
    Name,
    Node,
    State,
    Id,
    /// What names a prepared query, its identifier or its name.
    IdOrName,
    Dc,
    /// `stale` beside `consistent`.
    Mode,
    Index,
    Wait,
    Filter,
    /// More than one of `cas`, `acquire` and `release`.
    Conditions,
    Cas,
    Acquire,
    Release,
    Flags,
    /// `cas` beside `recurse`.
    CasOfTree,
    Limit,
    Note,
}

impl Parameter {
    ghost use Rattle.std.specs.Prelude.{◌≡◌};
    ghost use Rattle.http_routes.specs.Errors.{name_of};

    /// The parameter's name in a refusal, and in a query where it stands in one.
    pub fn text(self) -> &'static str
        ensures { result.now ≡ name_of self }
    {
        match self {
            Parameter::Key => "key",
            Parameter::Name => "name",
            Parameter::Node => "node",
            Parameter::State => "state",
            Parameter::Id => "id",
            Parameter::IdOrName => "idn",
            Parameter::Dc => "dc",
            Parameter::Mode => "stale,consistent",
            Parameter::Index => "index",
            Parameter::Wait => "wait",
            Parameter::Filter => "filter",
            Parameter::Conditions => "cas,acquire,release",
            Parameter::Cas => "cas",
            Parameter::Acquire => "acquire",
            Parameter::Release => "release",
            Parameter::Flags => "flags",
            Parameter::CasOfTree => "cas,recurse",
            Parameter::Limit => "limit",
            Parameter::Note => "note",
        }
    }
}

/// The methods that a path takes.
#[derive(Clone, Copy, Debug, PartialEq, Eq)]
pub enum Allow {
    Get,
    Put,
    GetPost,
    DeleteGetPut,
}

impl Allow {
    ghost use Rattle.std.specs.Prelude.{◌≡◌, IfOk};
    ghost use Rattle.http_routes.specs.Errors.{methods_of};

    /// Their names in byte order.
    pub fn methods(self, alloc: Global) -> Result<Texts, Memory>
        ensures { IfOk result (λ texts. texts ≡ methods_of self) }
    {
        let mut methods = List::new(alloc);
        match self {
            Allow::Get => methods.push(Text::new(alloc, "GET")?)?,
            Allow::Put => methods.push(Text::new(alloc, "PUT")?)?,
            Allow::GetPost => {
                methods.push(Text::new(alloc, "GET")?)?;
                methods.push(Text::new(alloc, "POST")?)?;
            }
            Allow::DeleteGetPut => {
                methods.push(Text::new(alloc, "DELETE")?)?;
                methods.push(Text::new(alloc, "GET")?)?;
                methods.push(Text::new(alloc, "PUT")?)?;
            }
        }
        Ok(methods)
    }
}

/// Why a request is refused. It takes no memory.
#[derive(Clone, Copy, Debug, PartialEq, Eq)]
pub enum RouteError {
    /// There is no such path.
    NoRoute,
    /// The path takes these methods alone.
    Method(Allow),
    /// A part of the target is wrong.
    Target(Parameter),
    /// A field of the body is wrong.
    Body(Field),
    /// The body, or a value in it, is too long.
    TooLarge,
    Memory,
}

impl RouteError {
    ghost use Rattle.std.specs.Prelude.{◌≡◌, ◌≢◌, IfOk, OnOk};
    ghost use Rattle.http_routes.specs.Errors.{refusal_of};

    /// The refusal that a client gets, where it was no lack of memory.
    pub fn refusal(self, alloc: Global) -> Result<Refusal, Memory>
        ensures is { IfOk result (λ refusal. refusal ≡ refusal_of self) }
        ensures told { OnOk result (self ≢ RouteError.Memory) }
    {
        match self {
            RouteError::NoRoute => Ok(Refusal::NotFound {
                what: Text::new(alloc, "Not found")?,
            }),
            RouteError::Method(allow) => Ok(Refusal::Method {
                allow: allow.methods(alloc)?,
            }),
            RouteError::Target(parameter) => Ok(Refusal::Invalid {
                field: Text::new(alloc, parameter.text())?,
            }),
            RouteError::Body(field) => Ok(Refusal::Invalid {
                field: Text::new(alloc, field.text())?,
            }),
            RouteError::TooLarge => Ok(Refusal::TooLarge),
            RouteError::Memory => Err(Memory),
        }
    }
}

impl From<ReadError> for RouteError {
    ghost use Rattle.std.specs.Prelude.{◌≡◌};
    ghost use Rattle.http_routes.specs.Errors.{error_of};

    ghost from_gives = { λ why e. e ≡ error_of why };

    fn from(why: ReadError) -> RouteError {
        match why {
            ReadError::Invalid(field) => RouteError::Body(field),
            ReadError::TooLarge => RouteError::TooLarge,
            ReadError::Memory => RouteError::Memory,
        }
    }
}

impl From<Memory> for RouteError {
    ghost use Rattle.std.specs.Prelude.{◌≡◌};
    ghost use Rattle.http_routes.specs.declared.error.RouteError.TheVariants.{Memory as Wants};

    ghost from_gives = { λ _ e. e ≡ Wants };

    fn from(_: Memory) -> RouteError {
        RouteError::Memory
    }
}

impl From<AllocError> for RouteError {
    ghost use Rattle.std.specs.Prelude.{◌≡◌};
    ghost use Rattle.http_routes.specs.declared.error.RouteError.TheVariants.{Memory as Wants};

    ghost from_gives = { λ _ e. e ≡ Wants };

    fn from(_: AllocError) -> RouteError {
        RouteError::Memory
    }
}

impl<T: Drop> From<AllocFailed<T>> for RouteError {
    ghost use Rattle.std.specs.Prelude.{◌≡◌};
    ghost use Rattle.http_routes.specs.declared.error.RouteError.TheVariants.{Memory as Wants};

    ghost from_gives = { λ _ e. e ≡ Wants };

    fn from(_: AllocFailed<T>) -> RouteError {
        RouteError::Memory
    }
}

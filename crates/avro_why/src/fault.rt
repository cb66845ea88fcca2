use crate::names::Name;
use crate::places::PlaceId;

/// What is wrong with a value.
#[derive(Clone, Copy)]
pub(crate) enum Fault<'a> {
    /// A reference to a type that is not defined before it.
    Undefined(Name<'a>),
    /// A definition of a name that is defined already, at a place.
    Defined(Name<'a>, PlaceId),
    /// A name that is not valid.
    NoName(&'a str),
    /// A name that is that of a primitive type.
    PrimitiveName(&'a str),
    /// A missing attribute.
    Missing(&'a str),
    /// What a registry answers, which has the schema as a string.
    Answer,
    /// An attribute that must be something else.
    Must(&'a str, &'static str),
    /// JSON that is not a type.
    NoType,
    /// JSON that is not a field.
    NoField,
    /// A union without branches.
    EmptyUnion,
    /// A union in a union.
    UnionInUnion,
    /// A duplicate branch, the first of which is at a place.
    Branch(Name<'a>, PlaceId),
    /// An enum without symbols.
    NoSymbols,
    /// A duplicate symbol, the first of which is at a place.
    Symbol(&'a str, PlaceId),
    /// A default that is not one of the symbols.
    NoSuchSymbol,
    /// A name or an alias that another field has, at a place.
    FieldName(&'a str, PlaceId),
    /// A default that is not valid for a type.
    Default(Name<'a>),
    /// A default that matches no branch of a union.
    NoBranchFits,
    /// A type that is not supported.
    Unsupported(&'static str),
    /// A number that is not a 64-bit integer.
    NotInteger(&'a str),
    /// The first node past the limit.
    TooMany,
    /// The size of a fixed past its limit.
    Size,
}

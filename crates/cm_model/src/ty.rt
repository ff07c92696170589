//! Types, and the declarations of types.

use crate::{Boxed, List, Name};

/// A type of values. The numbers are those of the declarations, each kind counted from 0.
#[derive(Drop)]
pub enum Ty {
    /// The elements of a sort.
    Sort(u16),
    /// The numbers of an integer type.
    Int(u16),
    /// The variants of an enum; enum 0 is `bool`.
    Enum(u16),
    /// The values of a record.
    Rec(u16),
    /// None, or some value of a type.
    Option(Boxed<Ty>),
}

/// An integer type with the numbers from `lo` to `hi`.
#[derive(Drop)]
pub struct IntDecl {
    pub name: Name,
    pub lo: i64,
    pub hi: i64,
}

/// An enum with its variants in order.
#[derive(Drop)]
pub struct EnumDecl {
    pub name: Name,
    pub variants: List<Name>,
}

/// A named part: a field of a record or a parameter.
#[derive(Drop)]
pub struct Part {
    pub name: Name,
    pub ty: Ty,
}

/// A record with its fields in order.
#[derive(Drop)]
pub struct RecDecl {
    pub name: Name,
    pub fields: List<Part>,
}

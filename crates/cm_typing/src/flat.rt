//! Types while a tree is checked: flat, so that they are compared and measured at once.

ghost use Rattle.std.specs.Prelude.{◌≡◌, ◌+◌, ◌<◌, ◌≤◌, ◌^◌, ◌-◌, IfOk};
ghost use Rattle.cm_typing.specs.Counts.{counted};
ghost use Rattle.cm_typing.specs.Told.{Answers};
ghost use Rattle.cm_typing.specs.Flats as Flats;
ghost use Rattle.cm_typing.specs.Flats.{same_flat};

use crate::fault::{refused, rule};
use crate::{TypeFault, rules};
use cm_model::limits::{INTEGERS, PARAMETERS_INTEGERS, PARAMETERS_WIDTH, WIDTH};
use cm_model::{Boxed, NoMemory, Place, Ty};
use std::alloc::Global;

/// What stands innermost in a type, by its number. Enum 0 is `bool`.
#[derive(Clone, Copy)]
pub enum Base {
    Sort(u16),
    Int(u16),
    Enum(u16),
    Record(u16),
}

/// A type: so many options, one inside another, around its base.
#[derive(Clone, Copy)]
pub struct Flat {
    pub base: Base,
    pub options: u16,
    /// The width of the base.
    pub width: u32,
    /// How many integers are in it.
    pub integers: u32,
    /// Whether the base holds an option.
    pub optional: bool,
}

/// What an expression gives.
#[derive(Clone, Copy)]
pub enum Kind {
    /// A number, as numerals and sums are.
    Number,
    /// A value of a type.
    Of(Flat),
}

fn plain(base: Base, integers: u32) -> Flat
    ensures { result ≡ Flats.plain base integers }
{
    Flat {
        base,
        options: 0,
        width: 1,
        integers,
        optional: false,
    }
}

pub(crate) fn sort_flat(number: u16) -> Flat
    ensures { result ≡ Flats.sort_flat number }
{
    plain(Base::Sort(number), 0)
}

pub(crate) fn int_flat(number: u16) -> Flat
    ensures { result ≡ Flats.int_flat number }
{
    plain(Base::Int(number), 1)
}

pub(crate) fn enum_flat(number: u16) -> Flat
    ensures { result ≡ Flats.enum_flat number }
{
    plain(Base::Enum(number), 0)
}

pub(crate) fn bool_kind() -> Option<Kind>
    ensures { result ≡ Flats.bool_kind }
{
    Some(Kind::Of(enum_flat(0)))
}

fn width_of(t: Flat) -> u64
    ensures width { result ≡ Flats.width_of t }
    ensures fits { result < 2 ^ 33 }
{
    u64::from(t.width) + u64::from(t.options)
}

fn holds_option(t: Flat) -> bool
    ensures { result ≡ Flats.holds_option t }
{
    t.optional || t.options > 0
}

fn is_same_base(a: Base, b: Base) -> bool
    ensures { result ≡ Flats.same_base a b }
{
    match (a, b) {
        (Base::Sort(m), Base::Sort(n)) => m == n,
        (Base::Int(m), Base::Int(n)) => m == n,
        (Base::Enum(m), Base::Enum(n)) => m == n,
        (Base::Record(m), Base::Record(n)) => m == n,
        _ => false,
    }
}

fn is_same(a: Flat, b: Flat) -> bool
    ensures { result ≡ same_flat a b }
{
    is_same_base(a.base, b.base) && a.options == b.options
}

fn is_int_base(base: Base) -> bool
    ensures { result ≡ Flats.is_int_base base }
{
    match base {
        Base::Int(_) => true,
        _ => false,
    }
}

fn is_integer_flat(t: Flat) -> bool
    ensures { result ≡ Flats.is_integer_flat t }
{
    is_int_base(t.base) && t.options == 0
}

pub(crate) fn kind_of(t: Option<Flat>) -> Option<Kind>
    ensures { result ≡ Flats.kind_of t }
{
    match t {
        Some(t) => Some(Kind::Of(t)),
        None => None,
    }
}

/// The type of a value.
pub(crate) fn value_of(kind: Option<Kind>) -> Option<Flat>
    ensures { result ≡ Flats.value_of kind }
{
    match kind {
        Some(Kind::Of(t)) => Some(t),
        Some(Kind::Number) => None,
        None => None,
    }
}

pub(crate) fn is_value(kind: Option<Kind>) -> bool
    ensures { result ≡ Flats.is_value kind }
{
    match kind {
        None => true,
        Some(Kind::Number) => false,
        Some(Kind::Of(_)) => true,
    }
}

fn agree(want: Option<Flat>, kind: Option<Kind>) -> bool
    ensures { result ≡ Flats.agree want kind }
{
    match want {
        None => true,
        Some(t) => match kind {
            None => true,
            Some(Kind::Number) => true,
            Some(Kind::Of(u)) => is_same(t, u),
        },
    }
}

pub(crate) fn is_bool(kind: Option<Kind>) -> bool
    ensures { result ≡ Flats.is_bool kind }
{
    match kind {
        None => true,
        Some(Kind::Number) => false,
        Some(Kind::Of(t)) => is_same(enum_flat(0), t),
    }
}

/// A number, or a value of an integer type.
pub(crate) fn is_integer(kind: Option<Kind>) -> bool
    ensures { result ≡ Flats.is_integer kind }
{
    match kind {
        None => true,
        Some(Kind::Number) => true,
        Some(Kind::Of(t)) => is_integer_flat(t),
    }
}

fn are_equal_flats(t: Flat, u: Flat) -> bool
    ensures { result ≡ Flats.are_equal_flats t u }
{
    is_same(t, u) || (is_integer_flat(t) && is_integer_flat(u))
}

/// Two values of one type, or two integer expressions.
pub(crate) fn are_equal_kinds(left: Option<Kind>, right: Option<Kind>) -> bool
    ensures { result ≡ Flats.are_equal_kinds left right }
{
    match left {
        None => true,
        Some(Kind::Number) => is_integer(right),
        Some(Kind::Of(t)) => match right {
            None => true,
            Some(Kind::Number) => is_integer_flat(t),
            Some(Kind::Of(u)) => are_equal_flats(t, u),
        },
    }
}

/// A value of the wanted type.
pub(crate) fn wanted(want: Option<Flat>, at: Place, kind: Option<Kind>) -> Result<(), TypeFault>
    ensures { Answers (Flats.wanted want at kind) (λ u. u) result }
{
    rule(is_value(kind), rules::NUMBER, at)?;
    rule(agree(want, kind), rules::TYPES, at)
}

/// The option of a type.
pub(crate) fn option_of(at: Place, t: Option<Flat>) -> Result<Option<Flat>, TypeFault>
    ensures { Answers (Flats.option_of at t) (λ t. t) result }
{
    match t {
        None => Ok(None),
        Some(t) => {
            let width = width_of(t) + 1;
            if width <= u64::from(WIDTH) && t.integers <= INTEGERS {
                Ok(Some(Flat {
                    base: t.base,
                    options: t.options + 1,
                    width: t.width,
                    integers: t.integers,
                    optional: t.optional,
                }))
            } else {
                Err(refused(rules::WIDE, at))
            }
        }
    }
}

/// The payload of an option.
pub(crate) fn payload_of(at: Place, kind: Option<Kind>) -> Result<Option<Flat>, TypeFault>
    ensures { Answers (Flats.payload_of at kind) (λ t. t) result }
{
    match kind {
        None => Ok(None),
        Some(Kind::Number) => Err(refused(rules::OPTION, at)),
        Some(Kind::Of(t)) => {
            if t.options > 0 {
                Ok(Some(Flat {
                    base: t.base,
                    options: t.options - 1,
                    width: t.width,
                    integers: t.integers,
                    optional: t.optional,
                }))
            } else {
                Err(refused(rules::OPTION, at))
            }
        }
    }
}

/// No option in a key.
pub(crate) fn is_key(t: Option<Flat>) -> bool
    ensures { result ≡ Flats.is_key t }
{
    match t {
        None => true,
        Some(t) => !holds_option(t),
    }
}

fn width_in(t: Option<Flat>) -> u64
    ensures width { result ≡ Flats.width_in t }
    ensures fits { result < 2 ^ 33 }
{
    match t {
        None => 0,
        Some(t) => width_of(t),
    }
}

fn integers_in(t: Option<Flat>) -> u64
    ensures integers { result ≡ Flats.integers_in t }
    ensures fits { result < 2 ^ 33 }
{
    match t {
        None => 0,
        Some(t) => u64::from(t.integers),
    }
}

fn option_in(t: Option<Flat>) -> bool
    ensures { result ≡ Flats.option_in t }
{
    match t {
        None => false,
        Some(t) => holds_option(t),
    }
}

#[tactic(auto, using(crate::proofs::Counting::counted_more, crate::proofs::Counting::counted_twice, crate::proofs::Counting::counted_end))]
fn widths_of(types: &[Option<Flat>]) -> u64
    ensures { result ≡ counted (Flats.widths_of types.now) }
{
    let mut total: u64 = 0;
    for t in types {
        total = total.saturating_add(width_in(*t));
    }
    total
}

#[tactic(auto, using(crate::proofs::Counting::counted_more, crate::proofs::Counting::counted_twice, crate::proofs::Counting::counted_end))]
fn integers_of(types: &[Option<Flat>]) -> u64
    ensures { result ≡ counted (Flats.integers_of types.now) }
{
    let mut total: u64 = 0;
    for t in types {
        total = total.saturating_add(integers_in(*t));
    }
    total
}

fn any_option(types: &[Option<Flat>]) -> bool
    ensures { result ≡ Flats.any_option types.now }
{
    types.iter().any(|t| option_in(*t))
}

#[tactic(auto, using(crate::proofs::Counting::counted_small))]
pub(crate) fn are_parameters(types: &[Option<Flat>]) -> bool
    ensures { result ≡ Flats.are_parameters types.now }
{
    widths_of(types) <= u64::from(PARAMETERS_WIDTH)
        && integers_of(types) <= u64::from(PARAMETERS_INTEGERS)
}

/// A record with fields of these types.
#[tactic(auto, using(crate::proofs::Counting::counted_small))]
pub(crate) fn record_of(
    at: Place,
    number: u16,
    types: &[Option<Flat>],
) -> Result<Option<Flat>, TypeFault>
    ensures { Answers (Flats.record_of at number types.now) (λ t. t) result }
{
    let width = widths_of(types);
    let integers = integers_of(types);
    if width < u64::from(WIDTH) && integers <= u64::from(INTEGERS) {
        Ok(Some(Flat {
            base: Base::Record(number),
            options: 0,
            width: width as u32 + 1,
            integers: integers as u32,
            optional: any_option(types),
        }))
    } else {
        Err(refused(rules::WIDE, at))
    }
}

fn innermost(base: Base) -> Ty
    ensures { result ≡ Flats.innermost base }
{
    match base {
        Base::Sort(n) => Ty::Sort(n),
        Base::Int(n) => Ty::Int(n),
        Base::Enum(n) => Ty::Enum(n),
        Base::Record(n) => Ty::Rec(n),
    }
}

fn around(alloc: Global, t: Flat) -> Result<Ty, NoMemory>
    ensures { IfOk result (λ d. d ≡ Flats.ty_of_flat t) }
{
    let mut deep = innermost(t.base);
    for _k in 0..t.options {
        deep = Ty::Option(Boxed::new(alloc, deep)?);
    }
    Ok(deep)
}

/// What a table has of a type.
pub(crate) fn ty_of(alloc: Global, t: Option<Flat>) -> Result<Ty, NoMemory>
    ensures { IfOk result (λ d. d ≡ Flats.ty_of t) }
{
    match t {
        None => Ok(Ty::Enum(0)),
        Some(t) => around(alloc, t),
    }
}

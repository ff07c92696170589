//! What symbols name on a world.

ghost use Rattle.std.specs.Prelude.{◌≡◌, Some, slice_get};
ghost use Rattle.std.specs.Option.{option_copied};
ghost use Rattle.cm_value.specs.declared.value.Value.{Value, out-Value};
ghost use Rattle.cm_term.specs.Symbols.{part_in, field_in, payload_in, followed, joined, root_value, symbol_value};
ghost use Rattle.cm_cond.specs.Values.{roots_on, element_of, number_of, variant_of, presence_of, raised};

use cm_term::{Root, Step, Sym};
use cm_value::Value;
use cm_world::World;

// A field by its number.
fn field_at(fields: &[Value], field: u16) -> Option<&Value>
    ensures { option_copied result ≡ slice_get fields.now field }
{
    fields.get(usize::from(field))
}

// A field of a record.
fn field_in(field: u16, value: &Value) -> Option<&Value>
    ensures { option_copied result ≡ field_in field (out-Value value.now) }
{
    match value {
        Value::Rec(fields) => field_at(fields.as_slice(), field),
        _ => None,
    }
}

// The payload of an option.
fn payload_in(value: &Value) -> Option<&Value>
    ensures { option_copied result ≡ payload_in (out-Value value.now) }
{
    match value {
        Value::Some(payload) => Some(payload.get()),
        _ => None,
    }
}

fn part_in(step: Step, value: &Value) -> Option<&Value>
    ensures { option_copied result ≡ part_in step value.now }
{
    match step {
        Step::Field(field) => field_in(field, value),
        Step::Payload => payload_in(value),
    }
}

// The part of a value at the end of a path.
fn followed<'a>(path: &[Step], value: &'a Value) -> Option<&'a Value>
    ensures { option_copied result ≡ followed path.now (Some value.now) }
{
    let mut part = value;
    'steps: for step in path {
        match part_in(*step, part) {
            Some(next) => part = next,
            None => return None,
        }
    }
    Some(part)
}

// The initial value of a cell, if it has one.
fn cell_value(cells: &[Option<Value>], cell: u8) -> Option<&Value>
    ensures { option_copied result ≡ joined (slice_get cells.now cell) }
{
    match cells.get(usize::from(cell)) {
        Some(value) => value.as_ref(),
        None => None,
    }
}

fn root_value<'a>(world: &'a World, cells: &'a [Option<Value>], root: Root) -> Option<&'a Value>
    ensures { option_copied result ≡ root_value (roots_on world.now cells.now) root }
{
    match root {
        Root::A(place) => world.a.vals.as_slice().get(usize::from(place)),
        Root::B(place) => world.b.vals.as_slice().get(usize::from(place)),
        Root::Cell(cell) => cell_value(cells, cell),
    }
}

/// The value that a symbol names, if it has one. The cells have these initial values.
#[tactic(auto, using(crate::proofs::Symbols::followed_none))]
pub fn symbol_value<'a>(
    world: &'a World,
    cells: &'a [Option<Value>],
    sym: &Sym,
) -> Option<&'a Value>
    ensures { option_copied result ≡ symbol_value (roots_on world.now cells.now) sym.now }
{
    match root_value(world, cells, sym.root) {
        Some(value) => followed(sym.path.as_slice(), value),
        None => None,
    }
}

/// The element that a symbol names.
pub fn element_of(world: &World, cells: &[Option<Value>], sym: &Sym) -> Option<u64>
    ensures { result ≡ element_of (roots_on world.now cells.now) sym.now }
{
    match symbol_value(world, cells, sym) {
        Some(Value::Elem(n)) => Some(*n),
        _ => None,
    }
}

/// The number that a symbol names.
pub fn number_of(world: &World, cells: &[Option<Value>], sym: &Sym) -> Option<i128>
    ensures { result ≡ number_of (roots_on world.now cells.now) sym.now }
{
    match symbol_value(world, cells, sym) {
        Some(Value::Int(n)) => Some(i128::from(*n)),
        _ => None,
    }
}

/// The number of the variant that a symbol names.
pub fn variant_of(world: &World, cells: &[Option<Value>], sym: &Sym) -> Option<u16>
    ensures { result ≡ variant_of (roots_on world.now cells.now) sym.now }
{
    match symbol_value(world, cells, sym) {
        Some(Value::Tag(n)) => Some(*n),
        _ => None,
    }
}

/// Whether the option that a symbol names has a payload.
pub fn presence_of(world: &World, cells: &[Option<Value>], sym: &Sym) -> Option<bool>
    ensures { result ≡ presence_of (roots_on world.now cells.now) sym.now }
{
    match symbol_value(world, cells, sym) {
        Some(Value::None) => Some(false),
        Some(Value::Some(_)) => Some(true),
        _ => None,
    }
}

/// The sum of the number that a symbol names and another one.
pub fn raised(world: &World, cells: &[Option<Value>], sym: &Sym, plus: i64) -> Option<i128>
    ensures { result ≡ raised (number_of (roots_on world.now cells.now) sym.now) plus }
{
    match symbol_value(world, cells, sym) {
        Some(Value::Int(n)) => Some(i128::from(*n) + i128::from(plus)),
        _ => None,
    }
}

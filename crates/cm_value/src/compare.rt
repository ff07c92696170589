//! Whether two values are one.

ghost use Rattle.std.specs.Prelude.{◌≡◌, ◌↔◌, IsTrue};

use crate::Value;

/// Whether two values are one.
#[cycle(same)]
pub fn same(left: &Value, right: &Value) -> bool
    ensures equal { IsTrue result ↔ (left.now ≡ right.now) }
{
    match (left, right) {
        (Value::Elem(m), Value::Elem(n)) => m == n,
        (Value::Int(m), Value::Int(n)) => m == n,
        (Value::Tag(m), Value::Tag(n)) => m == n,
        (Value::Rec(ms), Value::Rec(ns)) => same_all(ms.as_slice(), ns.as_slice()),
        (Value::None, Value::None) => true,
        (Value::Some(m), Value::Some(n)) => same(m.get(), n.get()),
        _ => false,
    }
}

#[cycle(same)]
fn same_all(left: &[Value], right: &[Value]) -> bool
    ensures equal { IsTrue result ↔ (left.now ≡ right.now) }
{
    if left.len() != right.len() {
        return false;
    }
    for i in 0..left.len() {
        if !same(&left[i], &right[i]) {
            return false;
        }
    }
    true
}

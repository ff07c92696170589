//! What a machine computes with: values, or terms.

ghost use Rattle.std.specs.Prelude.{◌≡◌, IfOk};
ghost use Rattle.cm_code.specs.Rules.{Rules};

use cm_model::{List, NoMemory};
use std::alloc::Global;

/// What expressions give, a value or a number of no type, with the operations that the language asks of it.
pub trait Operand {
    /// What stands in locals, cells and replies.
    type Value: Drop;

    /// What is done by a run.
    ghost Doing: { Type 0 };

    /// The rules of the language on these.
    ghost rules: { Rules Self.Value Self Doing };

    /// A variant of an enum.
    fn tag(alloc: Global, ty: u16, index: u16) -> Result<Self::Value, NoMemory>
        ensures { IfOk result (λ v. v ≡ rules.tag ty index) };

    /// A bool.
    fn flag(alloc: Global, b: bool) -> Result<Self::Value, NoMemory>
        ensures { IfOk result (λ v. v ≡ rules.flag b) };

    /// A record with these fields.
    fn make(alloc: Global, parts: List<Self::Value>) -> Result<Self::Value, NoMemory>
        ensures { IfOk result (λ v. v ≡ rules.make parts) };

    /// An option with nothing in it.
    fn nothing(alloc: Global) -> Result<Self::Value, NoMemory>
        ensures { IfOk result (λ v. v ≡ rules.nothing) };

    /// An option with a payload.
    fn some(alloc: Global, payload: Self::Value) -> Result<Self::Value, NoMemory>
        ensures { IfOk result (λ v. v ≡ rules.some payload) };

    /// A field of a record, if it is there.
    fn field(alloc: Global, of: Self::Value, i: u16) -> Result<Option<Self::Value>, NoMemory>
        ensures { IfOk result (λ r. r ≡ rules.field of i) };

    /// A record with another value in a field, if it is there.
    fn with_field(
        alloc: Global,
        of: Self::Value,
        i: u16,
        value: Self::Value,
    ) -> Result<Option<Self::Value>, NoMemory>
        ensures { IfOk result (λ r. r ≡ rules.with_field of i value) };

    /// An equal value.
    fn copy(alloc: Global, value: &Self::Value) -> Result<Self::Value, NoMemory>
        ensures { IfOk result (λ v. v ≡ value.now) };

    /// A value as an operand.
    fn plain(value: Self::Value) -> Self
        ensures { result ≡ rules.plain value };

    /// A numeral.
    fn number(n: i64) -> Self
        ensures { result ≡ rules.number n };

    /// The operand as a value, if it is one.
    fn value(self) -> Option<Self::Value>
        ensures { result ≡ rules.value self };

    /// The operand plus a numeral, if it has a number. A sum that doesn't fit is as good as no memory.
    fn shift(self, by: i64) -> Result<Option<Self>, NoMemory>
        ensures { IfOk result (λ r. r ≡ rules.shift self by) };
}

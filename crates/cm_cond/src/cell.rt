//! Cells of a case.

use cm_model::List;
use cm_term::Sym;

/// A key of a map, or a part of one.
#[derive(Drop)]
pub enum KeyTerm {
    /// The element that a symbol names.
    Elem(Sym),
    /// A number, or one that is so much more than that of a symbol.
    Num { x: Option<Sym>, plus: i64 },
    /// The variant that a symbol names.
    TagOf(Sym),
    /// The variant with this number.
    Tag(u16),
    /// A record with all its fields in order.
    Rec(List<KeyTerm>),
}

/// A cell: a state, and a key where the state is a map.
#[derive(Drop)]
pub struct CellTerm {
    /// The number of the state.
    pub state: u16,
    /// The key.
    pub key: Option<KeyTerm>,
}

//! What has been declared so far.

use crate::{Flat, Names};
use cm_model::{Call, EnumDecl, IntDecl, List, Name, Place, RecDecl, StateDecl};

/// The declared names; and of the body that is being checked the declaration's place and the reply.
#[derive(Drop)]
pub struct Scope {
    pub names: Names,
    /// The fields of each record.
    pub records: List<Names>,
    /// The weight of each function.
    pub weights: List<u32>,
    pub at: Place,
    pub reply: Option<Flat>,
}

/// The tables of a model, as far as they are filled.
#[derive(Drop)]
pub struct Draft {
    pub sorts: List<Name>,
    pub ints: List<IntDecl>,
    pub enums: List<EnumDecl>,
    pub records: List<RecDecl>,
    pub states: List<StateDecl>,
    pub funs: List<Call>,
    pub calls: List<Call>,
}

//! The walk over a whole tree.

ghost use Rattle.std.specs.Prelude.{◌≡◌, IfOk, ◌∷◌};
ghost use Rattle.cm_typing.specs.Told.{Answers};
ghost use Rattle.cm_typing.specs.Declarations as Declarations;
ghost use Rattle.cm_typing.specs.Declarations.{decl_told, decls_told, IsAnswer};

use crate::{Draft, Names, Scope, TypeFault};
use cm_model::{EnumDecl, List, Name, NoMemory, Place};
use cm_syntax::{Decl, Tree};
use std::alloc::Global;

impl Scope {
    // Nothing is declared.
    fn new(alloc: Global, at: Place) -> Scope
        ensures { result ≡ Declarations.no_names at }
    {
        Scope {
            names: Names::new(alloc),
            records: List::new(alloc),
            weights: List::new(alloc),
            at,
            reply: None,
        }
    }

    fn check_decl(&mut self, alloc: Global, draft: &mut Draft, d: &Decl) -> Result<(), TypeFault>
        ensures { Answers (decl_told d.now self.old draft.old) (λ u. (self.new, draft.new)) result }
    {
        match d {
            Decl::Sort { at, name } => self.check_sort(alloc, draft, *at, name),
            Decl::Int {
                at,
                name,
                low,
                high,
            } => self.check_int(alloc, draft, *at, name, low, high),
            Decl::Enum {
                at,
                name,
                first,
                more,
            } => self.check_enum(alloc, draft, *at, name, first, more.as_slice()),
            Decl::Record {
                at,
                name,
                first,
                more,
            } => self.check_record(alloc, draft, *at, name, first, more.as_slice()),
            Decl::Cell { at, name, value } => self.check_cell(alloc, draft, *at, name, value),
            Decl::CellWhere {
                at,
                name,
                value,
                invariant,
            } => self.check_cell_where(alloc, draft, *at, name, value, invariant.get()),
            Decl::Map {
                at,
                name,
                key,
                value,
            } => self.check_map(alloc, draft, *at, name, key, value),
            Decl::MapWhere {
                at,
                name,
                key,
                value,
                invariant,
            } => self.check_map_where(alloc, draft, *at, name, key, value, invariant.get()),
            Decl::Function {
                at,
                name,
                params,
                reply,
                body,
            } => self.check_function(alloc, draft, *at, name, params.as_slice(), reply, body),
            Decl::Call {
                at,
                name,
                params,
                internal,
                reply,
                body,
            } => self.check_call_decl(
                alloc,
                draft,
                *at,
                name,
                params.as_slice(),
                internal.as_slice(),
                reply,
                body,
            ),
        }
    }

    fn check_decls(
        &mut self,
        alloc: Global,
        draft: &mut Draft,
        decls: &[Decl],
    ) -> Result<(), TypeFault>
        ensures { Answers (decls_told decls.now self.old draft.old) (λ u. (self.new, draft.new)) result }
    {
        for d in decls {
            self.check_decl(alloc, draft, d)?;
        }
        Ok(())
    }

    fn check_tree(&mut self, alloc: Global, draft: &mut Draft, tree: &Tree) -> Result<(), TypeFault>
        ensures { Answers (decls_told (tree.now.first ∷ tree.now.more) self.old draft.old)
            (λ u. (self.new, draft.new)) result }
    {
        self.check_decl(alloc, draft, &tree.first)?;
        self.check_decls(alloc, draft, tree.more.as_slice())
    }
}

// `bool` alone.
fn no_tables(alloc: Global) -> Result<Draft, NoMemory>
    ensures { IfOk result (λ d. d ≡ Declarations.no_tables) }
{
    let mut variants = List::new(alloc);
    variants.push(Name::from_str(alloc, "false")?)?;
    variants.push(Name::from_str(alloc, "true")?)?;
    let name = Name::from_str(alloc, "bool")?;
    let mut enums = List::new(alloc);
    enums.push(EnumDecl { name, variants })?;
    Ok(Draft {
        sorts: List::new(alloc),
        ints: List::new(alloc),
        enums,
        records: List::new(alloc),
        states: List::new(alloc),
        funs: List::new(alloc),
        calls: List::new(alloc),
    })
}

/// The tables of a tree, or the first type rule that fails in it.
pub fn check_tables(alloc: Global, tree: &Tree) -> Result<Draft, TypeFault>
    ensures answer { IsAnswer tree.now result }
{
    let mut scope = Scope::new(alloc, tree.at);
    let mut draft = no_tables(alloc)?;
    scope.check_tree(alloc, &mut draft, tree)?;
    Ok(draft)
}

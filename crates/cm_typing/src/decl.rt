//! Declarations of types and states, and whole trees, are checked.

ghost use Rattle.std.specs.Prelude.{◌≡◌, ◌≤◌, [], ◌∷◌, ◌++◌, IfOk, OnOk, false, length};
ghost use Rattle.cm_syntax.specs.declared.tree.Decl.TheVariants as decl;
ghost use Rattle.cm_typing.specs.Told.{Answers};
ghost use Rattle.cm_typing.specs.Names.{is_taken};
ghost use Rattle.cm_typing.specs.Declarations as Declarations;
ghost use Rattle.cm_typing.specs.Declarations.{decl_told};

use crate::expr::{condition, is_number};
use crate::fault::{refused, rule};
use crate::flat::{is_key, record_of, ty_of};
use crate::names::invariant_locals;
use crate::prim::number_in;
use crate::types::check_type;
use crate::weights::is_light;
use crate::{Draft, Entry, Flat, FoundMap, Names, Params, Scope, TypeFault, rules};
use cm_model::limits::{DECLARATIONS, VARIANTS, WIDTH};
use cm_model::{EnumDecl, IntDecl, List, Name, NoMemory, Place, RecDecl, StateDecl, Ty};
use cm_syntax::{Expr, Num, Part, Type};
use std::alloc::Global;

/// An equal name.
pub(crate) fn copy_name(alloc: Global, name: &Name) -> Result<Name, NoMemory>
    ensures { IfOk result (λ n. n ≡ name.now) }
{
    Name::from_str(alloc, name.as_str())
}

fn copy_names(alloc: Global, first: &Name, more: &[Name]) -> Result<List<Name>, NoMemory>
    ensures { IfOk result (λ l. l ≡ first.now ∷ more.now) }
{
    let mut names = List::new(alloc);
    names.push(copy_name(alloc, first)?)?;
    copy_more(alloc, &mut names, more)?;
    Ok(names)
}

fn copy_more(alloc: Global, names: &mut List<Name>, more: &[Name]) -> Result<(), NoMemory>
    ensures { OnOk result (names.new ≡ names.old ++ more.now) }
{
    for name in more {
        names.push(copy_name(alloc, name)?)?;
    }
    Ok(())
}

fn is_range(low: &Num, high: &Num) -> bool
    ensures { result ≡ Declarations.is_range low.now high.now }
{
    let (low, high) = (number_in(low), number_in(high));
    (is_number(low) && is_number(high)) && low <= high
}

impl Params {
    pub(crate) fn new(alloc: Global) -> Params
        ensures { result ≡ Declarations.no_params }
    {
        Params {
            parts: List::new(alloc),
            types: List::new(alloc),
        }
    }

    /// One part more.
    pub(crate) fn push(
        &mut self,
        alloc: Global,
        name: &Name,
        ty: Option<Flat>,
    ) -> Result<(), NoMemory>
        ensures { OnOk result (self.new ≡ Declarations.with_part self.old name.now ty) }
    {
        let name = copy_name(alloc, name)?;
        let part = cm_model::Part {
            name,
            ty: ty_of(alloc, ty)?,
        };
        self.parts.push(part)?;
        self.types.push(ty)?;
        Ok(())
    }
}

fn key_of(alloc: Global, key: Option<Option<Flat>>) -> Result<Option<Ty>, NoMemory>
    ensures { IfOk result (λ k. k ≡ Declarations.key_of key) }
{
    match key {
        None => Ok(None),
        Some(t) => Ok(Some(ty_of(alloc, t)?)),
    }
}

impl Draft {
    // One state more.
    fn push_state(
        &mut self,
        alloc: Global,
        name: &Name,
        key: Option<Option<Flat>>,
        value: Option<Flat>,
        inv: Option<cm_model::Expr>,
    ) -> Result<(), NoMemory>
        ensures { OnOk result (self.new ≡ Declarations.states_with self.old name.now key value inv) }
    {
        let name = copy_name(alloc, name)?;
        let key = key_of(alloc, key)?;
        let value = ty_of(alloc, value)?;
        self.states.push(StateDecl {
            name,
            key,
            value,
            inv,
        })?;
        Ok(())
    }
}

impl Scope {
    // A name that is new among the declared ones.
    fn check_new(&self, at: Place, name: &Name) -> Result<(), TypeFault>
        ensures answers { Answers (Declarations.new_name at name.now self.now) (λ u. u) result }
        ensures fresh { IfOk result (λ u. is_taken name.now self.now.names ≡ false) }
    {
        if self.names.has(name) {
            Err(refused(rules::TAKEN, at))
        } else {
            Ok(())
        }
    }

    /// The number of a declaration with a new name, where so many of its kind are before it.
    pub(crate) fn next_named(
        &self,
        at: Place,
        name: &Name,
        before: usize,
        limit: usize,
    ) -> Result<u16, TypeFault>
        requires { limit ≤ 65536 }
        ensures answers { Answers (Declarations.next_named at name.now before limit self.now) (λ k. k) result }
        ensures fresh { IfOk result (λ u. is_taken name.now self.now.names ≡ false) }
    {
        self.check_new(at, name)?;
        rule(before < limit, rules::MANY, at)?;
        Ok(before as u16)
    }

    pub(crate) fn check_sort(
        &mut self,
        alloc: Global,
        draft: &mut Draft,
        at: Place,
        name: &Name,
    ) -> Result<(), TypeFault>
        ensures { Answers (decl_told (decl.Sort at name.now) self.old draft.old) (λ u. (self.new, draft.new)) result }
    {
        let number = self.next_named(at, name, draft.sorts.len(), DECLARATIONS)?;
        self.names.push(alloc, name, Entry::Sort(number))?;
        draft.sorts.push(copy_name(alloc, name)?)?;
        Ok(())
    }

    pub(crate) fn check_int(
        &mut self,
        alloc: Global,
        draft: &mut Draft,
        at: Place,
        name: &Name,
        low: &Num,
        high: &Num,
    ) -> Result<(), TypeFault>
        ensures { Answers (decl_told (decl.Int at name.now low.now high.now) self.old draft.old)
            (λ u. (self.new, draft.new)) result }
    {
        let number = self.next_named(at, name, draft.ints.len(), DECLARATIONS)?;
        rule(is_range(low, high), rules::NUMBERS, at)?;
        self.names.push(alloc, name, Entry::Int(number))?;
        let name = copy_name(alloc, name)?;
        draft.ints.push(IntDecl {
            name,
            lo: number_in(low),
            hi: number_in(high),
        })?;
        Ok(())
    }

    // A variant of an enum.
    fn check_variant(
        &mut self,
        alloc: Global,
        at: Place,
        of: u16,
        index: u16,
        name: &Name,
    ) -> Result<(), TypeFault>
        ensures { Answers (Declarations.variant_told at of index name.now self.old) (λ u. self.new) result }
    {
        self.check_new(at, name)?;
        self.names.push(alloc, name, Entry::Variant { of, index })?;
        Ok(())
    }

    fn check_variants(
        &mut self,
        alloc: Global,
        at: Place,
        of: u16,
        more: &[Name],
    ) -> Result<(), TypeFault>
        requires { length more.now ≤ 64 }
        ensures { Answers (Declarations.variants_told at of 1 more.now self.old) (λ u. self.new) result }
    {
        for (index, name) in more.iter().enumerate() {
            self.check_variant(alloc, at, of, index as u16 + 1, name)?;
        }
        Ok(())
    }

    fn check_all_variants(
        &mut self,
        alloc: Global,
        at: Place,
        of: u16,
        first: &Name,
        more: &[Name],
    ) -> Result<(), TypeFault>
        requires { length more.now ≤ 64 }
        ensures { Answers (Declarations.variants_told at of 0 (first.now ∷ more.now) self.old) (λ u. self.new) result }
    {
        self.check_variant(alloc, at, of, 0, first)?;
        self.check_variants(alloc, at, of, more)
    }

    pub(crate) fn check_enum(
        &mut self,
        alloc: Global,
        draft: &mut Draft,
        at: Place,
        name: &Name,
        first: &Name,
        more: &[Name],
    ) -> Result<(), TypeFault>
        ensures { Answers (decl_told (decl.Enum at name.now first.now more.now) self.old draft.old)
            (λ u. (self.new, draft.new)) result }
    {
        let number = self.next_named(at, name, draft.enums.len(), DECLARATIONS + 1)?;
        rule(more.len() < usize::from(VARIANTS), rules::VARIANTS, at)?;
        self.names.push(alloc, name, Entry::Enum(number))?;
        self.check_all_variants(alloc, at, number, first, more)?;
        let name = copy_name(alloc, name)?;
        let variants = copy_names(alloc, first, more)?;
        draft.enums.push(EnumDecl { name, variants })?;
        Ok(())
    }

    // A field, behind those that are done.
    fn check_field(
        &self,
        alloc: Global,
        at: Place,
        part: &Part,
        done: &mut Params,
        fields: &mut Names,
    ) -> Result<(), TypeFault>
        ensures { Answers (Declarations.field_told at done.old part.now self.now fields.old)
            (λ u. (done.new, fields.new)) result }
    {
        if fields.has(&part.name) {
            return Err(refused(rules::TAKEN, part.at));
        }
        let len = fields.len();
        rule(len < WIDTH as usize, rules::WIDE, at)?;
        let ty = check_type(&self.names, &part.value)?;
        done.push(alloc, &part.name, ty)?;
        let index = len as u16;
        fields.push(alloc, &part.name, Entry::Field { index, ty })?;
        Ok(())
    }

    fn check_fields(
        &self,
        alloc: Global,
        at: Place,
        parts: &[Part],
        done: &mut Params,
        fields: &mut Names,
    ) -> Result<(), TypeFault>
        ensures { Answers (Declarations.fields_told at done.old parts.now self.now fields.old)
            (λ u. (done.new, fields.new)) result }
    {
        for part in parts {
            self.check_field(alloc, at, part, done, fields)?;
        }
        Ok(())
    }

    fn check_all_fields(
        &self,
        alloc: Global,
        at: Place,
        first: &Part,
        more: &[Part],
        done: &mut Params,
        fields: &mut Names,
    ) -> Result<(), TypeFault>
        ensures { Answers (Declarations.fields_told at done.old (first.now ∷ more.now) self.now fields.old)
            (λ u. (done.new, fields.new)) result }
    {
        self.check_field(alloc, at, first, done, fields)?;
        self.check_fields(alloc, at, more, done, fields)
    }

    // The record that was checked is declared.
    fn add_record(
        &mut self,
        alloc: Global,
        draft: &mut Draft,
        name: &Name,
        number: u16,
        ty: Option<Flat>,
        params: Params,
        fields: Names,
    ) -> Result<(), NoMemory>
        requires { is_taken name.now self.old.names ≡ false }
        ensures scope { OnOk result (self.new ≡ Declarations.with_record self.old name.now number ty params fields) }
        ensures draft { OnOk result (draft.new ≡ Declarations.records_with draft.old name.now params.parts) }
    {
        let Params { parts, types } = params;
        let entry = Entry::Record {
            number,
            ty,
            fields: types,
        };
        self.names.push(alloc, name, entry)?;
        self.records.push(fields)?;
        let name = copy_name(alloc, name)?;
        draft.records.push(RecDecl {
            name,
            fields: parts,
        })?;
        Ok(())
    }

    pub(crate) fn check_record(
        &mut self,
        alloc: Global,
        draft: &mut Draft,
        at: Place,
        name: &Name,
        first: &Part,
        more: &[Part],
    ) -> Result<(), TypeFault>
        ensures { Answers (decl_told (decl.Record at name.now first.now more.now) self.old draft.old)
            (λ u. (self.new, draft.new)) result }
    {
        let number = self.next_named(at, name, draft.records.len(), DECLARATIONS)?;
        let mut params = Params::new(alloc);
        let mut fields = Names::new(alloc);
        self.check_all_fields(alloc, at, first, more, &mut params, &mut fields)?;
        let ty = record_of(at, number, params.types.as_slice())?;
        self.add_record(alloc, draft, name, number, ty, params, fields)?;
        Ok(())
    }

    // An invariant of values of a type, of the state at a place.
    fn check_invariant(
        &self,
        alloc: Global,
        at: Place,
        ty: Option<Flat>,
        e: &Expr,
    ) -> Result<cm_model::Expr, TypeFault>
        ensures { Answers (Declarations.invariant_told at ty e.now self.now) (λ v. v) result }
    {
        let locals = invariant_locals(alloc, ty)?;
        let v = self.check_expr(alloc, &locals, e)?;
        let e = condition(v)?;
        rule(is_light(&e), rules::INVARIANT, at)?;
        Ok(e)
    }

    pub(crate) fn check_cell(
        &mut self,
        alloc: Global,
        draft: &mut Draft,
        at: Place,
        name: &Name,
        value: &Type,
    ) -> Result<(), TypeFault>
        ensures { Answers (decl_told (decl.Cell at name.now value.now) self.old draft.old)
            (λ u. (self.new, draft.new)) result }
    {
        let state = self.next_named(at, name, draft.states.len(), DECLARATIONS)?;
        let value = check_type(&self.names, value)?;
        self.names.push(alloc, name, Entry::Cell { state, value })?;
        draft.push_state(alloc, name, None, value, None)?;
        Ok(())
    }

    pub(crate) fn check_cell_where(
        &mut self,
        alloc: Global,
        draft: &mut Draft,
        at: Place,
        name: &Name,
        value: &Type,
        invariant: &Expr,
    ) -> Result<(), TypeFault>
        ensures { Answers (decl_told (decl.CellWhere at name.now value.now invariant.now) self.old draft.old)
            (λ u. (self.new, draft.new)) result }
    {
        let state = self.next_named(at, name, draft.states.len(), DECLARATIONS)?;
        let value = check_type(&self.names, value)?;
        self.names.push(alloc, name, Entry::Cell { state, value })?;
        let inv = self.check_invariant(alloc, at, value, invariant)?;
        draft.push_state(alloc, name, None, value, Some(inv))?;
        Ok(())
    }

    // The types of a map's keys and values.
    fn check_map_types(
        &self,
        at: Place,
        state: u16,
        key: &Type,
        value: &Type,
    ) -> Result<FoundMap, TypeFault>
        ensures { Answers (Declarations.map_types_told at state key.now value.now self.now) (λ v. v) result }
    {
        let key = check_type(&self.names, key)?;
        let value = check_type(&self.names, value)?;
        rule(is_key(key), rules::KEY, at)?;
        Ok(FoundMap { state, key, value })
    }

    pub(crate) fn check_map(
        &mut self,
        alloc: Global,
        draft: &mut Draft,
        at: Place,
        name: &Name,
        key: &Type,
        value: &Type,
    ) -> Result<(), TypeFault>
        ensures { Answers (decl_told (decl.Map at name.now key.now value.now) self.old draft.old)
            (λ u. (self.new, draft.new)) result }
    {
        let state = self.next_named(at, name, draft.states.len(), DECLARATIONS)?;
        let map = self.check_map_types(at, state, key, value)?;
        self.names.push(alloc, name, map.entry())?;
        draft.push_state(alloc, name, Some(map.key), map.value, None)?;
        Ok(())
    }

    pub(crate) fn check_map_where(
        &mut self,
        alloc: Global,
        draft: &mut Draft,
        at: Place,
        name: &Name,
        key: &Type,
        value: &Type,
        invariant: &Expr,
    ) -> Result<(), TypeFault>
        ensures { Answers (decl_told (decl.MapWhere at name.now key.now value.now invariant.now) self.old draft.old)
            (λ u. (self.new, draft.new)) result }
    {
        let state = self.next_named(at, name, draft.states.len(), DECLARATIONS)?;
        let map = self.check_map_types(at, state, key, value)?;
        self.names.push(alloc, name, map.entry())?;
        let inv = self.check_invariant(alloc, at, map.value, invariant)?;
        draft.push_state(alloc, name, Some(map.key), map.value, Some(inv))?;
        Ok(())
    }
}

impl FoundMap {
    // What the map's name stands for.
    fn entry(self) -> Entry
        ensures { result ≡ Declarations.map_entry self }
    {
        Entry::Map {
            state: self.state,
            key: self.key,
            value: self.value,
        }
    }
}

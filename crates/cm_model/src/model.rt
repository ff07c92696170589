//! Checked models.

ghost use Rattle.std.specs.Prelude.{◌≡◌, ℕ, ◌*◌, ◌+◌, ◌/◌, ◌<◌, ◌≤◌, length, slice_get, Some};
ghost use Rattle.cm_model.specs.Tables.{Tables, tables};
ghost use Rattle.cm_model.specs.WellTyped.{IsWellTyped};
ghost use Rattle.cm_model.specs.Pairs.{pairs_of};

use crate::{Call, EnumDecl, IntDecl, List, Name, Pair, RecDecl, StateDecl};

/// A checked model: tables that are well typed. Contracts see it as its tables.
#[derive(Drop)]
pub struct Model {
    sorts: List<Name>,
    ints: List<IntDecl>,
    enums: List<EnumDecl>,
    records: List<RecDecl>,
    states: List<StateDecl>,
    funs: List<Call>,
    calls: List<Call>,
}

impl std::marker::Model for Model {
    ghost use Rattle.cm_model.specs.Tables.{Tables, tables};
    ghost use Rattle.cm_model.specs.TablesCode.{tables_code};
    ghost use Rattle.cm_model.specs.WellTyped.{IsWellTyped};

    ghost Value = { Tables };

    ghost coded = { tables_code };

    ghost view = { λ m. tables m.sorts m.ints m.enums m.records m.states m.funs m.calls };

    ghost invariant = { λ m. IsWellTyped (tables m.sorts m.ints m.enums m.records m.states m.funs m.calls) };
}

impl Model {
    /// The model of these tables.
    pub fn new(
        sorts: List<Name>,
        ints: List<IntDecl>,
        enums: List<EnumDecl>,
        records: List<RecDecl>,
        states: List<StateDecl>,
        funs: List<Call>,
        calls: List<Call>,
    ) -> Model
        requires well_typed { IsWellTyped (tables sorts ints enums records states funs calls) }
        ensures tables { result ≡ tables sorts ints enums records states funs calls }
    {
        Model {
            sorts,
            ints,
            enums,
            records,
            states,
            funs,
            calls,
        }
    }

    /// Tells a proof that the tables are well typed.
    pub fn well_typed(&self)
        ensures well_typed { IsWellTyped self.now }
    {
        let _ = &self.sorts;
    }

    /// The names of the sorts.
    pub fn sorts(&self) -> &List<Name>
        ensures sorts { result.now ≡ self.now.sorts }
    {
        &self.sorts
    }

    /// The integer types.
    pub fn ints(&self) -> &List<IntDecl>
        ensures ints { result.now ≡ self.now.ints }
    {
        &self.ints
    }

    /// The enums, `bool` first.
    pub fn enums(&self) -> &List<EnumDecl>
        ensures enums { result.now ≡ self.now.enums }
    {
        &self.enums
    }

    /// The records.
    pub fn records(&self) -> &List<RecDecl>
        ensures records { result.now ≡ self.now.records }
    {
        &self.records
    }

    /// The states.
    pub fn states(&self) -> &List<StateDecl>
        ensures states { result.now ≡ self.now.states }
    {
        &self.states
    }

    /// The functions.
    pub fn funs(&self) -> &List<Call>
        ensures funs { result.now ≡ self.now.funs }
    {
        &self.funs
    }

    /// The calls.
    pub fn calls(&self) -> &List<Call>
        ensures calls { result.now ≡ self.now.calls }
    {
        &self.calls
    }

    /// The number of pairs of calls, a call with itself among them.
    pub fn pair_count(&self) -> u32
        ensures count { result ≡ length self.now.calls * (length self.now.calls + 1) / 2 }
    {
        let n = self.calls.len() as u32;
        n * (n + 1) / 2
    }

    /// The pair with this number, from 0, in the order of the first call and then of the second.
    pub fn pair_at(&self, k: u32) -> Pair
        requires below { k < length self.now.calls * (length self.now.calls + 1) / 2 }
        ensures pair { slice_get (pairs_of (length self.now.calls)) k ≡ Some (result.a, result.b) }
        ensures order { result.a ≤ result.b }
        ensures calls { result.b < length self.now.calls }
    {
        pair_at(self.calls.len() as u16, k)
    }
}

// The pair with this number of so many calls.
pub(crate) fn pair_at(calls: u16, k: u32) -> Pair
    requires few { calls ≤ 64 }
    requires below { k < calls * (calls + 1) / 2 }
    ensures pair { slice_get (pairs_of calls) k ≡ Some (result.a, result.b) }
    ensures order { result.a ≤ result.b }
    ensures calls { result.b < calls }
{
    let mut a: u16 = 0;
    let mut left = k;
    'rows: while left >= u32::from(calls - a) {
        left -= u32::from(calls - a);
        a += 1;
    }
    Pair {
        a,
        b: a + left as u16,
    }
}

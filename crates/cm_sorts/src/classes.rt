//! Classes of equal elements, and which of them differ.

ghost use Rattle.std.specs.Prelude.{◌≡◌, ◌≢◌, ◌<◌, ◌≤◌, ◌↔◌, ◌++◌, ◌∷◌, [], ℕ, true, IsTrue, IfOk, OnOk, OnErr};
ghost use Rattle.std.specs.Prelude.{length};
ghost use Rattle.std.specs.Prelude.{slice_get, slice_index};
ghost use Rattle.cm_sorts.specs.Partition.{Satisfies, IsSatisfiable, KeepsToSorts, Allows, Keeps, Implies};

use crate::pairs;
use crate::words::{self, Variable};
use cm_model::{NoMemory, SortVar};
use std::alloc::Global;
use std::marker::Model;

/// Variables of sorts, each equal to those of its class, and the classes that differ.
///
/// A sort has elements without end, so two variables can differ unless they were made equal.
#[derive(Drop)]
pub struct Classes {
    variables: Vec<Variable>,
    words: Vec<u64>,
}

impl Model for Classes {
    ghost use Rattle.cm_sorts.specs.Partition.{Partition};
    ghost use Rattle.cm_sorts.specs.inner.Words.{partition_of, labels_of, sorts_of, IsKept};

    ghost Value = { Partition };

    ghost view = { λ c. partition_of c.variables.items c.words.items };

    ghost invariant = { λ c.
        IsKept (sorts_of c.variables.items) (labels_of c.variables.items) c.words.items };
}

impl Classes {
    /// No variable. The classes keep the allocator.
    pub fn new(alloc: Global) -> Classes
        ensures empty { result.sorts ≡ [] }
        ensures satisfiable { IsSatisfiable result }
    {
        Classes {
            variables: Vec::new(alloc),
            words: Vec::new(alloc),
        }
    }

    /// A new variable, in a class of its own. Its number is the number of variables before it.
    pub fn fresh(&mut self, sort: u16) -> Result<SortVar, NoMemory>
        ensures number { IfOk result (λ x. x.0 ≡ length self.old.sorts) }
        ensures sorts { OnOk result (self.new.sorts ≡ self.old.sorts ++ sort ∷ []) }
        ensures kept { OnOk result ((v : ℕ → ℕ) → Satisfies self.new v ↔ Satisfies self.old v) }
        ensures satisfiable { OnOk result (IsSatisfiable self.new) }
    {
        let number = self.variables.len();
        if number >= 0xffff_ffff {
            return Err(NoMemory);
        }
        self.variables.push(Variable {
            sort,
            label: number as u32,
        })?;
        Ok(SortVar(number as u64))
    }

    /// Whether some valuation makes the two equal.
    pub fn may_equal(&self, x: SortVar, y: SortVar) -> bool
        requires x { x.0 < length self.now.sorts }
        requires y { y.0 < length self.now.sorts }
        requires one_sort { slice_index self.now.sorts x.0 ≡ slice_index self.now.sorts y.0 }
        ensures { IsTrue result ↔ Allows self.now (λ v. v x.0 ≡ v y.0) }
    {
        let a = words::label_at(self.variables.as_slice(), x.0);
        let b = words::label_at(self.variables.as_slice(), y.0);
        !pairs::are_marked(self.words.as_slice(), a, b)
    }

    /// Whether some valuation makes the two different.
    pub fn may_differ(&self, x: SortVar, y: SortVar) -> bool
        requires x { x.0 < length self.now.sorts }
        requires y { y.0 < length self.now.sorts }
        requires one_sort { slice_index self.now.sorts x.0 ≡ slice_index self.now.sorts y.0 }
        ensures { IsTrue result ↔ Allows self.now (λ v. v x.0 ≢ v y.0) }
    {
        let a = words::label_at(self.variables.as_slice(), x.0);
        let b = words::label_at(self.variables.as_slice(), y.0);
        a != b
    }

    /// The least variable of the class.
    pub fn pick(&self, x: SortVar) -> SortVar
        requires { x.0 < length self.now.sorts }
        ensures same { Implies self.now (λ v. v result.0 ≡ v x.0) }
        ensures least { (y : ℕ) → Implies self.now (λ v. v y ≡ v x.0) → result.0 ≤ y }
    {
        SortVar(words::label_at(self.variables.as_slice(), x.0))
    }

    /// Keeps the valuations that make the two equal.
    pub fn equal(&mut self, x: SortVar, y: SortVar)
        requires x { x.0 < length self.old.sorts }
        requires y { y.0 < length self.old.sorts }
        requires one_sort { slice_index self.old.sorts x.0 ≡ slice_index self.old.sorts y.0 }
        requires may { Allows self.old (λ v. v x.0 ≡ v y.0) }
        ensures kept { Keeps self.old self.new (λ v. v x.0 ≡ v y.0) }
        ensures sorts { self.new.sorts ≡ self.old.sorts }
        ensures spare { self.new.spare ≡ self.old.spare }
        ensures satisfiable { IsSatisfiable self.new }
    {
        let a = words::label_at(self.variables.as_slice(), x.0);
        let b = words::label_at(self.variables.as_slice(), y.0);
        if a != b {
            words::join(&mut self.variables, &mut self.words, a.min(b), a.max(b));
        }
    }

    /// Keeps the valuations that make the two different. It takes the room of a `reserve`.
    pub fn differ(&mut self, x: SortVar, y: SortVar)
        requires x { x.0 < length self.old.sorts }
        requires y { y.0 < length self.old.sorts }
        requires one_sort { slice_index self.old.sorts x.0 ≡ slice_index self.old.sorts y.0 }
        requires may { Allows self.old (λ v. v x.0 ≢ v y.0) }
        requires spare { IsTrue self.old.spare }
        ensures kept { Keeps self.old self.new (λ v. v x.0 ≢ v y.0) }
        ensures sorts { self.new.sorts ≡ self.old.sorts }
        ensures spare { self.new.spare ≡ self.old.spare }
        ensures satisfiable { IsSatisfiable self.new }
    {
        let a = words::label_at(self.variables.as_slice(), x.0);
        let b = words::label_at(self.variables.as_slice(), y.0);
        pairs::mark(&mut self.words, a, b);
    }

    /// The sort of a variable, where it is there.
    pub fn sort(&self, x: SortVar) -> Option<u16>
        ensures sort { result ≡ slice_get self.now.sorts x.0 }
    {
        words::sort_at(self.variables.as_slice(), x.0)
    }

    /// Tells a proof that some valuation satisfies the classes, and that they keep to sorts.
    pub fn has_valuation(&self)
        ensures satisfiable { IsSatisfiable self.now }
        ensures one_sort { KeepsToSorts self.now }
    {
        let _ = self.variables.len();
    }

    /// Makes room for each `differ` until the next `fresh`.
    ///
    /// # Errors
    /// `NoMemory` where memory runs out; the classes are then as they were.
    pub fn reserve(&mut self) -> Result<(), NoMemory>
        ensures room { OnOk result (self.new ≡ record self.old { spare = true }) }
        ensures unchanged { OnErr result (self.new ≡ self.old) }
        ensures sorts { self.new.sorts ≡ self.old.sorts }
    {
        words::make_room(&mut self.words, self.variables.len() as u64)
    }

    /// Equal classes: whatever may be asked of one may be asked of the other. A spare made by `reserve` is not
    /// copied.
    ///
    /// # Errors
    /// `NoMemory` where memory runs out.
    pub fn try_copy(&self, alloc: Global) -> Result<Classes, NoMemory>
        ensures equal { IfOk result (λ copy. copy ≡ record self.now { spare = copy.spare }) }
    {
        Ok(Classes {
            variables: Vec::from_slice(alloc, self.variables.as_slice())?,
            words: Vec::from_slice(alloc, self.words.as_slice())?,
        })
    }
}

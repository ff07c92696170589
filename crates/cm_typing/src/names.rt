//! Tables of names in order, each with what it stands for.

ghost use Rattle.std.specs.Prelude.{◌≡◌, [], ◌∷◌, ◌++◌, IfOk, OnOk, length, take, false, option_copied};
ghost use Rattle.cm_typing.specs.Names.{look, is_taken, in_invariant, it_name};
ghost use Rattle.cm_typing.specs.declared.names.Entry.TheVariants as entry;

use crate::Flat;
use cm_model::{List, Name, NoMemory};
use indexmap::IndexMap;
use std::alloc::Global;
use std::marker::Model;

/// What a name stands for. A type is absent where a rule took it.
#[derive(Drop)]
pub enum Entry {
    Sort(u16),
    Int(u16),
    Enum(u16),
    Variant {
        of: u16,
        index: u16,
    },
    Record {
        number: u16,
        ty: Option<Flat>,
        fields: List<Option<Flat>>,
    },
    Cell {
        state: u16,
        value: Option<Flat>,
    },
    Map {
        state: u16,
        key: Option<Flat>,
        value: Option<Flat>,
    },
    Function {
        number: u16,
        params: List<Option<Flat>>,
        reply: Option<Flat>,
    },
    /// A name that is taken and may not be used: a call's, or that of what is being declared.
    Unusable,
    /// A parameter, a local, or `it` in an invariant.
    Local {
        number: u16,
        ty: Option<Flat>,
    },
    /// A field of a record, in that record's own table.
    Field {
        index: u16,
        ty: Option<Flat>,
    },
}

/// Names in order, each once.
#[derive(Drop)]
pub struct Names {
    names: IndexMap<String, Entry>,
}

impl Model for Names {
    ghost use Rattle.std.specs.Prelude.{List, ℕ, map, string_bytes};
    ghost use Rattle.cm_typing.specs.declared.names.Entry.{Entry};

    ghost Value = { List (List ℕ × Entry) };

    ghost view = { λ n. map (λ e. (string_bytes e.0, e.1)) n.names.entries };
}

impl Names {
    pub(crate) fn new(alloc: Global) -> Names
        ensures { result ≡ [] }
    {
        Names {
            names: IndexMap::new(alloc),
        }
    }

    /// What a name stands for.
    pub(crate) fn find(&self, name: &Name) -> Option<&Entry>
        ensures { option_copied result ≡ look name.now self.now }
    {
        self.names.get(name.as_str())
    }

    /// What `it` stands for.
    pub(crate) fn find_it(&self) -> Option<&Entry>
        ensures { option_copied result ≡ look it_name self.now }
    {
        self.names.get("it")
    }

    /// Whether a name is in the table.
    pub(crate) fn has(&self, name: &Name) -> bool
        ensures { result ≡ is_taken name.now self.now }
    {
        self.names.contains_key(name.as_str())
    }

    /// Whether these are the locals of an invariant.
    pub(crate) fn has_it(&self) -> bool
        ensures { result ≡ in_invariant self.now }
    {
        self.names.contains_key("it")
    }

    /// A name that is new, at the table's end.
    pub(crate) fn push(&mut self, alloc: Global, name: &Name, entry: Entry) -> Result<(), NoMemory>
        requires { is_taken name.now self.old ≡ false }
        ensures { OnOk result (self.new ≡ self.old ++ (name.now, entry) ∷ []) }
    {
        let name = name.as_str().to_string(alloc)?;
        self.names.insert(name, entry)?;
        Ok(())
    }

    /// How many names there are.
    pub(crate) fn len(&self) -> usize
        ensures { result ≡ length self.now }
    {
        self.names.len()
    }

    /// Forgets the names from a place on.
    pub(crate) fn cut(&mut self, len: usize)
        ensures { self.new ≡ take len self.old }
    {
        self.names.truncate(len);
    }
}

/// The locals of an invariant of values of a type.
#[tactic(auto, using(crate::proofs::NameLemmas::none_taken))]
pub(crate) fn invariant_locals(alloc: Global, ty: Option<Flat>) -> Result<Names, NoMemory>
    ensures { IfOk result (λ l. l ≡ (it_name, entry.Local 0 ty) ∷ []) }
{
    let it = Name::from_str(alloc, "it")?;
    let mut locals = Names::new(alloc);
    locals.push(alloc, &it, Entry::Local { number: 0, ty })?;
    Ok(locals)
}

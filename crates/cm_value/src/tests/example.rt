//! The small model of the examples.

ghost use Rattle.std.specs.Prelude.{◌≡◌, IfOk, List, ℕ, [], ◌∷◌, codes};
ghost use Rattle.cm_value.specs.Example.{example, example_ints, example_enums, point, node};

use cm_model::{Boxed, EnumDecl, IntDecl, List, Model, Name, NoMemory, Part, RecDecl, Ty};
use std::alloc::Global;

/// The model of the example.
pub fn example_model(alloc: Global) -> Result<Model, NoMemory>
    ensures exact { IfOk result (λ model. model ≡ example) }
{
    let sorts = two(alloc, "K", "L")?;
    let ints = ints(alloc)?;
    let enums = enums(alloc)?;
    let records = records(alloc)?;
    let model = Model::new(
        sorts,
        ints,
        enums,
        records,
        List::new(alloc),
        List::new(alloc),
        List::new(alloc),
    );
    Ok(model)
}

fn two(alloc: Global, first: &str, second: &str) -> Result<List<Name>, NoMemory>
    ensures exact { IfOk result (λ names. names ≡ first.now ∷ second.now ∷ []) }
{
    let mut names = List::new(alloc);
    names.push(Name::from_str(alloc, first)?)?;
    names.push(Name::from_str(alloc, second)?)?;
    Ok(names)
}

fn ints(alloc: Global) -> Result<List<IntDecl>, NoMemory>
    ensures exact { IfOk result (λ ints. ints ≡ example_ints) }
{
    let name = Name::from_str(alloc, "count")?;
    let mut ints = List::new(alloc);
    ints.push(IntDecl { name, lo: 2, hi: 5 })?;
    Ok(ints)
}

fn enums(alloc: Global) -> Result<List<EnumDecl>, NoMemory>
    ensures exact { IfOk result (λ enums. enums ≡ example_enums) }
{
    let mut enums = List::new(alloc);
    let name = Name::from_str(alloc, "bool")?;
    let variants = two(alloc, "false", "true")?;
    enums.push(EnumDecl { name, variants })?;
    let name = Name::from_str(alloc, "colour")?;
    let mut variants = two(alloc, "red", "green")?;
    variants.push(Name::from_str(alloc, "blue")?)?;
    enums.push(EnumDecl { name, variants })?;
    Ok(enums)
}

fn part(alloc: Global, name: &str, ty: Ty) -> Result<Part, NoMemory>
    ensures exact { IfOk result (λ part. part ≡ record { name = name.now; ty = ty }) }
{
    let name = Name::from_str(alloc, name)?;
    Ok(Part { name, ty })
}

fn point(alloc: Global) -> Result<RecDecl, NoMemory>
    ensures exact { IfOk result (λ decl. decl ≡ point) }
{
    let name = Name::from_str(alloc, "point")?;
    let mut fields = List::new(alloc);
    fields.push(part(alloc, "at", Ty::Sort(0))?)?;
    fields.push(part(alloc, "size", Ty::Int(0))?)?;
    Ok(RecDecl { name, fields })
}

fn node(alloc: Global) -> Result<RecDecl, NoMemory>
    ensures exact { IfOk result (λ decl. decl ≡ node) }
{
    let name = Name::from_str(alloc, "node")?;
    let mut fields = List::new(alloc);
    fields.push(part(alloc, "place", Ty::Rec(0))?)?;
    let element = Boxed::new(alloc, Ty::Sort(0))?;
    fields.push(part(alloc, "next", Ty::Option(element))?)?;
    fields.push(part(alloc, "shade", Ty::Enum(1))?)?;
    fields.push(part(alloc, "owner", Ty::Sort(1))?)?;
    Ok(RecDecl { name, fields })
}

fn records(alloc: Global) -> Result<List<RecDecl>, NoMemory>
    ensures exact { IfOk result (λ records. records ≡ point ∷ node ∷ []) }
{
    let point = point(alloc)?;
    let node = node(alloc)?;
    let mut records = List::new(alloc);
    records.push(point)?;
    records.push(node)?;
    Ok(records)
}

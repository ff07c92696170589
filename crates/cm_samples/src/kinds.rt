//! A model of types alone.

ghost use Rattle.std.specs.Prelude.{◌≡◌, IfOk, [], ◌∷◌, pos};
ghost use Rattle.cm_model.specs.declared.ty.Ty.TheVariants as ty;
ghost use Rattle.cm_samples.specs.Parts as parts;
ghost use Rattle.cm_samples.specs.Kinds.{kinds_tables, two_sorts, three_ints, kind_enum, only_enum, desc, loc, mapping};
ghost use Rattle.cm_samples.specs.Kinds.{spot};

use crate::parts::{four, one, part, three, two};
use cm_model::{Boxed, EnumDecl, IntDecl, List, Model, Name, NoMemory, Part, RecDecl, Ty};
use std::alloc::Global;

/// `sort Ino; sort Byte; int Off 0..100000; int Few 0..3; int Five 5..5;`
/// `enum Kind { FILE, RPIPE, WPIPE } enum Only { ONLY }`
/// `record Desc { kind: Kind, ino: Ino, off: Off } record Loc { ino: Ino, off: Off }`
/// `record Mapping { file: option(Loc), w: bool, byte: Byte } record Spot { byte: Byte, at: Few }`
pub fn all_kinds(alloc: Global) -> Result<Model, NoMemory>
    ensures tables { IfOk result (λ model. model ≡ kinds_tables) }
{
    let sorts = two_sorts(alloc)?;
    let ints = three_ints(alloc)?;
    let enums = three_enums(alloc)?;
    let records = four_records(alloc)?;
    let states = List::new(alloc);
    let funs = List::new(alloc);
    let calls = List::new(alloc);
    let model = Model::new(sorts, ints, enums, records, states, funs, calls);
    Ok(model)
}

fn two_sorts(alloc: Global) -> Result<List<Name>, NoMemory>
    ensures exact { IfOk result (λ sorts. sorts ≡ two_sorts) }
{
    let ino = Name::from_str(alloc, "Ino")?;
    let byte = Name::from_str(alloc, "Byte")?;
    let sorts = two(alloc, ino, byte)?;
    Ok(sorts)
}

fn range(alloc: Global, name: &str, lo: i64, hi: i64) -> Result<IntDecl, NoMemory>
    ensures exact { IfOk result (λ d. d ≡ record { name = name.now; lo = lo; hi = hi }) }
{
    let name = Name::from_str(alloc, name)?;
    Ok(IntDecl { name, lo, hi })
}

fn three_ints(alloc: Global) -> Result<List<IntDecl>, NoMemory>
    ensures exact { IfOk result (λ ints. ints ≡ three_ints) }
{
    let off = range(alloc, "Off", 0, 100_000)?;
    let few = range(alloc, "Few", 0, 3)?;
    let five = range(alloc, "Five", 5, 5)?;
    let ints = three(alloc, off, few, five)?;
    Ok(ints)
}

fn bool_enum(alloc: Global) -> Result<EnumDecl, NoMemory>
    ensures exact { IfOk result (λ d. d ≡ parts.bool_enum) }
{
    let name = Name::from_str(alloc, "bool")?;
    let no = Name::from_str(alloc, "false")?;
    let yes = Name::from_str(alloc, "true")?;
    let variants = two(alloc, no, yes)?;
    Ok(EnumDecl { name, variants })
}

fn kind_enum(alloc: Global) -> Result<EnumDecl, NoMemory>
    ensures exact { IfOk result (λ d. d ≡ kind_enum) }
{
    let name = Name::from_str(alloc, "Kind")?;
    let file = Name::from_str(alloc, "FILE")?;
    let read = Name::from_str(alloc, "RPIPE")?;
    let write = Name::from_str(alloc, "WPIPE")?;
    let variants = three(alloc, file, read, write)?;
    Ok(EnumDecl { name, variants })
}

fn only_enum(alloc: Global) -> Result<EnumDecl, NoMemory>
    ensures exact { IfOk result (λ d. d ≡ only_enum) }
{
    let name = Name::from_str(alloc, "Only")?;
    let only = Name::from_str(alloc, "ONLY")?;
    let variants = one(alloc, only)?;
    Ok(EnumDecl { name, variants })
}

fn three_enums(alloc: Global) -> Result<List<EnumDecl>, NoMemory>
    ensures exact { IfOk result (λ enums. enums ≡ parts.bool_enum ∷ kind_enum ∷ only_enum ∷ []) }
{
    let first = bool_enum(alloc)?;
    let kind = kind_enum(alloc)?;
    let only = only_enum(alloc)?;
    let enums = three(alloc, first, kind, only)?;
    Ok(enums)
}

fn record_of(alloc: Global, name: &str, fields: List<Part>) -> Result<RecDecl, NoMemory>
    ensures exact { IfOk result (λ d. d ≡ record { name = name.now; fields = fields }) }
{
    let name = Name::from_str(alloc, name)?;
    Ok(RecDecl { name, fields })
}

fn desc(alloc: Global) -> Result<RecDecl, NoMemory>
    ensures exact { IfOk result (λ d. d ≡ desc) }
{
    let kind = part(alloc, "kind", Ty::Enum(1))?;
    let ino = part(alloc, "ino", Ty::Sort(0))?;
    let off = part(alloc, "off", Ty::Int(0))?;
    let fields = three(alloc, kind, ino, off)?;
    let desc = record_of(alloc, "Desc", fields)?;
    Ok(desc)
}

fn loc(alloc: Global) -> Result<RecDecl, NoMemory>
    ensures exact { IfOk result (λ d. d ≡ loc) }
{
    let ino = part(alloc, "ino", Ty::Sort(0))?;
    let off = part(alloc, "off", Ty::Int(0))?;
    let fields = two(alloc, ino, off)?;
    let loc = record_of(alloc, "Loc", fields)?;
    Ok(loc)
}

fn mapping(alloc: Global) -> Result<RecDecl, NoMemory>
    ensures exact { IfOk result (λ d. d ≡ mapping) }
{
    let place = Boxed::new(alloc, Ty::Rec(1))?;
    let file = part(alloc, "file", Ty::Option(place))?;
    let writable = part(alloc, "w", Ty::Enum(0))?;
    let byte = part(alloc, "byte", Ty::Sort(1))?;
    let fields = three(alloc, file, writable, byte)?;
    let mapping = record_of(alloc, "Mapping", fields)?;
    Ok(mapping)
}

fn spot(alloc: Global) -> Result<RecDecl, NoMemory>
    ensures exact { IfOk result (λ d. d ≡ spot) }
{
    let byte = part(alloc, "byte", Ty::Sort(1))?;
    let at = part(alloc, "at", Ty::Int(1))?;
    let fields = two(alloc, byte, at)?;
    let spot = record_of(alloc, "Spot", fields)?;
    Ok(spot)
}

fn four_records(alloc: Global) -> Result<List<RecDecl>, NoMemory>
    ensures exact { IfOk result (λ records. records ≡ desc ∷ loc ∷ mapping ∷ spot ∷ []) }
{
    let first = desc(alloc)?;
    let second = loc(alloc)?;
    let third = mapping(alloc)?;
    let fourth = spot(alloc)?;
    let records = four(alloc, first, second, third, fourth)?;
    Ok(records)
}

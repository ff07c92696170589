//! A context that was asked for four arguments and eight cells.

ghost use Rattle.std.specs.Prelude.{◌≡◌, []};

use cm_ctx::Ctx;
use cm_model::{Boxed, Model, NoMemory, Ty};
use cm_term::{Root, Sym, SymPath};
use std::alloc::Global;

/// The context. It has 10 elements, 7 numbers, 5 variants and 7 options.
pub fn context(alloc: Global, model: &Model) -> Result<Ctx, NoMemory> {
    let mut ctx = Ctx::new(alloc)?;
    ask_arguments(alloc, &mut ctx, model)?;
    ask_cells(alloc, &mut ctx, model)?;
    Ok(ctx)
}

// Two arguments of each call, an `Ino` and an `Off`.
fn ask_arguments(alloc: Global, ctx: &mut Ctx, model: &Model) -> Result<(), NoMemory> {
    ask(alloc, ctx, model, Root::A(0), &Ty::Sort(0))?;
    ask(alloc, ctx, model, Root::A(1), &Ty::Int(0))?;
    ask(alloc, ctx, model, Root::B(0), &Ty::Sort(0))?;
    ask(alloc, ctx, model, Root::B(1), &Ty::Int(0))?;
    Ok(())
}

fn ask_cells(alloc: Global, ctx: &mut Ctx, model: &Model) -> Result<(), NoMemory> {
    'cells: for cell in 0..8 {
        let ty = type_of(alloc, cell)?;
        ask(alloc, ctx, model, Root::Cell(cell), &ty)?;
    }
    Ok(())
}

// The type of a cell: two descriptors, two mappings, an `option(Ino)`, a `bool`, an `Off` and a `Byte`.
fn type_of(alloc: Global, cell: u8) -> Result<Ty, NoMemory> {
    match cell {
        0 | 1 => option_of(alloc, Ty::Rec(0)),
        2 | 3 => option_of(alloc, Ty::Rec(2)),
        4 => option_of(alloc, Ty::Sort(0)),
        5 => Ok(Ty::Enum(0)),
        6 => Ok(Ty::Int(0)),
        _ => Ok(Ty::Sort(1)),
    }
}

fn option_of(alloc: Global, payload: Ty) -> Result<Ty, NoMemory> {
    let payload = Boxed::new(alloc, payload)?;
    Ok(Ty::Option(payload))
}

// Asks for the symbol of a root, if it wasn't asked for.
fn ask(alloc: Global, ctx: &mut Ctx, model: &Model, root: Root, ty: &Ty) -> Result<(), NoMemory> {
    if ctx.has(root) {
        return Ok(());
    }
    let at = Sym {
        root,
        path: SymPath::new(alloc),
    };
    ctx.fresh_of(model, &at, ty)?;
    Ok(())
}

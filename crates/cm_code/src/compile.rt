//! The code of expressions, statements, functions, calls and invariants, written from its end.

ghost use Rattle.std.specs.Prelude.{◌≡◌, ◌∷◌, [], ◌++◌, ◌+◌, ◌-◌, ◌≤◌, length};
ghost use Rattle.std.specs.Prelude.{map, not, true, false, IfOk, OnOk, slice_get};
ghost use Rattle.cm_code.specs.declared.instr.Instr.TheVariants as instr;
ghost use Rattle.cm_code.specs.Compiling.{coded_of, code_of, valued_code, joined, tests, ends, sets_code};
ghost use Rattle.cm_code.specs.Compiling.{key_code, coded_key, has_key, into_code, piece_of, leave};
ghost use Rattle.cm_code.specs.Compiling.{left_code, body_code, bodies_code, invariant_code};
ghost use Rattle.cm_code.specs.inner.Writing.{set_coded, away_by, chosen_by, block_piece, second_code};

use crate::instr::{Away, Choice, Instr};
use crate::tail::Tail;
use cm_model::{Call, Expr, IntDecl, List, NoMemory, SetField, Stmt};
use std::alloc::Global;

// An expression.
#[cycle(write)]
fn write(e: &Expr, ints: &[IntDecl], tail: &mut Tail) -> Result<(), NoMemory>
    ensures { OnOk result (tail.new ≡ code_of ints.now e.now ++ tail.old) }
{
    match e {
        Expr::Num(n) => tail.put(Instr::Number(*n)),
        Expr::Tag { ty, index } => tail.put(Instr::Tag {
            ty: *ty,
            index: *index,
        }),
        Expr::Local(i) => tail.put(Instr::Local(*i)),
        Expr::Cell {
            state,
            key: Some(key),
        } => write_read(key.get(), *state, ints, tail),
        Expr::Cell { state, key: None } => tail.put(Instr::Read {
            state: *state,
            keyed: false,
        }),
        Expr::Fields { of, path } => write_fields(of.get(), path.as_slice(), ints, tail),
        Expr::With { of, sets } => write_with(sets.as_slice(), of.get(), ints, tail),
        Expr::Make { rec: _, parts } => write_make(parts.as_slice(), ints, tail),
        Expr::NoneOf(_) => tail.put(Instr::Nothing),
        Expr::SomeOf(of) => write_one(of.get(), Instr::Some, ints, tail),
        Expr::Shift { of, by } => write_one(of.get(), Instr::Shift(*by), ints, tail),
        Expr::Into { int, of } => write_one(of.get(), into(*int, ints), ints, tail),
        Expr::Compare { op, left, right } => {
            write_two(left.get(), right.get(), Instr::Compare(*op), ints, tail)
        }
        Expr::All(es) => write_all(es.as_slice(), ints, tail),
        Expr::Any(es) => write_any(es.as_slice(), ints, tail),
        Expr::Not(of) => write_one(of.get(), Instr::Not, ints, tail),
        Expr::Apply { fun, args } => write_apply(args.as_slice(), *fun, ints, tail),
    }
}

// What makes a number one of an integer type, if the type is there.
fn into(int: u16, ints: &[IntDecl]) -> Instr
    ensures { result ≡ into_code (slice_get ints.now int) }
{
    match ints.get(usize::from(int)) {
        Some(ty) => Instr::Into {
            lo: ty.lo,
            hi: ty.hi,
        },
        None => Instr::Block,
    }
}

// Whether a number of no type may come out.
fn is_bare(e: &Expr, ints: &[IntDecl]) -> bool
    ensures { result ≡ (coded_of ints.now e.now).bare }
{
    match e {
        Expr::Num(_) => true,
        Expr::Shift { of: _, by: _ } => true,
        _ => false,
    }
}

// An operand and an instruction.
#[cycle(write)]
fn write_one(e: &Expr, i: Instr, ints: &[IntDecl], tail: &mut Tail) -> Result<(), NoMemory>
    ensures { OnOk result (tail.new ≡ (code_of ints.now e.now ++ i ∷ []) ++ tail.old) }
{
    tail.put(i)?;
    write(e, ints, tail)
}

// Two operands and an instruction.
#[cycle(write)]
fn write_two(
    a: &Expr,
    b: &Expr,
    i: Instr,
    ints: &[IntDecl],
    tail: &mut Tail,
) -> Result<(), NoMemory>
    ensures { OnOk result (tail.new ≡ (code_of ints.now a.now ++ (code_of ints.now b.now ++ i ∷ [])) ++ tail.old) }
{
    tail.put(i)?;
    write(b, ints, tail)?;
    write(a, ints, tail)
}

// An operand where a value is wanted.
#[cycle(write)]
#[tactic(auto, using(crate::proofs::Writing::valued_bare, crate::proofs::Writing::valued_else))]
fn write_value(e: &Expr, ints: &[IntDecl], tail: &mut Tail) -> Result<(), NoMemory>
    ensures { OnOk result (tail.new ≡ valued_code (coded_of ints.now e.now) ++ tail.old) }
{
    if is_bare(e, ints) {
        write_one(e, Instr::Valued, ints, tail)
    } else {
        write(e, ints, tail)
    }
}

// A cell at a key.
#[cycle(write)]
fn write_read(key: &Expr, state: u16, ints: &[IntDecl], tail: &mut Tail) -> Result<(), NoMemory>
    ensures { OnOk result (tail.new
        ≡ (valued_code (coded_of ints.now key.now) ++ instr.Read state true ∷ []) ++ tail.old) }
{
    tail.put(Instr::Read { state, keyed: true })?;
    write_value(key, ints, tail)
}

// The fields of a path.
fn write_path(path: &[u16], tail: &mut Tail) -> Result<(), NoMemory>
    ensures { OnOk result (tail.new ≡ map instr.Field path.now ++ tail.old) }
{
    let mut left = path.len();
    'fields: while left > 0 {
        left -= 1;
        tail.put(Instr::Field(path[left]))?;
    }
    Ok(())
}

// A field of a field and so on.
#[cycle(write)]
fn write_fields(e: &Expr, path: &[u16], ints: &[IntDecl], tail: &mut Tail) -> Result<(), NoMemory>
    ensures { OnOk result (tail.new ≡ (valued_code (coded_of ints.now e.now) ++ map instr.Field path.now) ++ tail.old) }
{
    write_path(path, tail)?;
    write_value(e, ints, tail)
}

// The new values of fields.
#[cycle(write)]
fn write_sets(sets: &[SetField], ints: &[IntDecl], tail: &mut Tail) -> Result<(), NoMemory>
    ensures { OnOk result (tail.new ≡ sets_code (map (set_coded ints.now) sets.now) ++ tail.old) }
{
    let mut left = sets.len();
    'sets: while left > 0 {
        left -= 1;
        let set = &sets[left];
        write_one(&set.value, Instr::SetField(set.field), ints, tail)?;
    }
    Ok(())
}

// A record with some fields replaced.
#[cycle(write)]
fn write_with(
    sets: &[SetField],
    e: &Expr,
    ints: &[IntDecl],
    tail: &mut Tail,
) -> Result<(), NoMemory>
    ensures { OnOk result (tail.new
        ≡ (valued_code (coded_of ints.now e.now) ++ sets_code (map (set_coded ints.now) sets.now)) ++ tail.old) }
{
    write_sets(sets, ints, tail)?;
    write_value(e, ints, tail)
}

// Operands in order, each a value.
#[cycle(write)]
fn write_values(es: &[Expr], ints: &[IntDecl], tail: &mut Tail) -> Result<(), NoMemory>
    ensures { OnOk result (tail.new ≡ joined (map (coded_of ints.now) es.now) ++ tail.old) }
{
    let mut left = es.len();
    'operands: while left > 0 {
        left -= 1;
        write_value(&es[left], ints, tail)?;
    }
    Ok(())
}

// The same, and an instruction.
#[cycle(write)]
fn write_many(es: &[Expr], i: Instr, ints: &[IntDecl], tail: &mut Tail) -> Result<(), NoMemory>
    ensures { OnOk result (tail.new ≡ (joined (map (coded_of ints.now) es.now) ++ i ∷ []) ++ tail.old) }
{
    tail.put(i)?;
    write_values(es, ints, tail)
}

// A record with its fields in order.
#[cycle(write)]
#[tactic(auto, using(crate::proofs::Writing::same_count))]
fn write_make(es: &[Expr], ints: &[IntDecl], tail: &mut Tail) -> Result<(), NoMemory>
    ensures { OnOk result (tail.new
        ≡ (joined (map (coded_of ints.now) es.now)
        ++ instr.Make (length (map (coded_of ints.now) es.now)) ∷ []) ++ tail.old) }
{
    write_many(es, Instr::Make(es.len()), ints, tail)
}

// A function on its arguments.
#[cycle(write)]
#[tactic(auto, using(crate::proofs::Writing::same_count))]
fn write_apply(es: &[Expr], fun: u16, ints: &[IntDecl], tail: &mut Tail) -> Result<(), NoMemory>
    ensures { OnOk result (tail.new
        ≡ (joined (map (coded_of ints.now) es.now)
        ++ instr.Apply fun (length (map (coded_of ints.now) es.now)) ∷ []) ++ tail.old) }
{
    let args = es.len();
    write_many(es, Instr::Apply { fun, args }, ints, tail)
}

// One bool, and another where a test leads to.
fn write_ends(b: bool, tail: &mut Tail) -> Result<(), NoMemory>
    ensures { OnOk result (tail.new ≡ ends b (not b) ++ tail.old) }
{
    tail.put(Instr::Flag(!b))?;
    tail.put(Instr::Jump(1))?;
    tail.put(Instr::Flag(b))
}

// A distance over this much code and a little more. More than 32 bits of it is as good as no memory.
fn distance(over: usize, more: u32) -> Result<u32, NoMemory>
    ensures { IfOk result (λ n. n ≡ over + more) }
{
    match u32::try_from(over) {
        Ok(n) => match n.checked_add(more) {
            Some(n) => Ok(n),
            None => Err(NoMemory),
        },
        Err(_) => Err(NoMemory),
    }
}

impl Away {
    // The test that leads so far away.
    fn by(self, over: u32) -> Instr
        ensures { result ≡ away_by self over }
    {
        match self {
            Away::False => Instr::Unless(over),
            Away::True => Instr::When(over),
        }
    }
}

impl Choice {
    // The instruction that chooses, with the second block so far away.
    fn by(self, over: u32) -> Instr
        ensures { result ≡ chosen_by self over }
    {
        match self {
            Choice::Bool => Instr::Unless(over),
            Choice::Option => Instr::Open(over),
        }
    }
}

// Tests in order, each of which may lead to the last of two instructions behind them.
#[cycle(write)]
fn write_tests(es: &[Expr], away: Away, ints: &[IntDecl], tail: &mut Tail) -> Result<(), NoMemory>
    ensures { OnOk result (tail.new ≡ tests (away_by away) (map (coded_of ints.now) es.now) ++ tail.old) }
{
    let from = tail.len();
    let mut left = es.len();
    'tests: while left > 0 {
        left -= 1;
        let over = distance(tail.len() - from, 2)?;
        tail.put(away.by(over))?;
        write(&es[left], ints, tail)?;
    }
    Ok(())
}

// Whether all are true.
#[cycle(write)]
fn write_all(es: &[Expr], ints: &[IntDecl], tail: &mut Tail) -> Result<(), NoMemory>
    ensures { OnOk result (tail.new
        ≡ (tests instr.Unless (map (coded_of ints.now) es.now) ++ ends true false) ++ tail.old) }
{
    write_ends(true, tail)?;
    write_tests(es, Away::False, ints, tail)
}

// Whether one is true.
#[cycle(write)]
fn write_any(es: &[Expr], ints: &[IntDecl], tail: &mut Tail) -> Result<(), NoMemory>
    ensures { OnOk result (tail.new
        ≡ (tests instr.When (map (coded_of ints.now) es.now) ++ ends false true) ++ tail.old) }
{
    write_ends(false, tail)?;
    write_tests(es, Away::True, ints, tail)
}

// How many locals a block leaves.
fn lets_in(block: &[Stmt], ints: &[IntDecl]) -> usize
    ensures lets { result ≡ (block_piece ints.now block.now).lets }
    ensures few { result ≤ length block.now }
{
    let mut lets = 0;
    for s in block {
        lets += is_let(s, ints);
    }
    lets
}

// How many locals a statement leaves.
fn is_let(s: &Stmt, ints: &[IntDecl]) -> usize
    ensures lets { result ≡ (piece_of ints.now s.now).lets }
    ensures one { result ≤ 1 }
{
    match s {
        Stmt::Let(_) => 1,
        _ => 0,
    }
}

// Gives back the last locals, if there are such.
fn write_leave(n: usize, tail: &mut Tail) -> Result<(), NoMemory>
    ensures { OnOk result (tail.new ≡ leave n ++ tail.old) }
{
    if n > 0 {
        tail.put(Instr::Leave(n))
    } else {
        Ok(())
    }
}

// A key, if there is one.
fn write_key(key: &Option<Expr>, ints: &[IntDecl], tail: &mut Tail) -> Result<(), NoMemory>
    ensures { OnOk result (tail.new ≡ key_code (coded_key ints.now key.now) ++ tail.old) }
{
    match key {
        Some(key) => write_value(key, ints, tail),
        None => Ok(()),
    }
}

// The write of a cell.
fn write_set(
    state: u16,
    key: &Option<Expr>,
    e: &Expr,
    ints: &[IntDecl],
    tail: &mut Tail,
) -> Result<(), NoMemory>
    ensures { OnOk result (tail.new
        ≡ (key_code (coded_key ints.now key.now)
        ++ (code_of ints.now e.now ++ instr.Write state (has_key (coded_key ints.now key.now)) ∷ [])) ++ tail.old) }
{
    let keyed = is_keyed(key, ints);
    write_one(e, Instr::Write { state, keyed }, ints, tail)?;
    write_key(key, ints, tail)
}

// Whether there is a key.
fn is_keyed(key: &Option<Expr>, ints: &[IntDecl]) -> bool
    ensures { result ≡ has_key (coded_key ints.now key.now) }
{
    match key {
        Some(_) => true,
        None => false,
    }
}

// What is asked before one of two blocks, where the code behind the first began at `from`.
fn write_choice(
    e: &Expr,
    choice: Choice,
    from: usize,
    ints: &[IntDecl],
    tail: &mut Tail,
) -> Result<(), NoMemory>
    requires { from ≤ length tail.old }
    ensures { OnOk result (tail.new
        ≡ code_of ints.now e.now ++ chosen_by choice (length tail.old - from + 1) ∷ tail.old) }
{
    let over = distance(tail.len() - from, 1)?;
    tail.put(choice.by(over))?;
    write(e, ints, tail)
}

// A statement.
#[cycle(write_statement)]
fn write_statement(s: &Stmt, ints: &[IntDecl], tail: &mut Tail) -> Result<(), NoMemory>
    ensures { OnOk result (tail.new ≡ (piece_of ints.now s.now).code ++ tail.old) }
{
    match s {
        Stmt::Let(e) => write_one(e, Instr::Let, ints, tail),
        Stmt::Set { state, key, value } => write_set(*state, key, value, ints, tail),
        Stmt::If { cond, yes, other } => {
            write_second(other.as_slice(), ints, tail)?;
            let from = tail.len();
            write_left(yes.as_slice(), 0, ints, tail)?;
            let r = write_choice(cond, Choice::Bool, from, ints, tail)?;
            Ok(r)
        }
        Stmt::Case { of, none, some } => {
            write_second(none.as_slice(), ints, tail)?;
            let from = tail.len();
            write_left(some.as_slice(), 1, ints, tail)?;
            let r = write_choice(of, Choice::Option, from, ints, tail)?;
            Ok(r)
        }
        Stmt::Assume(e) => write_one(e, Instr::Assume, ints, tail),
        Stmt::Return(e) => write_one(e, Instr::Return, ints, tail),
    }
}

// Statements in order.
#[cycle(write_statement)]
fn write_block(block: &[Stmt], ints: &[IntDecl], tail: &mut Tail) -> Result<(), NoMemory>
    ensures { OnOk result (tail.new ≡ (block_piece ints.now block.now).code ++ tail.old) }
{
    let mut left = block.len();
    'statements: while left > 0 {
        left -= 1;
        write_statement(&block[left], ints, tail)?;
    }
    Ok(())
}

// A block that gives back its locals at its end, and so many that it found.
#[cycle(write_statement)]
fn write_left(block: &[Stmt], found: u8, ints: &[IntDecl], tail: &mut Tail) -> Result<(), NoMemory>
    ensures { OnOk result (tail.new ≡ left_code (block_piece ints.now block.now) found ++ tail.old) }
{
    let lets = lets_in(block, ints) + usize::from(found);
    write_leave(lets, tail)?;
    write_block(block, ints, tail)
}

// The second of two blocks, and the jump over it.
#[cycle(write_statement)]
fn write_second(block: &[Stmt], ints: &[IntDecl], tail: &mut Tail) -> Result<(), NoMemory>
    ensures { OnOk result (tail.new ≡ second_code ints.now block.now ++ tail.old) }
{
    let from = tail.len();
    write_left(block, 0, ints, tail)?;
    let over = distance(tail.len() - from, 0)?;
    tail.put(Instr::Jump(over))
}

/// The code of a body over these integer types.
pub fn compile_body(alloc: Global, ints: &[IntDecl], body: &[Stmt]) -> Result<List<Instr>, NoMemory>
    ensures code { IfOk result (λ code. code ≡ body_code ints.now body.now) }
{
    let mut tail = Tail::new(alloc);
    write_block(body, ints, &mut tail)?;
    let code = tail.into_code(alloc)?;
    Ok(code)
}

/// The codes of functions or calls in order.
pub fn compile_all(
    alloc: Global,
    ints: &[IntDecl],
    calls: &[Call],
) -> Result<List<List<Instr>>, NoMemory>
    ensures codes { IfOk result (λ codes. codes ≡ bodies_code ints.now calls.now) }
{
    let mut codes = List::new(alloc);
    for call in calls {
        let code = compile_body(alloc, ints, call.body.as_slice())?;
        codes.push(code)?;
    }
    Ok(codes)
}

/// The code of a cell's invariant, whose value is local 0.
pub fn compile_invariant(alloc: Global, ints: &[IntDecl], e: &Expr) -> Result<List<Instr>, NoMemory>
    ensures code { IfOk result (λ code. code ≡ invariant_code ints.now e.now) }
{
    let mut tail = Tail::new(alloc);
    tail.put(Instr::Return)?;
    tail.put(Instr::Flag(true))?;
    tail.put(Instr::Assume)?;
    write(e, ints, &mut tail)?;
    let code = tail.into_code(alloc)?;
    Ok(code)
}

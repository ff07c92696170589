//! The outline of a tree: a line a declaration, a statement of its body and an expression that is returned.

use anyhow::Result;
use cm_model::Place;
use cm_syntax::{Block, Cmp, Decl, Expr, Num, Primary, Relation, Stmt, Sum, Tree, Unary};

// A line for a node: its kind, its place, and how many parts of a kind it has where that may differ.
fn show_node(rt: &HostRuntime, indent: &str, kind: &str, at: Place) -> Result<()> {
    println!(rt; "{indent}{kind} {}:{}", at.line, at.col)?;
    Ok(())
}

pub fn show_tree(rt: &HostRuntime, tree: &Tree) -> Result<()> {
    show_node(rt, "", "tree", tree.at)?;
    show_decl(rt, &tree.first)?;
    for decl in tree.more.as_slice() {
        show_decl(rt, decl)?;
    }
    Ok(())
}

fn decl_kind(decl: &Decl) -> (&'static str, Place) {
    match decl {
        Decl::Sort { at, .. } => ("sort", *at),
        Decl::Int { at, .. } => ("int", *at),
        Decl::Enum { at, .. } => ("enum", *at),
        Decl::Record { at, .. } => ("record", *at),
        Decl::Cell { at, .. } => ("cell", *at),
        Decl::CellWhere { at, .. } => ("cell where", *at),
        Decl::Map { at, .. } => ("map", *at),
        Decl::MapWhere { at, .. } => ("map where", *at),
        Decl::Function { at, .. } => ("function", *at),
        Decl::Call { at, .. } => ("call", *at),
    }
}

fn show_decl(rt: &HostRuntime, decl: &Decl) -> Result<()> {
    let (kind, at) = decl_kind(decl);
    show_node(rt, " ", kind, at)?;
    match decl {
        Decl::Int {
            name,
            low,
            high,
            ..
        } => show_range(rt, name.as_str(), low, high),
        Decl::Enum {
            name,
            first,
            more,
            ..
        } => {
            println!(rt;
                "  {} {} and {} more",
                name.as_str(),
                first.as_str(),
                more.len()
            )?;
            Ok(())
        }
        Decl::Function { body, .. } | Decl::Call { body, .. } => show_body(rt, body),
        _ => Ok(()),
    }
}

fn sign_of(number: &Num) -> (&'static str, u32, Place) {
    match number {
        Num::Digits { at, size } => ("", *size, *at),
        Num::Negative { at, size } => ("-", *size, *at),
    }
}

fn show_range(rt: &HostRuntime, name: &str, low: &Num, high: &Num) -> Result<()> {
    show_number(rt, name, low)?;
    show_number(rt, name, high)
}

fn show_number(rt: &HostRuntime, name: &str, number: &Num) -> Result<()> {
    let (sign, size, at) = sign_of(number);
    println!(rt; "  {name} {sign}{size} {}:{}", at.line, at.col)?;
    Ok(())
}

fn show_body(rt: &HostRuntime, body: &Block) -> Result<()> {
    for stmt in body.statements.as_slice() {
        show_stmt(rt, stmt)?;
    }
    Ok(())
}

fn stmt_kind(stmt: &Stmt) -> (&'static str, Place) {
    match stmt {
        Stmt::Let { at, .. } => ("let", *at),
        Stmt::Assign { at, .. } => ("assign", *at),
        Stmt::AssignAt { at, .. } => ("assign at", *at),
        Stmt::If { at, .. } => ("if", *at),
        Stmt::IfElse { at, .. } => ("if else", *at),
        Stmt::Case { at, .. } => ("case", *at),
        Stmt::Assume { at, .. } => ("assume", *at),
        Stmt::Return { at, .. } => ("return", *at),
    }
}

fn show_stmt(rt: &HostRuntime, stmt: &Stmt) -> Result<()> {
    let (kind, at) = stmt_kind(stmt);
    show_node(rt, "  ", kind, at)?;
    if let Stmt::Return { value, .. } = stmt {
        let (kind, at) = expr_kind(value.get());
        show_node(rt, "   ", kind, at)?;
    }
    Ok(())
}

fn prim_kind(prim: &Primary) -> (&'static str, Place) {
    match prim {
        Primary::Number {
            at,
            value: Num::Digits { .. },
        } => ("number", *at),
        Primary::Number {
            at,
            value: Num::Negative { .. },
        } => ("negative", *at),
        Primary::True { at } => ("true", *at),
        Primary::False { at } => ("false", *at),
        Primary::It { at } => ("it", *at),
        Primary::Name { at, .. } => ("name", *at),
        Primary::Entry { at, .. } => ("entry", *at),
        Primary::Apply { at, args, .. } if args.len() == 0 => ("apply to none", *at),
        Primary::Apply { at, .. } => ("apply", *at),
        Primary::NoneOf { at, .. } => ("none", *at),
        Primary::SomeOf { at, .. } => ("some", *at),
        Primary::Group { at, .. } => ("group", *at),
    }
}

fn unary_kind(unary: &Unary) -> (&'static str, Place) {
    match unary {
        Unary::Bare { only, .. } if only.sets.len() == 2 => ("two sets", only.at),
        Unary::Bare { only, .. } if only.fields.len() == 2 => ("two fields", only.at),
        Unary::Bare { only, .. } => prim_kind(&only.prim),
        Unary::Not { at, .. } => ("not", *at),
    }
}

fn sum_kind(sum: &Sum) -> (&'static str, Place) {
    match sum {
        Sum::Term { only, .. } => unary_kind(only),
        Sum::Plus { at, .. } => ("plus", *at),
        Sum::Minus { at, .. } => ("minus", *at),
    }
}

fn relation_kind(relation: Relation) -> &'static str {
    match relation {
        Relation::Equal => "equal",
        Relation::NotEqual => "not equal",
        Relation::Less => "less",
        Relation::AtMost => "at most",
        Relation::Greater => "greater",
        Relation::AtLeast => "at least",
    }
}

fn cmp_kind(cmp: &Cmp) -> (&'static str, Place) {
    match cmp {
        Cmp::Side { only, .. } => sum_kind(only),
        Cmp::Compared { at, relation, .. } => (relation_kind(*relation), *at),
    }
}

fn expr_kind(expr: &Expr) -> (&'static str, Place) {
    match expr {
        Expr::Single { only, .. } => cmp_kind(only),
        Expr::All { at, more, .. } if more.len() == 1 => ("three ands", *at),
        Expr::All { at, .. } => ("and", *at),
        Expr::Any { at, .. } => ("or", *at),
    }
}

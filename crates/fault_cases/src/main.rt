//! Prints the display text of each fault, a line each.
#![tactic(auto)]

ghost use Rattle.std.specs.Prelude.{◌≤◌};

use anyhow::Result;
use cm_cells::CellsFault;
use cm_model::{NoMemory, Place};
use cm_mtrace::TraceFault;
use cm_syntax::SyntaxFault;
use cm_typing::TypeFault;

const AT: Place = Place { line: 7, col: 31 };

// A type rule has a number up to 22.
fn show_rule(rt: &HostRuntime, code: u8) -> Result<()>
    requires rule { code ≤ 22 }
{
    println!(rt; "{}", TypeFault::Rule { code, place: AT })?;
    Ok(())
}

fn show_texts(rt: &HostRuntime) -> Result<()> {
    println!(rt; "{}", SyntaxFault::Syntax(AT))?;
    println!(rt; "{}", SyntaxFault::Deep(AT))?;
    println!(rt; "{}", SyntaxFault::Memory)?;
    show_rule(rt, 19)?;
    println!(rt; "{}", TypeFault::Memory)?;
    Ok(())
}

fn main(rt: HostRuntime) -> Result<()> {
    println!(&rt; "{}", NoMemory)?;
    println!(&rt; "{}", TraceFault::BadLine { line: 104 })?;
    println!(&rt; "{}", TraceFault::Memory)?;
    println!(&rt; "{}", CellsFault::TooMany)?;
    println!(&rt; "{}", CellsFault::Memory)?;
    show_texts(&rt)
}

//! The order of symbols.

ghost use Rattle.std.specs.Prelude.{◌≡◌};
ghost use Rattle.cm_cond.specs.Form.{root_before, same_root, path_before, is_before, step_number};

use cm_term::{Root, Step, Sym};

// Arguments of a come first, then those of b, then cells.
fn root_before(x: Root, y: Root) -> bool
    ensures { result ≡ root_before x y }
{
    match (x, y) {
        (Root::A(i), Root::A(j)) => i < j,
        (Root::A(_), _) => true,
        (Root::B(_), Root::A(_)) => false,
        (Root::B(i), Root::B(j)) => i < j,
        (Root::B(_), Root::Cell(_)) => true,
        (Root::Cell(i), Root::Cell(j)) => i < j,
        (Root::Cell(_), _) => false,
    }
}

fn same_root(x: Root, y: Root) -> bool
    ensures { result ≡ same_root x y }
{
    match (x, y) {
        (Root::A(i), Root::A(j)) => i == j,
        (Root::B(i), Root::B(j)) => i == j,
        (Root::Cell(i), Root::Cell(j)) => i == j,
        _ => false,
    }
}

// A value has fields or a payload.
fn step_number(step: Step) -> u16
    ensures { result ≡ step_number step }
{
    match step {
        Step::Field(field) => field,
        Step::Payload => 0,
    }
}

// By the first steps that differ; a part comes behind the whole.
#[tactic(auto, using(crate::proofs::Paths::at_step, crate::proofs::Paths::past_step))]
fn path_before(x: &[Step], y: &[Step]) -> bool
    ensures { result ≡ path_before x.now y.now }
{
    'steps: for (i, step) in x.iter().enumerate() {
        let Some(other) = y.get(i) else {
            return false;
        };
        let left = step_number(*step);
        let right = step_number(*other);
        if left != right {
            return left < right;
        }
    }
    x.len() < y.len()
}

/// Whether a symbol comes before another one in a report.
pub fn is_before(x: &Sym, y: &Sym) -> bool
    ensures { result ≡ is_before x.now y.now }
{
    root_before(x.root, y.root)
        || (same_root(x.root, y.root) && path_before(x.path.as_slice(), y.path.as_slice()))
}

//! Worked examples.

use super::*;
use cm_model::SortVar;
use std::test::Fail;

#[test]
fn equal_to_one_that_differs(rt: HostRuntime) -> Result<(), Fail> {
    let mut classes = Classes::new(rt.alloc());
    let x = classes.fresh(5)?;
    let y = classes.fresh(5)?;
    let z = classes.fresh(5)?;
    classes.has_valuation();
    classes.reserve()?;
    assert!(rt; classes.may_equal(x, y));
    assert!(rt; classes.may_differ(x, y));
    classes.differ(x, y);
    assert!(rt; !classes.may_equal(x, y));
    assert!(rt; classes.may_equal(y, z));
    classes.equal(y, z);
    assert!(rt; !classes.may_equal(x, z));
    assert!(rt; classes.may_differ(x, z));
    assert!(rt; !classes.may_differ(y, z));
    assert_eq!(rt; classes.pick(z), y);
    let copy = classes.try_copy(rt.alloc())?;
    assert!(rt; !copy.may_equal(x, z));
    assert_eq!(rt; copy.pick(z), y);
    Ok(())
}

#[test]
fn seventy_thousand_variables(rt: HostRuntime) -> Result<(), Fail> {
    let mut classes = Classes::new(rt.alloc());
    'fresh: for _ in 0..70_000 {
        classes.fresh(0)?;
    }
    let x = classes.fresh(3)?;
    let y = classes.fresh(3)?;
    assert_eq!(rt; x, SortVar(70_000));
    assert_eq!(rt; y, SortVar(70_001));
    assert_eq!(rt; classes.sort(y), Some(3));
    assert_eq!(rt; classes.sort(SortVar(70_002)), None);
    assert!(rt; classes.may_equal(x, y));
    classes.equal(x, y);
    assert!(rt; !classes.may_differ(x, y));
    assert_eq!(rt; classes.pick(y), x);
    Ok(())
}

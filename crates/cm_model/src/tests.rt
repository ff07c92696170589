//! Each call with ample memory, and the numbers of pairs.

use super::*;
use std::test::Fail;

#[test]
fn a_list_keeps_its_items(rt: HostRuntime) -> Result<(), Fail> {
    let mut list = List::new(rt.alloc());
    list.push(3u8)?;
    list.push(5)?;
    assert_eq!(rt; list.as_slice(), [3, 5].as_slice());
    assert_eq!(rt; list.len(), 2);
    Ok(())
}

#[test]
fn a_name_keeps_its_text(rt: HostRuntime) -> Result<(), Fail> {
    let name = Name::from_str(rt.alloc(), "open")?;
    assert_eq!(rt; name.as_str(), "open");
    assert_eq!(rt; name.as_bytes(), b"open".as_slice());
    Ok(())
}

#[test]
fn a_model_of_no_calls_has_no_pairs(rt: HostRuntime) -> Result<(), Fail> {
    let alloc = rt.alloc();
    let mut enums = List::new(alloc);
    let mut variants = List::new(alloc);
    variants.push(Name::from_str(alloc, "false")?)?;
    variants.push(Name::from_str(alloc, "true")?)?;
    enums.push(EnumDecl {
        name: Name::from_str(alloc, "bool")?,
        variants,
    })?;
    let model = Model::new(
        List::new(alloc),
        List::new(alloc),
        enums,
        List::new(alloc),
        List::new(alloc),
        List::new(alloc),
        List::new(alloc),
    );
    assert_eq!(rt; model.pair_count(), 0);
    Ok(())
}

#[test]
fn pairs_are_numbered_by_the_first_call(rt: HostRuntime) -> Result<(), Fail> {
    for (k, a, b) in [
        (0u32, 0u16, 0u16),
        (1, 0, 1),
        (2, 0, 2),
        (3, 1, 1),
        (4, 1, 2),
        (5, 2, 2),
    ] {
        assert!(rt; k < 6);
        assert_eq!(rt; model::pair_at(3, k), Pair { a, b });
    }
    assert_eq!(rt; model::pair_at(64, 63), Pair { a: 0, b: 63 });
    assert_eq!(rt; model::pair_at(64, 64), Pair { a: 1, b: 1 });
    assert_eq!(rt; model::pair_at(64, 2079), Pair { a: 63, b: 63 });
    Ok(())
}

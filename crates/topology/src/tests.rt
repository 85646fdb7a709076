// Entering and going into service, where no tree text leads.
use crate::{Draft, Tree};
use std::test::Fail;
use terms::Refusal;

#[test]
fn letters_and_parents_of_any_size(rt: HostRuntime) -> Result<(), Fail> {
    let mut draft = Draft::new(rt.alloc())?;
    assert_eq!(rt;
        draft.enter('Ω', 0),
        Err(Refusal::UnknownClass { point: 1 })
    );
    assert_eq!(rt;
        draft.enter('\u{152}', 0),
        Err(Refusal::UnknownClass { point: 1 })
    );
    assert_eq!(rt;
        draft.enter('P', usize::MAX),
        Err(Refusal::WrongParent { point: 1 })
    );
    assert!(rt; draft.points().is_empty());
    Ok(())
}

#[test]
fn a_refusal_leaves_the_draft(rt: HostRuntime) -> Result<(), Fail> {
    let mut draft = Draft::new(rt.alloc())?;
    for number in 1..5usize {
        assert_eq!(rt; draft.enter('R', 0), Ok(number));
    }
    assert_eq!(rt; draft.enter('R', 0), Err(Refusal::LimitPassed { point: 5 }));
    assert_eq!(rt; draft.points().len(), 4);
    assert_eq!(rt; draft.enter('M', 0), Ok(5));
    assert_eq!(rt; draft.points().len(), 5);
    Ok(())
}

#[test]
fn a_refusal_leaves_the_tree(rt: HostRuntime) -> Result<(), Fail> {
    let mut tree = Tree::built_in(rt.alloc())?;
    let mut draft = Draft::new(rt.alloc())?;
    assert!(rt; draft.put_into_service(&mut tree).is_err());
    assert_eq!(rt; draft.enter('R', 0), Ok(1));
    assert_eq!(rt; draft.enter('M', 0), Ok(2));
    assert!(rt; draft.put_into_service(&mut tree).is_err());
    assert_eq!(rt; tree.path_len(2), Some(1));
    assert_eq!(rt; tree.point_count(), 2);
    assert_eq!(rt; draft.enter('P', 2), Ok(3));
    assert!(rt; draft.put_into_service(&mut tree).is_ok());
    assert_eq!(rt; tree.path_len(3), Some(2));
    assert!(rt; tree.is_beneath(3, 2));
    Ok(())
}

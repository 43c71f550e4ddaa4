// Components of small graphs.
use crate::{components, targets};
use std::test::Fail;

#[test]
fn places_that_reach_each_other_share_a_number(rt: HostRuntime) -> Result<(), Fail> {
    let alloc = rt.alloc();
    // 0 and 1 reach each other, as 3, 4 and 5 do; 2 lies between, 6 is alone, and 3 leads to itself too
    let edges = [
        (0, 1),
        (1, 0),
        (1, 2),
        (2, 3),
        (3, 4),
        (4, 5),
        (5, 3),
        (3, 3),
    ];
    let numbers = components(alloc, 7, &edges)?;
    assert!(rt; numbers.as_slice() == [2, 2, 1, 0, 0, 0, 3].as_slice());
    Ok(())
}

#[test]
fn without_edges_each_place_is_alone(rt: HostRuntime) -> Result<(), Fail> {
    let alloc = rt.alloc();
    assert!(rt; components(alloc, 0, &[])?.is_empty());
    assert!(rt; components(alloc, 2, &[])?.as_slice() == [0, 1].as_slice());
    Ok(())
}

#[test]
fn targets_stand_at_the_places_that_edges_begin_at(rt: HostRuntime) -> Result<(), Fail> {
    let alloc = rt.alloc();
    let rows = targets(alloc, 3, &[(2, 0), (0, 7), (2, 1)])?;
    assert!(rt; rows.len() == 3);
    assert!(rt; rows[0].as_slice() == [7].as_slice());
    assert!(rt; rows[1].is_empty());
    assert!(rt; rows[2].as_slice() == [0, 1].as_slice());
    Ok(())
}

//! Lists of units.
use confluence_core::Units;

// Whether units 4 and 0 were pushed, in this order.
fn are_pushed(units: &Units) -> bool {
    units.len() == 2 && units.at(0) == 4 && units.at(1) == 0
}

#[test]
fn units_stand_in_the_order_of_their_pushes(rt: HostRuntime) {
    let mut units = Units::new(rt.alloc());
    units.push(4).expect(&rt, "memory");
    units.push(0).expect(&rt, "memory");
    let pushed = are_pushed(&units);
    assert!(&rt; pushed);
    drop(units);
}

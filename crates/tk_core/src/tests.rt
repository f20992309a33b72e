use crate::Core;
use tk_model::Order;

#[test]
fn new_core(rt: HostRuntime) {
    assert!(rt; Core::new(rt.alloc(), 7, 64, Order::Hash).is_ok());
}

#[test]
fn a_caller_that_is_not_there_does_nothing(rt: HostRuntime) {
    let mut core = Core::new(rt.alloc(), 1, 16, Order::Hash).expect(&rt, "a new core");
    assert!(rt; core.look(0));
    assert!(rt; !core.look(1));
}

#[test]
fn a_split_makes_the_next_caller(rt: HostRuntime) {
    let mut core = Core::new(rt.alloc(), 1, 16, Order::Hash).expect(&rt, "a new core");
    assert!(rt; core.split(rt.alloc(), 0).is_ok_and(|done| done));
    assert!(rt; core.look(1));
    assert!(rt; !core.look(2));
}

#[test]
fn nobody_waits_for_a_free_lock(rt: HostRuntime) {
    let mut core = Core::new(rt.alloc(), 1, 16, Order::Hash).expect(&rt, "a new core");
    assert!(rt; !core.miss(0, 3));
}

#[test]
fn no_store_is_taken_out_without_its_lock(rt: HostRuntime) {
    let mut core = Core::new(rt.alloc(), 1, 16, Order::Hash).expect(&rt, "a new core");
    assert!(rt; core.take_out(0, 0).is_ok_and(|done| !done));
}

#[test]
fn locks_are_taken_in_rising_order(rt: HostRuntime) {
    let mut core = Core::new(rt.alloc(), 1, 16, Order::Hash).expect(&rt, "a new core");
    assert!(rt; core.take(0, 3).is_ok_and(|done| done));
    assert!(rt; core.take(0, 16).is_ok_and(|done| done));
}

#[test]
fn no_lower_lock_is_taken(rt: HostRuntime) {
    let mut core = Core::new(rt.alloc(), 1, 16, Order::Hash).expect(&rt, "a new core");
    assert!(rt; core.take(0, 3).is_ok_and(|done| done));
    assert!(rt; core.take(0, 2).is_ok_and(|done| !done));
}

#[test]
fn a_lock_that_was_given_is_free(rt: HostRuntime) {
    let mut core = Core::new(rt.alloc(), 1, 16, Order::Hash).expect(&rt, "a new core");
    assert!(rt; core.take(0, 16).is_ok_and(|done| done));
    assert!(rt; core.give(0, 16).is_ok_and(|done| done));
    assert!(rt; !core.miss(0, 16));
}

#[test]
fn only_a_store_that_is_out_is_put_back(rt: HostRuntime) {
    let mut core = Core::new(rt.alloc(), 1, 16, Order::Hash).expect(&rt, "a new core");
    assert!(rt; core.put_back(0, 0, true).is_ok_and(|done| !done));
    assert!(rt; core.take(0, 16).is_ok_and(|done| done));
    assert!(rt; core.take_out(0, 0).is_ok_and(|done| done));
    assert!(rt; core.put_back(0, 0, true).is_ok_and(|done| done));
}

#[test]
fn a_caller_that_was_joined_is_gone(rt: HostRuntime) {
    let mut core = Core::new(rt.alloc(), 1, 16, Order::Hash).expect(&rt, "a new core");
    assert!(rt; core.split(rt.alloc(), 0).is_ok_and(|done| done));
    assert!(rt; core.join(0, 1).is_ok_and(|done| done));
    assert!(rt; !core.look(1));
}

// Memory that is taken, given back and refused.
use crate::desk::{doubled, sample, value_of};
use linked_list_allocator::LocalHeap;
use nesl_values::Value;
use std::alloc::{AllocError, Global};

/// Scripts of values: one with every kind of node, the result of a partition, and a text in a pair.
const COPIED: &str = "i3,-4,5 -1 cab p T '122 p bTF p s t7 p
i4 i5,6 s
cab i1,2 T p p";

// Whether a copy of the value is made in the heap, and is right.
fn is_copied(heap: &LocalHeap, value: &Value) -> Result<bool, AllocError> {
    let before = heap.used();
    let copy = value.copy_into(heap)?;
    let is_counted = heap.used() > before && copy.nodes_up_to(100) == Some(value.nodes());
    Ok(is_counted && copy.same(value) && value.same_by_list(heap, &copy)?)
}

#[test]
fn copied_into_a_heap(rt: HostRuntime) {
    let heap = LocalHeap::new(rt.alloc(), 65_536).expect(&rt, "memory");
    let before = heap.used();
    for script in COPIED.lines() {
        let value = value_of(rt.alloc(), script).expect(&rt, "memory");
        let is_right = is_copied(&heap, &value).expect(&rt, "memory");
        assert!(rt; is_right && heap.used() == before, "{script}");
    }
}

// The bytes of the heap that are in use when a value is made, when it is shared, and when only its twin is left.
fn used_by_a_shared_value(heap: &LocalHeap) -> Result<(usize, usize, usize), AllocError> {
    let value = doubled(heap, Value::Int(7), 60)?;
    let made = heap.used();
    let _twin = value.share()?;
    let shared = heap.used();
    drop(value);
    Ok((made, shared, heap.used()))
}

#[test]
fn shared_in_a_heap(rt: HostRuntime) {
    let heap = LocalHeap::new(rt.alloc(), 65_536).expect(&rt, "memory");
    let before = heap.used();
    let (made, shared, left) = used_by_a_shared_value(&heap).expect(&rt, "memory");
    assert!(rt; shared == made && left == made && heap.used() == before);
}

// Whether a heap of this many bytes takes a copy, or is as it was.
fn takes_all_or_nothing(alloc: Global, bytes: usize, value: &Value) -> Result<bool, AllocError> {
    let heap = LocalHeap::new(alloc, bytes)?;
    let before = heap.used();
    let is_right = match value.copy_into(&heap) {
        Ok(copy) => copy.same(value),
        Err(_) => true,
    };
    Ok(is_right && heap.used() == before)
}

fn is_refused(alloc: Global, bytes: usize, value: &Value) -> Result<bool, AllocError> {
    let heap = LocalHeap::new(alloc, bytes)?;
    Ok(value.copy_into(&heap).is_err())
}

#[test]
fn a_small_heap_refuses(rt: HostRuntime) {
    let value = sample(rt.alloc()).expect(&rt, "memory");
    assert!(rt; is_refused(rt.alloc(), 64, &value).expect(&rt, "memory"));
    for size in 2..64 {
        let is_right = takes_all_or_nothing(rt.alloc(), 32 * size, &value).expect(&rt, "memory");
        assert!(rt; is_right, "in {size} times 32 bytes");
    }
}

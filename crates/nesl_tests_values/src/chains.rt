// Values of a million levels, on a thread whose stack has 256 KiB.
use crate::made::session;
use nesl_reply::value_text;
use nesl_types::Ty;
use nesl_values::Value;
use std::alloc::{AllocError, Global};
use std::thread::Builder;

const DEPTH: u64 = 1_000_000;

const STACK: usize = 256 << 10;

#[derive(Clone, Copy)]
enum Link {
    One,
    First,
    Left,
    Right,
    Tagged,
    Mixed,
}

// That value one level deeper.
fn deeper(alloc: Global, link: Link, level: u64, value: Value) -> Result<Value, AllocError> {
    match link {
        Link::One => {
            let mut items = Vec::new(alloc);
            items.push(value)?;
            Value::sequence(alloc, items)
        }
        Link::First => {
            let mut items = Vec::with_capacity(alloc, 2)?;
            items.push(value)?;
            items.push(Value::Int(0))?;
            Value::sequence(alloc, items)
        }
        Link::Left => Value::pair(alloc, value, Value::Int(0)),
        Link::Right => Value::pair(alloc, Value::Int(0), value),
        Link::Tagged => Value::tagged(alloc, level, value),
        Link::Mixed => Ok(value),
    }
}

fn chain(alloc: Global, link: Link, depth: u64, leaf: i64) -> Result<Value, AllocError> {
    let mut value = Value::Int(leaf);
    for level in 0..depth {
        let link = match (link, level % 5) {
            (Link::Mixed, 0) => Link::One,
            (Link::Mixed, 1) => Link::First,
            (Link::Mixed, 2) => Link::Left,
            (Link::Mixed, 3) => Link::Right,
            (Link::Mixed, _) => Link::Tagged,
            (same, _) => same,
        };
        value = deeper(alloc, link, level, value)?;
    }
    Ok(value)
}

// Whether it is the same as its copy and as itself, and not as another.
fn is_itself(
    alloc: Global,
    value: &Value,
    copy: &Value,
    other: &Value,
) -> Result<bool, AllocError> {
    Ok(
        copy.same_by_list(alloc, value)?
            && value.same_by_list(alloc, value)?
            && !value.same_by_list(alloc, other)?,
    )
}

// Whether such a chain is made, shared, counted, copied, compared and dropped.
fn goes_through(alloc: Global, link: Link, nodes: u64) -> Result<bool, AllocError> {
    let value = chain(alloc, link, DEPTH, 0)?;
    let twin = value.share()?;
    drop(value);
    let copy = twin.copy_into(alloc)?;
    let other = chain(alloc, link, DEPTH, 1)?;
    let is_counted = twin.nodes_up_to(DEPTH).is_none()
        && twin.nodes_up_to(nodes) == Some(nodes)
        && copy.nodes() == nodes;
    Ok(is_counted && is_itself(alloc, &twin, &copy, &other)?)
}

#[test]
fn in_each_shape(rt: HostRuntime) {
    for (link, nodes) in [
        (Link::One, 1_000_001),
        (Link::First, 2_000_001),
        (Link::Left, 2_000_001),
        (Link::Right, 2_000_001),
        (Link::Tagged, 1_000_001),
        (Link::Mixed, 1_600_001),
    ] {
        let thread = Builder::new()
            .stack_size(STACK)
            .spawn(&rt, move || goes_through(rt.alloc(), link, nodes))
            .expect(&rt, "a thread");
        assert!(rt; thread.join(&rt).expect(&rt, "memory"), "{nodes} nodes");
    }
}

// Whether a chain of this many levels is the same as its copy, and not as one with another leaf.
fn is_same_as_its_copy(alloc: Global, link: Link, depth: u64) -> Result<bool, AllocError> {
    let value = chain(alloc, link, depth, 0)?;
    let copy = value.copy_into(alloc)?;
    let other = chain(alloc, link, depth, 1)?;
    Ok(copy.same(&value) && !copy.same(&other) && !other.same(&copy))
}

// Goes down to the last child of each node by a loop, so these take no stack; the others take some for each level.
#[test]
fn compared_without_memory(rt: HostRuntime) {
    for link in [Link::One, Link::Right, Link::Tagged] {
        let thread = Builder::new()
            .stack_size(STACK)
            .spawn(&rt, move || is_same_as_its_copy(rt.alloc(), link, DEPTH))
            .expect(&rt, "a thread");
        assert!(rt; thread.join(&rt).expect(&rt, "memory"));
    }
    for link in [Link::First, Link::Left, Link::Mixed] {
        assert!(rt; is_same_as_its_copy(rt.alloc(), link, 10_000).expect(&rt, "memory"));
    }
}

fn of_records(alloc: Global) -> Result<Value, AllocError> {
    let mut value = Value::Int(7);
    for _ in 0..DEPTH {
        value = Value::tagged(alloc, 9, value)?;
    }
    Ok(value)
}

// A record without a name at each level.
#[test]
fn its_text(rt: HostRuntime) {
    let value = of_records(rt.alloc()).expect(&rt, "memory");
    let context = session(rt.alloc()).expect(&rt, "memory");
    let int = Ty::int(rt.alloc()).expect(&rt, "memory");
    let text = value_text(rt.alloc(), &value, &int, &context).expect(&rt, "memory");
    assert!(rt; text.len() == 2_000_001);
}

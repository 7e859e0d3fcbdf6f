// Values with more than one owner, in threads.
use crate::desk::{doubled, sample};
use nesl_values::Value;
use std::marker::{Send, Sync};
use std::thread;

fn is_sent_and_shared<T: Send + Sync>(_: &T) {}

#[test]
fn dropped_in_a_thread_and_here(rt: HostRuntime) {
    let value = sample(rt.alloc()).expect(&rt, "memory");
    is_sent_and_shared(&value);
    let theirs = value.share().expect(&rt, "memory");
    let (left, mine) = thread::join(
        &rt,
        move || theirs.nodes() == 19,
        move || value.nodes() == 19,
    );
    assert!(rt; left && mine);
    let value = doubled(rt.alloc(), Value::Int(7), 20).expect(&rt, "memory");
    let theirs = value.share().expect(&rt, "memory");
    let their_thread = thread::Builder::new()
        .spawn(&rt, move || theirs.nodes())
        .expect(&rt, "a thread");
    drop(value);
    assert_eq!(rt; their_thread.join(&rt), (1 << 21) - 1);
}

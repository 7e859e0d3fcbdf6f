//! How large the types of a graph are.

ghost use Rattle.std.specs.Prelude.{◌≡◌, ◌+◌, ◌<◌, ◌++◌, ℕ, List, [], length, min, slice_index, false};
ghost use Rattle.std.specs.Prelude.{IsTrue, IfOk, IfSome, IfNone, OnOk, MatchOption};
ghost use Rattle.nesl_types_shared.specs.Lists.{parts_of};
ghost use Rattle.nesl_types_shared.specs.Shapes.{IsShapeBelow, largest, shape_type};
ghost use Rattle.nesl_types_shared.specs.Term.{Term, nodes as nodes_of};
ghost use Rattle.nesl_types_shared.specs.Types.{type_at};
ghost use Rattle.nesl_unify_graph.specs.Instances.{IsPart, AreBelow, base_in, parts_in, place_in};
ghost use Rattle.nesl_unify_graph.specs.Graph.{Fits, IsFlat, IsRoot, node_at, target};
ghost use Rattle.nesl_unify_graph.specs.Readings.{AreReadWithin};
ghost use Rattle.nesl_unify_graph.specs.Forms.{form_parts, IsItem, IsTableOf, IsLarger};
ghost use Rattle.nesl_unify_graph.specs.Sizes.{look_nodes, look_parts, AreLeafSizes, AreSizes, IsLeaf, IsLeafSize};
ghost use Rattle.nesl_unify_graph.specs.Sizes.{IsLook, IsMadeSize, IsRootLook, IsRootSize, IsSizeWithin};

use crate::form::{Form, Item, Settled, root_form, settle};
use crate::instances::{Instances, Source};
use crate::node::Node;
use crate::table::{node_at, target};
use nesl_types_shared::{Shape, Ty};
use std::alloc::{AllocError, Global};

/// For how many types that are still to be looked at room is taken at first.
const STACK_ROOM: usize = 32;

/// How many steps are taken over the types of a graph at most. Typing is charged nothing, so its time is bounded here:
/// what takes more steps is refused as out of memory.
const MOST_STEPS: u64 = 1 << 24;

/// For how many parts of a type sizes are added up in the time of a step.
const PARTS_IN_A_STEP: u64 = 8;

/// A type of fewer parts is walked, which takes less time than to add up sizes.
const FEW_PARTS: usize = 16;

/// A type that was looked at.
enum Look {
    /// It has this many nodes.
    Known(u64),
    /// It has this form.
    Open(Form),
}

/// What is still to be looked at.
#[derive(Drop)]
struct Work {
    items: Vec<Item>,
    /// How many steps may be taken yet: one for each type, and one for every `PARTS_IN_A_STEP` parts whose sizes are
    /// added up.
    steps: u64,
}

/// Takes steps of those that are left, or refuses what takes more.
fn take_steps(left: &mut u64, steps: u64) -> Result<(), AllocError>
    ensures { OnOk result (left.new + steps ≡ left.old) }
{
    match left.checked_sub(steps) {
        Some(rest) => {
            *left = rest;
            Ok(())
        }
        None => Err(AllocError),
    }
}

/// Puts the parts of a form on the stack.
fn push_parts(stack: &mut Vec<Item>, form: Form) -> Result<(), AllocError>
    ensures { OnOk result (stack.new.items ≡ stack.old.items ++ form_parts form) }
{
    match form {
        Form::SeqOf(item) => stack.push(item)?,
        Form::Both(first, second) => {
            stack.push(first)?;
            stack.push(second)?;
        }
        _ => {}
    }
    Ok(())
}

/// Whether a form has no parts.
fn is_leaf(form: Form) -> bool
    ensures { IsTrue result → form_parts form ≡ [] }
{
    match form {
        Form::SeqOf(_) | Form::Both(_, _) => false,
        _ => true,
    }
}

/// Whether a variable of an instance has a place.
fn has_place(instances: &Instances, instance: usize, variable: u64) -> bool
    requires { instance < length instances.now.made.items }
    ensures { IsTrue result → base_in instances.now instance + variable < length instances.now.fresh.items }
{
    let base = instances.made[instance].base;
    match base.checked_add(variable as usize) {
        Some(at) => at < instances.fresh.len(),
        None => false,
    }
}

/// Whether the type of a variable of an instance has one node.
fn is_leaf_variable(instances: &Instances, nodes: &[Node], instance: usize, variable: u64) -> bool
    requires below { AreBelow (length nodes.now) instances.now }
    requires table { IsTableOf instances.now nodes.now }
    requires flat { IsFlat nodes.now }
    requires made { instance < length instances.now.made.items }
    ensures { IsTrue result → IsLeaf instances.now nodes.now
        (target nodes.now (place_in instances.now instance variable)) }
{
    if !has_place(instances, instance, variable) {
        return false;
    }
    let root = target(nodes, instances.place(instance, variable));
    is_leaf(root_form(instances, nodes, root))
}

/// One more than the sizes of a type's parts, or 0 where one of them isn't known or the sum is too large.
fn one_more(first: u64, second: u64) -> u64
    ensures { 0 < result → (0 < first) × ((0 < second) × (result ≡ 1 + first + second)) }
{
    if first == 0 || second == 0 {
        return 0;
    }
    match first.checked_add(second) {
        Some(sum) => match sum.checked_add(1) {
            Some(size) => size,
            None => 0,
        },
        None => 0,
    }
}

/// One more than the size of the only part of a type, or 0 where it isn't known or too large.
fn one_above(part: u64) -> u64
    ensures { 0 < result → (0 < part) × (result ≡ 1 + part) }
{
    if part == 0 {
        return 0;
    }
    match part.checked_add(1) {
        Some(size) => size,
        None => 0,
    }
}

/// How many nodes a type of an instance has by its shape and by the sizes of earlier ones, or 0 where that isn't known:
/// the type of one of its variables has more than one node.
fn shape_nodes(
    instances: &Instances,
    nodes: &[Node],
    sizes: &[u64],
    instance: usize,
    shape: Shape,
) -> u64
    requires below { AreBelow (length nodes.now) instances.now }
    requires table { IsTableOf instances.now nodes.now }
    requires flat { IsFlat nodes.now }
    requires made { instance < length instances.now.made.items }
    requires shape { IsShapeBelow (length sizes.now) shape }
    ensures { (f : ℕ → Term) → AreLeafSizes instances.now nodes.now instance f (length sizes.now) sizes.now
        → IsLeafSize instances.now nodes.now instance (shape_type f shape) result }
{
    match shape {
        Shape::Var(variable) => {
            if is_leaf_variable(instances, nodes, instance, variable) {
                1
            } else {
                0
            }
        }
        Shape::SeqOf(item) => one_above(sizes[item]),
        Shape::Both(first, second) => one_more(sizes[first], sizes[second]),
        _ => 1,
    }
}

/// How many nodes a part of an instance's type has, or 0 where that isn't known: the type of one of its variables has
/// more than one node.
fn part_nodes(
    instances: &Instances,
    nodes: &[Node],
    instance: usize,
    part: usize,
) -> Result<u64, AllocError>
    requires below { AreBelow (length nodes.now) instances.now }
    requires table { IsTableOf instances.now nodes.now }
    requires flat { IsFlat nodes.now }
    requires part { IsPart instances.now instance part }
    ensures { IfOk result
        (IsLeafSize instances.now nodes.now instance (type_at (parts_in instances.now instance) part)) }
{
    let parts = instances.parts(instance);
    let mut sizes = Vec::with_capacity(*instances.fresh.allocator(), part)?;
    for place in 0..parts.len() {
        let shape = parts.shape(place);
        let size = shape_nodes(instances, nodes, sizes.as_slice(), instance, shape);
        if place == part {
            return Ok(size);
        }
        sizes.push(size)?;
    }
    Ok(0)
}

/// A number of nodes that is reported as at most `u64::MAX`, or 0 where it may be more.
fn exact(told: u64) -> u64
    ensures { (n : ℕ) → told ≡ min n largest → 0 < result → result ≡ n }
{
    if told < u64::MAX { told } else { 0 }
}

/// How many nodes a part of a type has, where it is the whole type, or 0.
fn whole_nodes(ty: &Ty, part: usize) -> u64
    ensures { 0 < result → result ≡ nodes_of (type_at (parts_of ty.now) part) }
{
    let parts = ty.parts();
    if part == parts.len() - 1 {
        exact(ty.nodes())
    } else {
        0
    }
}

/// How many nodes a part of an instance's type has as it is written there, or 0 where that isn't kept.
fn written_nodes(instances: &Instances, instance: usize, part: usize) -> u64
    requires made { instance < length instances.now.made.items }
    requires within { part < length (parts_in instances.now instance) }
    ensures { 0 < result → result ≡ nodes_of (type_at (parts_in instances.now instance) part) }
{
    match &instances.made[instance].source {
        Source::Shared => exact(instances.shared.nodes(part)),
        Source::Own(ty) => whole_nodes(ty, part),
    }
}

/// How many nodes a part of an instance's type has, where the type has no variables, or 0 where that isn't known.
fn closed_nodes(instances: &Instances, instance: usize, part: usize) -> u64
    requires { IsPart instances.now instance part }
    ensures { (ns : List Node)
        → IsLeafSize instances.now ns instance (type_at (parts_in instances.now instance) part) result }
{
    if instances.has_places(instance) {
        return 0;
    }
    written_nodes(instances, instance, part)
}

/// How many nodes a part of an instance's type has, or 0 where that isn't known. Its places are gone through only where
/// the type may have variables.
fn leaf_nodes(
    instances: &Instances,
    nodes: &[Node],
    steps: &mut u64,
    instance: usize,
    part: usize,
) -> Result<u64, AllocError>
    requires below { AreBelow (length nodes.now) instances.now }
    requires table { IsTableOf instances.now nodes.now }
    requires flat { IsFlat nodes.now }
    requires part { IsPart instances.now instance part }
    ensures { IfOk result
        (IsLeafSize instances.now nodes.now instance (type_at (parts_in instances.now instance) part)) }
{
    let size = closed_nodes(instances, instance, part);
    if size > 0 {
        return Ok(size);
    }
    take_steps(steps, 1 + part as u64 / PARTS_IN_A_STEP)?;
    part_nodes(instances, nodes, instance, part)
}

/// How many nodes a part of an instance's type has, where the types of its variables have one each.
fn leafy_nodes(
    instances: &Instances,
    nodes: &[Node],
    steps: &mut u64,
    instance: usize,
    part: usize,
) -> Result<Option<u64>, AllocError>
    requires made { AreBelow (length nodes.now) instances.now }
    requires table { IsTableOf instances.now nodes.now }
    requires flat { IsFlat nodes.now }
    requires part { IsPart instances.now instance part }
    ensures { IfOk result (λ r. IfSome r (λ k. (p : ℕ) → node_at nodes.now p ≡ Node.Part instance part
        → IsRootSize instances.now nodes.now p k)) }
{
    let size = leaf_nodes(instances, nodes, steps, instance, part)?;
    if size > 0 { Ok(Some(size)) } else { Ok(None) }
}

/// The size that is known of the type at a place, or 0.
fn size_at(nodes: &[Node], sizes: &[u64], place: usize) -> u64
    ensures { result ≡ slice_index sizes.now (target nodes.now place) }
{
    match sizes.get(target(nodes, place)) {
        Some(size) => *size,
        None => 0,
    }
}

/// How many nodes the type of a node has, where it is made of types whose sizes are known, or 0.
fn made_nodes(nodes: &[Node], sizes: &[u64], node: Node) -> u64
    ensures { 0 < result → IsMadeSize nodes.now sizes.now node result }
{
    match node {
        Node::SeqOf(item) => one_above(size_at(nodes, sizes, item)),
        Node::Both(first, second) => {
            one_more(size_at(nodes, sizes, first), size_at(nodes, sizes, second))
        }
        _ => 0,
    }
}

/// How many nodes the type of a node has, where that is found by the sizes that are known.
fn known_above(nodes: &[Node], sizes: &[u64], node: Node) -> Option<u64>
    ensures { IfSome result (IsMadeSize nodes.now sizes.now node) }
{
    let size = made_nodes(nodes, sizes, node);
    if size > 0 { Some(size) } else { None }
}

/// How many nodes the type at a place without a link has, where it is found at once.
fn known_nodes(
    instances: &Instances,
    nodes: &[Node],
    sizes: &[u64],
    steps: &mut u64,
    root: usize,
) -> Result<Option<u64>, AllocError>
    requires made { AreBelow (length nodes.now) instances.now }
    requires table { IsTableOf instances.now nodes.now }
    requires flat { IsFlat nodes.now }
    requires root { root < length nodes.now }
    requires len { length sizes.now ≡ length nodes.now }
    requires sizes { (most : ℕ) × AreSizes instances.now nodes.now most sizes.now }
    ensures { IfOk result (λ r. IfSome r (λ k. IsRootSize instances.now nodes.now root k)) }
{
    let size = sizes[root];
    if size > 0 {
        return Ok(Some(size));
    }
    match node_at(nodes, root) {
        Node::Part { instance, part } => {
            if part < FEW_PARTS {
                return Ok(None);
            }
            leafy_nodes(instances, nodes, steps, instance, part)
        }
        node => Ok(known_above(nodes, sizes, node)),
    }
}

/// The type at a place without a link, looked at.
fn look_at_root(
    instances: &Instances,
    nodes: &[Node],
    sizes: &[u64],
    steps: &mut u64,
    root: usize,
) -> Result<Look, AllocError>
    requires made { AreBelow (length nodes.now) instances.now }
    requires table { IsTableOf instances.now nodes.now }
    requires flat { IsFlat nodes.now }
    requires within { root < length nodes.now }
    requires root { IsRoot (node_at nodes.now root) }
    requires len { length sizes.now ≡ length nodes.now }
    requires sizes { (most : ℕ) × AreSizes instances.now nodes.now most sizes.now }
    ensures { IfOk result (IsRootLook instances.now nodes.now root) }
{
    match known_nodes(instances, nodes, sizes, steps, root)? {
        Some(size) => Ok(Look::Known(size)),
        None => Ok(Look::Open(root_form(instances, nodes, root))),
    }
}

/// A type, looked at.
fn look_at(
    instances: &Instances,
    nodes: &[Node],
    sizes: &[u64],
    steps: &mut u64,
    item: Item,
) -> Result<Look, AllocError>
    requires made { AreBelow (length nodes.now) instances.now }
    requires table { IsTableOf instances.now nodes.now }
    requires flat { IsFlat nodes.now }
    requires item { IsItem instances.now (length nodes.now) item }
    requires len { length sizes.now ≡ length nodes.now }
    requires sizes { (most : ℕ) × AreSizes instances.now nodes.now most sizes.now }
    ensures { IfOk result (IsLook instances.now nodes.now item) }
{
    take_steps(steps, 1)?;
    match settle(instances, item) {
        Settled::At(place) => {
            let root = target(nodes, place);
            look_at_root(instances, nodes, sizes, steps, root)
        }
        Settled::Made(form) => Ok(Look::Open(form)),
    }
}

/// What is left of the room after the nodes that were counted when a type was looked at, or `None` where they are more.
/// Puts its other parts on the stack.
fn count(stack: &mut Vec<Item>, look: Look, room: u64) -> Result<Option<u64>, AllocError>
    ensures parts { OnOk result (stack.new.items ≡ stack.old.items ++ look_parts look) }
    ensures room { IfOk result (λ r. MatchOption r (room < look_nodes look) (λ left. left + look_nodes look ≡ room)) }
{
    match look {
        Look::Known(size) => Ok(room.checked_sub(size)),
        Look::Open(form) => {
            push_parts(stack, form)?;
            Ok(room.checked_sub(1))
        }
    }
}

/// How many nodes the type at a place without a link has, or `None` where they are more than `most`.
fn walk(
    instances: &Instances,
    nodes: &[Node],
    sizes: &[u64],
    work: &mut Work,
    root: usize,
    most: u64,
) -> Result<Option<u64>, AllocError>
    requires made { AreBelow (length nodes.now) instances.now }
    requires table { IsTableOf instances.now nodes.now }
    requires flat { IsFlat nodes.now }
    requires within { root < length nodes.now }
    requires root { IsRoot (node_at nodes.now root) }
    requires len { length sizes.now ≡ length nodes.now }
    requires sizes { AreSizes instances.now nodes.now most sizes.now }
    requires empty { work.old.items.items ≡ [] }
    ensures some { IfOk result (λ r. IfSome r (IsSizeWithin instances.now nodes.now most root)) }
    ensures none { IfOk result (λ r. IfNone r (IsLarger instances.now nodes.now most root)) }
    ensures empty { IfOk result (λ r. IfSome r (λ k. work.new.items.items ≡ [])) }
{
    let first = look_at_root(instances, nodes, sizes, &mut work.steps, root)?;
    let mut room = match count(&mut work.items, first, most)? {
        Some(left) => left,
        None => return Ok(None),
    };
    while let Some(item) = work.items.pop() {
        let look = look_at(instances, nodes, sizes, &mut work.steps, item)?;
        room = match count(&mut work.items, look, room)? {
            Some(left) => left,
            None => return Ok(None),
        };
    }
    Ok(Some(most - room))
}

/// Whether the type at each place has at most `most` nodes. The size of a type is found once a place. `AllocError` is
/// also for types that take more than `MOST_STEPS`, which are counted as those of `Work`.
pub fn are_within(
    alloc: Global,
    instances: &Instances,
    nodes: &[Node],
    most: u64,
) -> Result<bool, AllocError>
    requires made { AreBelow (length nodes.now) instances.now }
    requires table { IsTableOf instances.now nodes.now }
    requires flat { IsFlat nodes.now }
    ensures yes { IfOk result (λ b. IsTrue b → AreReadWithin instances.now nodes.now most) }
    ensures no { IfOk result (λ b. b ≡ false → (w : ℕ → Term) → Fits instances.now w nodes.now
        → (p : ℕ) × ((p < length nodes.now) × (most < nodes_of (w p)))) }
{
    let mut sizes = vec![in alloc; 0u64; nodes.len()]?;
    let mut work = Work {
        items: Vec::with_capacity(alloc, STACK_ROOM)?,
        steps: MOST_STEPS,
    };
    let mut start = nodes.len();
    while start > 0 {
        start -= 1;
        let root = target(nodes, start);
        if sizes[root] > 0 {
            continue;
        }
        let size = match walk(instances, nodes, sizes.as_slice(), &mut work, root, most)? {
            Some(size) => size,
            None => return Ok(false),
        };
        sizes[root] = size;
    }
    Ok(true)
}

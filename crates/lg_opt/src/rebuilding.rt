// Lists of nodes some of which are dropped and some get other targets.

ghost use Rattle.std.specs.Prelude.{◌≡◌, ◌<◌, ◌≤◌, ◌+◌, ◌^◌, ◌-◌, ℕ, Some, None, true, if◌then◌else◌, cond, [], ◌∷◌, ◌++◌, length, map};
ghost use Rattle.std.specs.Prelude.{replicate, slice_get, slice_index, slice_set, OnOk, IfOk, IfSome, is_none};
ghost use Rattle.std.specs.List.{list_all};
ghost use Rattle.lg_op.specs.declared.operand.Label.{Label};
ghost use Rattle.lg_op.specs.Nodes.{InForm};
ghost use Rattle.lg_node.specs.Nodes.{IsWithin, with_node};
ghost use Rattle.lg_node.specs.ShapeLaws.{has_target};
ghost use Rattle.lg_opt.specs.Remaining.{new_number, moved_place, with_first, retargeted, rewritten, origins};
ghost use Rattle.lg_opt.specs.Rewritings.{marked, target_in, TargetsAreOfJumps, unbound};

use lg_base::{Origin, OutOfMemory};
use lg_node::{Label, Node, NodeList, Operand, Operands, Place};
use std::alloc::Global;

// Mentions the labels of another list, each of which gets its number; a word that came twice would be reported as out of memory.
fn mention_all(list: &mut NodeList, old: &NodeList) -> Result<(), OutOfMemory>
    requires { list.old ≡ record { nodes = []; words = []; places = [] } }
    ensures { OnOk result (list.new ≡ unbound old.now.words) }
{
    for index in 0..old.labels() {
        let label = list.label(old.word(Label(index)))?;
        if label.0 != index {
            return Err(OutOfMemory);
        }
    }
    Ok(())
}

/// Returns a list of no nodes with the labels of another, none of them bound. The words of a list's labels differ, so that each gets its number; one that
/// came twice would be reported as out of memory.
pub fn unbound(alloc: Global, old: &NodeList) -> Result<NodeList, OutOfMemory>
    ensures { IfOk result (λ l. l ≡ unbound old.now.words) }
{
    match NodeList::with_room(alloc, old.len()) {
        Ok(mut list) => match mention_all(&mut list, old) {
            Ok(()) => Ok(list),
            Err(error) => Err(error),
        },
        Err(error) => Err(error),
    }
}

// Operands the first of which is this label.
fn with_first(operands: Operands, label: Label) -> Operands
    ensures { result ≡ with_first operands label }
{
    let first = Operand::Label(label);
    match operands.as_slice() {
        [] => operands,
        [_] => Operands::of(&[first]),
        [_, b] => Operands::of(&[first, *b]),
        [_, b, c] => Operands::of(&[first, *b, *c]),
        [_, b, c, d] => Operands::of(&[first, *b, *c, *d]),
        _ => operands,
    }
}

// A node with another target, where one is given.
fn retargeted(node: &Node, target: Option<Label>) -> Node
    requires form { InForm node.now }
    requires jumps { (y : Label) → target ≡ Some y → has_target node.now.op ≡ true }
    ensures node { result ≡ retargeted target node.now }
    ensures form { InForm result }
{
    match target {
        None => *node,
        Some(label) => Node {
            op: node.op,
            operands: with_first(node.operands, label),
            line: node.line,
        },
    }
}

// Appends a node that stays.
fn push_kept(list: &mut NodeList, stays: bool, node: Node) -> Result<(), OutOfMemory>
    requires room { length list.old.nodes < 2 ^ 32 - 1 }
    requires form { InForm node }
    ensures { OnOk result (list.new ≡ (if stays then with_node list.old node else list.old)) }
{
    if stays {
        list.push(node)?;
    }
    Ok(())
}

// What a table has of a node.
fn target_in(targets: &[Option<Label>], index: u32) -> Option<Label>
    ensures { result ≡ target_in targets.now index }
{
    targets.get(index as usize).copied().flatten()
}

// Appends the nodes that stay, with their targets.
fn push_remaining(
    list: &mut NodeList,
    nodes: &NodeList,
    stays: &[bool],
    targets: &[Option<Label>],
) -> Result<(), OutOfMemory>
    requires empty { list.old.nodes ≡ [] }
    requires count { length stays.now ≡ length nodes.now.nodes }
    requires targets { TargetsAreOfJumps nodes.now targets.now }
    ensures { OnOk result (list.new ≡ record list.old { nodes = (rewritten nodes.now (marked stays.now) (target_in targets.now)).nodes }) }
{
    for index in 0..nodes.len() {
        let node = retargeted(&nodes.node(index), target_in(targets, index));
        push_kept(list, stays[index as usize], node)?;
    }
    Ok(())
}

// One more, where a node stays.
fn counted(number: u32, stays: bool) -> u32
    requires { number < 2 ^ 32 - 1 }
    ensures { result ≡ number + cond stays 1 0 }
{
    if stays { number + 1 } else { number }
}

/// Of each node its new number, and after them how many stay.
pub fn numbers(alloc: Global, stays: &[bool]) -> Result<Vec<u32>, OutOfMemory>
    requires { length stays.now < 2 ^ 32 }
    ensures count { IfOk result (λ table. length table.items ≡ length stays.now + 1) }
    ensures numbers { IfOk result (λ table. (k : ℕ) → k ≤ length stays.now → slice_index table.items k ≡ new_number (marked stays.now) k) }
{
    let mut table = Vec::with_capacity(alloc, stays.len() + 1)?;
    let mut number: u32 = 0;
    for index in 0..stays.len() {
        table.push(number)?;
        number = counted(number, stays[index]);
    }
    table.push(number)?;
    Ok(table)
}

// Where a label is bound after the rewriting.
fn moved(numbers: &[u32], place: Option<Place>) -> Option<Place>
    requires place { IfSome place (IsWithin (length numbers.now - 1)) }
    requires some { 0 < length numbers.now }
    ensures { result ≡ moved_place (slice_index numbers.now) place }
{
    match place {
        Some(Place::Node(index)) => Some(Place::Node(numbers[index as usize])),
        place => place,
    }
}

// Binds a label that is not bound, where a place is given.
fn bind_at(list: &mut NodeList, label: Label, place: Option<Place>)
    requires label { label.0 < length list.old.words }
    requires free { slice_get list.old.places label.0 ≡ Some None }
    requires place { IfSome place (IsWithin (length list.old.nodes)) }
    ensures { list.new ≡ record list.old { places = slice_set list.old.places label.0 place } }
{
    match place {
        Some(place) => {
            list.bind(label, place);
        }
        None => {}
    }
}

/// Binds the labels of another list at their new places.
pub fn bind_moved(list: &mut NodeList, nodes: &NodeList, numbers: &[u32])
    requires labels { list.old.places ≡ replicate (length nodes.now.words) None }
    requires words { list.old.words ≡ nodes.now.words }
    requires count { length numbers.now ≡ length nodes.now.nodes + 1 }
    requires few { (k : ℕ) → k ≤ length nodes.now.nodes → slice_index numbers.now k ≤ length list.old.nodes }
    ensures { list.new ≡ record list.old { places = map (moved_place (slice_index numbers.now)) nodes.now.places } }
{
    for index in 0..nodes.labels() {
        let place = moved(numbers, nodes.place(Label(index)));
        bind_at(list, Label(index), place);
    }
}

// Appends the nodes that stay, with their targets, to a list that has the labels, and binds these at their new places.
fn fill(
    alloc: Global,
    list: &mut NodeList,
    nodes: &NodeList,
    stays: &[bool],
    targets: &[Option<Label>],
) -> Result<(), OutOfMemory>
    requires list { list.old ≡ unbound nodes.now.words }
    requires count { length stays.now ≡ length nodes.now.nodes }
    requires targets { TargetsAreOfJumps nodes.now targets.now }
    ensures { OnOk result (list.new ≡ rewritten nodes.now (marked stays.now) (target_in targets.now)) }
{
    nodes.what_holds();
    push_remaining(list, nodes, stays, targets)?;
    let numbers = numbers(alloc, stays)?;
    bind_moved(list, nodes, &numbers);
    Ok(())
}

/// Returns the nodes that stay, with their targets and the labels in their new places, built one by one.
pub fn rebuilt(
    alloc: Global,
    nodes: &NodeList,
    stays: &[bool],
    targets: &[Option<Label>],
) -> Result<NodeList, OutOfMemory>
    requires count { length stays.now ≡ length nodes.now.nodes }
    requires targets { TargetsAreOfJumps nodes.now targets.now }
    ensures { IfOk result (λ l. l ≡ rewritten nodes.now (marked stays.now) (target_in targets.now)) }
{
    match unbound(alloc, nodes) {
        Ok(mut list) => match fill(alloc, &mut list, nodes, stays, targets) {
            Ok(()) => Ok(list),
            Err(error) => Err(error),
        },
        Err(error) => Err(error),
    }
}

/// Returns whether all nodes stay.
pub fn all_stay(stays: &[bool]) -> bool
    ensures { result ≡ list_all (λ s. s) stays.now }
{
    stays.iter().all(|stays| *stays)
}

/// Returns whether no other target is given.
pub fn none_given(targets: &[Option<Label>]) -> bool
    ensures { result ≡ list_all is_none targets.now }
{
    targets.iter().all(|target| target.is_none())
}

// Appends the number of a node that stays.
fn push_index(origin: &mut Origin, stays: bool, index: u32)
    requires { 0 < origin.old.room }
    ensures items { origin.new.items ≡ origin.old.items ++ cond stays (index ∷ []) [] }
    ensures room { origin.old.room ≤ origin.new.room + 1 }
{
    if stays {
        origin.push(index);
    }
}

/// Returns the numbers of the nodes that stay.
pub fn origin(alloc: Global, stays: &[bool]) -> Result<Origin, OutOfMemory>
    requires { length stays.now < 2 ^ 32 }
    ensures { IfOk result (λ o. o.items ≡ origins (marked stays.now) (length stays.now)) }
{
    let mut origin = Origin::with_room(alloc, stays.len() as u32)?;
    for index in 0..stays.len() as u32 {
        push_index(&mut origin, stays[index as usize], index);
    }
    Ok(origin)
}

// Writing a listing.

ghost use Rattle.std.specs.Prelude.{◌≡◌, ◌<◌, ◌≤◌, ◌+◌, ◌*◌, ◌^◌, ◌++◌, ℕ, List, length, map, slice_index};
ghost use Rattle.lg_io.specs.Wrote.{Wrote};
ghost use Rattle.lg_list.specs.Instructions.{instructions};
ghost use Rattle.lg_list.specs.Lines.{rendered, label_line};
ghost use Rattle.lg_list.specs.Lines.Entry.{Label, Node, Code};
ghost use Rattle.lg_base.specs.Layout.{code_base, most_code};
ghost use Rattle.lg_list.specs.Listing.{labels_at, bytes_between, node_entries, nodes_from, listing, Placed, AreAddressed};

use crate::instruction::decode;
use crate::line::Line;
use crate::lines::{first_line, write_node_line};
use lg_base::layout::CODE_BASE_WORD;
use lg_base::{CodeBytes, Places, Target};
use lg_io::{Sink, SinkFault, write_all, write_parts};
use lg_node::{LabelAddresses, NodeList};

fn write_label<O: Sink>(at: u32, word: &[u8], out: &mut O) -> Result<(), SinkFault>
    ensures { Wrote (O.taken out.old) (O.taken out.new) (O.faults out.old) (O.faults out.new) result (label_line at word.now) }
{
    let mut line = Line::new();
    line.push_hex(&at.to_be_bytes());
    write_parts(out, &[line.as_slice(), b" ", word, b":\n"])
}

// The nodes of code, where each is in it, and the addresses of its labels.
#[derive(Clone, Copy)]
struct Nodes<'a> {
    list: &'a NodeList,
    places: &'a Places,
    labels: &'a LabelAddresses,
}

// Writes the labels that are bound at a node, or after the last.
fn write_labels<O: Sink>(nodes: Nodes<'_>, index: u32, out: &mut O) -> Result<(), SinkFault>
    requires index { index ≤ length nodes.list.now.nodes }
    requires addressed { AreAddressed nodes.list.now.places nodes.places.now.items nodes.labels.now }
    requires small { slice_index nodes.places.now.items index ≤ most_code }
    ensures { Wrote (O.taken out.old) (O.taken out.new) (O.faults out.old) (O.faults out.new) result (rendered
        (code_base + slice_index nodes.entry.places.now.items index)
        (labels_at index nodes.entry.list.now.words nodes.entry.list.now.places)) }
{
    nodes.list.what_holds();
    let mut next = nodes.list.first_at(index);
    while let Some(label) = next {
        let address = nodes.labels.get(label.0) as u32;
        match write_label(address, nodes.list.word(label), out) {
            Ok(()) => next = nodes.list.next_at(label),
            Err(fault) => return Err(fault),
        }
    }
    Ok(())
}

// Writes the instructions of bytes from an address on, each in this line.
fn write_instructions<O: Sink>(
    target: Target,
    at: u32,
    bytes: &[u8],
    line: &mut Line,
    out: &mut O,
) -> Result<(), SinkFault>
    requires { at + length bytes.now < 2 ^ 32 }
    ensures { Wrote (O.taken out.old) (O.taken out.new) (O.faults out.old) (O.faults out.new) result (rendered at (map Code (instructions target bytes.now))) }
{
    let mut done = 0;
    while done < bytes.len() {
        match decode(target, &bytes[done..]) {
            None => return Ok(()),
            Some((instruction, length)) => {
                let end = done + length as usize;
                instruction.write_line(at + done as u32, &bytes[done..end], line);
                match write_all(out, line.as_slice()) {
                    Ok(()) => done = end,
                    Err(fault) => return Err(fault),
                }
            }
        }
    }
    Ok(())
}

// Returns the bytes of a node.
fn node_bytes<'a>(code: &'a CodeBytes, places: &Places, index: u32) -> &'a [u8]
    requires index { index + 1 < 2 ^ 32 }
    requires places { (nodes : ℕ) × (index < nodes) × Placed places.now.items nodes (length code.now.items) }
    ensures bytes { result.now ≡ bytes_between code.now.items places.now.items index }
    ensures short { length result.now ≤ most_code }
{
    let start = places.get(index) as usize;
    let end = places.get(index + 1) as usize;
    &code.as_slice()[start..end]
}

// Returns the address of a node, or of the end.
fn node_address(places: &Places, index: u32) -> u32
    requires places { (nodes : ℕ) × (len : ℕ) × (index ≤ nodes) × Placed places.now.items nodes len }
    ensures address { result ≡ code_base + slice_index places.now.items index }
    ensures small { slice_index places.now.items index ≤ most_code }
{
    CODE_BASE_WORD + places.get(index)
}

// Writes the lines of a node, whose bytes begin at an address, each in this line.
fn write_node<O: Sink>(
    target: Target,
    nodes: Nodes<'_>,
    index: u32,
    at: u32,
    bytes: &[u8],
    line: &mut Line,
    out: &mut O,
) -> Result<(), SinkFault>
    requires index { index < length nodes.list.now.nodes }
    requires addressed { AreAddressed nodes.list.now.places nodes.places.now.items nodes.labels.now }
    requires small { slice_index nodes.places.now.items index ≤ most_code }
    requires at { at ≡ code_base + slice_index nodes.places.now.items index }
    requires room { length bytes.now ≤ most_code }
    ensures { Wrote (O.taken out.old) (O.taken out.new) (O.faults out.old) (O.faults out.new) result
        (rendered at (node_entries target bytes.now nodes.entry.list.now index)) }
{
    let node = nodes.list.node(index);
    write_node_line(node.line, node.op, line);
    match write_labels(nodes, index, out) {
        Ok(()) => {}
        Err(fault) => return Err(fault),
    }
    match write_all(out, line.as_slice()) {
        Ok(()) => {}
        Err(fault) => return Err(fault),
    }
    write_instructions(target, at, bytes, line, out)
}

/// Writes the listing of code for a target: its bytes, the nodes that they were made of, the place of each node in the bytes, the last of which
/// is the end, and the addresses of the labels. After a fault some of the listing was written, from its first byte on.
pub fn list<O: Sink>(
    target: Target,
    code: &CodeBytes,
    nodes: &NodeList,
    places: &Places,
    labels: &LabelAddresses,
    out: &mut O,
) -> Result<(), SinkFault>
    requires placed { Placed places.now.items (length nodes.now.nodes) (length code.now.items) }
    requires addressed { AreAddressed nodes.now.places places.now.items labels.now }
    ensures { Wrote (O.taken out.old) (O.taken out.new) (O.faults out.old) (O.faults out.new) result
        (listing target code.now.items places.now.items nodes.now) }
{
    let mut line = first_line(target, code.len());
    match write_all(out, line.as_slice()) {
        Ok(()) => {}
        Err(fault) => return Err(fault),
    }
    let all = Nodes {
        list: nodes,
        places,
        labels,
    };
    for index in 0..nodes.len() {
        let at = node_address(places, index);
        let bytes = node_bytes(code, places, index);
        match write_node(target, all, index, at, bytes, &mut line, out) {
            Ok(()) => {}
            Err(fault) => return Err(fault),
        }
    }
    write_labels(all, nodes.len(), out)
}

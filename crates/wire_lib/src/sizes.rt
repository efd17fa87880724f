//! The maximum sizes of types, in bytes.
ghost use Rattle.std.specs.Prelude.{◌≡◌, ℕ, ◌<◌, length, None, Some, true, false, IfSome, IfOk, IsErr, IsTrue, ◌↔◌, MatchOption};
ghost use Rattle.postcard_tree.specs.Spelling.{varint};
ghost use Rattle.schema_table.specs.Integers.{width_of as width_in_tree};
ghost use Rattle.wire_lib.specs.Sizes.{known_size, both, so_many, sum_size, variant_size, counted_size, node_size, node_bounded, AreSizesOf, AreListsBounded, IsPast64, AreByParts, HasSizeAt, HaveSizes, unknown_among};

use postcard_tree::varint::varint_u64;
use schemas::{IntegerType, Node};
use std::alloc::{AllocError, Global};

/// How many bytes a number has as a varint.
fn varint_size(number: u64) -> u64
    ensures { result ≡ length (varint number) }
{
    let mut groups = [0u8; 10];
    varint_u64(number, &mut groups).len() as u64
}

/// The size at that index, if it is known.
fn size_at(sizes: &[Option<u64>], place: usize) -> Option<u64>
    ensures { result ≡ known_size sizes.now place }
{
    match sizes.get(place) {
        Some(size) => *size,
        None => None,
    }
}

/// The sum of the maximum sizes of fields.
fn sum(sizes: &[Option<u64>], fields: &[usize]) -> Option<u64>
    ensures some { IfSome result (λ n. sum_size sizes.now fields.now ≡ Some n) }
    ensures none { result ≡ None → IsPast64 (sum_size sizes.now fields.now) }
{
    let mut total: u64 = 0;
    for field in fields {
        total = total.checked_add(size_at(sizes, *field)?)?;
    }
    Some(total)
}

/// The maximum size of the variants, each with its index.
fn greatest(sizes: &[Option<u64>], payloads: &[usize]) -> Option<u64>
    ensures some { IfSome result (λ n. variant_size sizes.now 0 payloads.now ≡ Some n) }
    ensures none { result ≡ None → IsPast64 (variant_size sizes.now 0 payloads.now) }
{
    let mut most: u64 = 0;
    for (index, payload) in payloads.iter().enumerate() {
        let size = varint_size(index as u64).checked_add(size_at(sizes, *payload)?)?;
        most = most.max(size);
    }
    Some(most)
}

/// How many bytes an integer of fixed width has.
fn width_of(of: IntegerType) -> u64
    ensures { result ≡ width_in_tree of }
{
    match of {
        IntegerType::U16 | IntegerType::I16 => 2,
        IntegerType::U32 | IntegerType::I32 => 4,
        IntegerType::U64 | IntegerType::I64 => 8,
        IntegerType::U128 | IntegerType::I128 => 16,
    }
}

/// The maximum size of a list of at most `most` elements: its count and its elements.
fn counted(most: u64, element: Option<u64>) -> Option<u64>
    ensures some { IfSome result (λ n. counted_size most element ≡ Some n) }
    ensures none { result ≡ None → IsPast64 (counted_size most element) }
{
    if most == 0 {
        return Some(1);
    }
    let size = element?;
    let all = size.checked_mul(most)?;
    all.checked_add(varint_size(most))
}

/// The maximum size of an option, by that of its value.
fn optional(inner: Option<u64>) -> Option<u64>
    ensures some { IfSome result (λ n. both inner (Some 1) ≡ Some n) }
    ensures none { result ≡ None → IsPast64 (both inner (Some 1)) }
{
    let size = inner?;
    size.checked_add(1)
}

/// The maximum size of so many values.
fn many(count: u64, inner: Option<u64>) -> Option<u64>
    ensures some { IfSome result (λ n. so_many count inner ≡ Some n) }
    ensures none { result ≡ None → IsPast64 (so_many count inner) }
{
    if count == 0 {
        return Some(0);
    }
    let size = inner?;
    size.checked_mul(count)
}

/// The maximum size of a node's values, by those of the types inside.
fn size_of_node(sizes: &[Option<u64>], node: &Node) -> Option<u64>
    ensures some { IfSome result (λ n. node_size sizes.now node.now ≡ Some n) }
    ensures none { result ≡ None → IsPast64 (node_size sizes.now node.now) }
{
    match node {
        Node::Bool | Node::U8 | Node::I8 => Some(1),
        Node::U16 | Node::I16 => Some(3),
        Node::U32 | Node::I32 | Node::Char => Some(5),
        Node::U64 | Node::I64 => Some(10),
        Node::U128 | Node::I128 => Some(19),
        Node::LE(of) | Node::BE(of) => Some(width_of(*of)),
        Node::TextUpTo(most) => counted(*most, Some(1)),
        Node::ListUpTo(most, inner) => counted(*most, size_at(sizes, *inner)),
        Node::Text | Node::Bytes | Node::List(_) => None,
        Node::Option(inner) => optional(size_at(sizes, *inner)),
        Node::Array(count, inner) => many(*count, size_at(sizes, *inner)),
        Node::Struct(fields) => sum(sizes, fields),
        Node::Enum(payloads) => greatest(sizes, payloads),
    }
}

/// The index of the next part of a node after `before` others, of the parts on which its size depends.
fn part_of(node: &Node, before: usize) -> Option<usize> {
    match node {
        Node::Struct(parts) | Node::Enum(parts) => match parts.get(before) {
            Some(part) => Some(*part),
            None => None,
        },
        Node::Array(0, _) | Node::ListUpTo(0, _) => None,
        Node::Option(inner) | Node::Array(_, inner) | Node::ListUpTo(_, inner) if before == 0 => {
            Some(*inner)
        }
        _ => None,
    }
}

/// A node whose parts are visited, and how many of them were.
#[derive(Clone, Copy, Drop)]
struct Begun {
    place: usize,
    parts: usize,
}

/// The sizes that are known, and which nodes were visited.
#[derive(Drop)]
struct Sizes {
    known: Vec<Option<u64>>,
    met: Vec<bool>,
}

impl Sizes {
    /// No sizes of `count` nodes.
    fn new(alloc: Global, count: usize) -> Result<Sizes, AllocError>
        ensures many { IfOk result (λ sizes. length sizes.known.items ≡ count) }
        ensures none { IfOk result (λ sizes. (place : ℕ)
            → known_size sizes.known.items place ≡ None) }
    {
        let mut known = Vec::new(alloc);
        let mut met = Vec::new(alloc);
        for _ in 0..count {
            known.push(None)?;
            met.push(false)?;
        }
        Ok(Sizes { known, met })
    }

    /// Begins a node, unless it was visited.
    fn begin(&mut self, begun: &mut Vec<Begun>, place: usize) -> Result<(), AllocError>
        ensures { self.new.known ≡ self.old.known }
    {
        if let Some(met) = self.met.get_mut(place)
            && !*met
        {
            *met = true;
            begun.push(Begun { place, parts: 0 })?;
        }
        Ok(())
    }

    /// Finds the size of a node by those of the types inside, if it isn't known, and returns whether it was found.
    fn find(&mut self, nodes: &[Node], place: usize) -> bool
        ensures many { length self.new.known.items ≡ length self.old.known.items }
        ensures right { AreByParts nodes.now self.old.known.items
            → AreByParts nodes.now self.new.known.items }
        ensures found { result ≡ true
            → unknown_among self.new.known.items < unknown_among self.old.known.items }
        ensures same { result ≡ false → self.new ≡ self.old }
        ensures none { result ≡ false → length self.old.known.items ≡ length nodes.now
            → HasSizeAt nodes.now self.old.known.items place }
    {
        let Some(node) = nodes.get(place) else {
            return false;
        };
        if size_at(&self.known, place).is_some() {
            return false;
        }
        let Some(size) = size_of_node(&self.known, node) else {
            return false;
        };
        let Some(known) = self.known.get_mut(place) else {
            return false;
        };
        *known = Some(size);
        true
    }

    /// Finds one more size, if those of the types inside give one, and returns whether it did.
    fn find_one(&mut self, nodes: &[Node]) -> bool
        ensures many { length self.new.known.items ≡ length self.old.known.items }
        ensures right { AreByParts nodes.now self.old.known.items
            → AreByParts nodes.now self.new.known.items }
        ensures found { result ≡ true
            → unknown_among self.new.known.items < unknown_among self.old.known.items }
        ensures none { result ≡ false → length self.old.known.items ≡ length nodes.now
            → HaveSizes nodes.now self.new.known.items }
    {
        for place in 0..nodes.len() {
            if self.find(nodes, place) {
                return true;
            }
        }
        false
    }

    /// Visits the next part of the node that was begun last; after all of them its size is known.
    fn step(&mut self, nodes: &[Node], begun: &mut Vec<Begun>) -> Result<bool, AllocError>
        ensures many { length self.new.known.items ≡ length self.old.known.items }
        ensures right { AreByParts nodes.now self.old.known.items
            → AreByParts nodes.now self.new.known.items }
    {
        let Some(Begun { place, parts }) = begun.pop() else {
            return Ok(false);
        };
        let Some(node) = nodes.get(place) else {
            return Ok(true);
        };
        if let Some(part) = part_of(node, parts) {
            begun.push(Begun {
                place,
                parts: parts.saturating_add(1),
            })?;
            self.begin(begun, part)?;
        } else {
            let _ = self.find(nodes, place);
        }
        Ok(true)
    }
}

/// Returns for each type of a table how many bytes a value has at most, unframed.
///
/// `None`: there is no such number, as for texts, bytes and lists without a maximum length and for recursive types, or it is 2^64 or
/// more. Each node is visited once, after the types inside; then each is looked at once more.
///
/// # Errors
/// Out of memory.
///
/// # Allocates
/// A size for each type; as much again for the types that are begun is freed.
pub fn greatest_sizes(alloc: Global, nodes: &[Node]) -> Result<Vec<Option<u64>>, AllocError>
    ensures each { IfOk result (λ sizes. length sizes.items ≡ length nodes.now) }
    ensures bounds { IfOk result (λ sizes. AreSizesOf nodes.now sizes.items) }
    ensures parts { IfOk result (λ sizes. AreByParts nodes.now sizes.items) }
    ensures found { IfOk result (λ sizes. HaveSizes nodes.now sizes.items) }
{
    let mut sizes = Sizes::new(alloc, nodes.len())?;
    let mut begun = Vec::new(alloc);
    for place in 0..nodes.len() {
        sizes.begin(&mut begun, place)?;
        for _ in 0..u64::MAX {
            if !sizes.step(nodes, &mut begun)? {
                break;
            }
        }
    }
    // it finds none, since each node came after the types inside; but this shows it
    while sizes.find_one(nodes) {}
    Ok(sizes.known)
}

/// Whether values of the type at that index have no bytes.
fn takes_none(sizes: &[Option<u64>], place: usize) -> bool
    ensures { IsTrue result ↔ known_size sizes.now place ≡ Some 0 }
{
    size_at(sizes, place) == Some(0)
}

/// The index of a list's elements, if these have no bytes.
fn empty_elements(sizes: &[Option<u64>], node: &Node) -> Option<usize>
    ensures { (most : ℕ) → MatchOption result (node_bounded sizes.now most node.now ≡ node.now)
        (λ i. node_bounded sizes.now most node.now ≡ Node.ListUpTo most i) }
{
    let Node::List(inner) = node else {
        return None;
    };
    if takes_none(sizes, *inner) {
        Some(*inner)
    } else {
        None
    }
}

/// Gives each list whose elements have no bytes a maximum length of `most`, since its bytes don't bound it: a frame of seven bytes
/// could claim 2^64 elements.
///
/// # Errors
/// Out of memory; the nodes are unchanged.
///
/// # Allocates
/// As [`greatest_sizes`], freed.
pub fn bound_lists(alloc: Global, nodes: &mut Vec<Node>, most: u64) -> Result<(), AllocError>
    ensures bounded { IfOk result (λ _. AreListsBounded most nodes.old.items nodes.new.items) }
    ensures error { IsErr result → nodes.new.items ≡ nodes.old.items }
{
    let sizes = greatest_sizes(alloc, nodes)?;
    for node in nodes.iter_mut() {
        if let Some(inner) = empty_elements(&sizes, node) {
            *node = Node::ListUpTo(most, inner);
        }
    }
    Ok(())
}

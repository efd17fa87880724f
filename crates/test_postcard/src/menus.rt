//! `example_by_hand::menu`: a tree that is sent as its nodes.
use crate::checks::{are_equal, check, check_all};
use example_by_hand::menu::{Menu, Node, Nodes, menu_of, put_nodes};
use postcard::{from_bytes, to_allocvec};
use std::alloc::{AllocError, Global};

// The bytes of the menu ((1 2) 300).
const BYTES: [u8; 10] = [5, 0, 1, 0, 2, 1, 0, 172, 2, 1];

// The menu ((1 2) 300).
fn sample(alloc: Global) -> Result<Menu, AllocError> {
    let one = Box::new(alloc, Menu::Entry(1))?;
    let two = Box::new(alloc, Menu::Entry(2))?;
    let both = Box::new(alloc, Menu::Both(one, two))?;
    Ok(Menu::Both(both, Box::new(alloc, Menu::Entry(300))?))
}

// Whether the nodes of a menu are written as these bytes.
fn is_written(alloc: Global, menu: &Menu, wanted: &[u8]) -> bool {
    let mut nodes = Nodes(Vec::new(alloc));
    if put_nodes(menu, &mut nodes.0).is_err() {
        return false;
    }
    let Ok(bytes) = to_allocvec(alloc, &nodes) else {
        return false;
    };
    are_equal(&bytes, wanted)
}

/// A menu is written as its nodes, each after those below it.
#[test]
fn menu_as_nodes_and_back(rt: HostRuntime) {
    let alloc = rt.alloc();
    let is_right = match sample(alloc) {
        Ok(menu) => is_written(alloc, &menu, &BYTES),
        Err(_) => false,
    };
    // The menu that is read is the one that was written.
    let is_back = match from_bytes::<Nodes>(alloc, &BYTES) {
        Ok(nodes) => match menu_of(alloc, &nodes) {
            Ok(Some(menu)) => is_written(alloc, &menu, &BYTES),
            _ => false,
        },
        Err(_) => false,
    };
    check(&rt, is_right && is_back);
}

// Whether these nodes are those of no menu.
fn is_no_menu(alloc: Global, nodes: &[Node]) -> bool {
    let mut message = Nodes(Vec::new(alloc));
    for node in nodes {
        if message.0.push(*node).is_err() {
            return false;
        }
    }
    matches!(menu_of(alloc, &message), Ok(None))
}

/// No nodes, one of two that are missing, and two menus side by side are no menu.
#[test]
fn nodes_of_no_menu(rt: HostRuntime) {
    let alloc = rt.alloc();
    check_all(
        &rt,
        [
            is_no_menu(alloc, &[]),
            is_no_menu(alloc, &[Node::Entry(1), Node::Both]),
            is_no_menu(alloc, &[Node::Entry(1), Node::Entry(2)]),
        ],
    );
}

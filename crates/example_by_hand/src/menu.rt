//! A menu that holds menus, and the message that it is sent as: its nodes, each after those below it.
mod wire;

use std::alloc::{AllocError, Global};

/// A menu: an entry with its number, or two menus.
#[derive(Drop)]
pub enum Menu {
    Entry(u16),
    Both(Box<Menu>, Box<Menu>),
}

/// A node: an entry, or what holds the two menus before it.
// message
#[derive(Clone, Copy, Debug, PartialEq, Eq, Drop)]
pub enum Node {
    Entry(u16),
    Both,
}

/// The nodes of a menu in order.
// message
#[derive(Drop)]
pub struct Nodes(pub Vec<Node>);

/// Appends the nodes of a menu to others: without others, they are its message.
pub fn put_nodes(menu: &Menu, nodes: &mut Vec<Node>) -> Result<(), AllocError> {
    let node = match menu {
        Menu::Entry(number) => Node::Entry(*number),
        Menu::Both(first, second) => {
            put_nodes(first, nodes)?;
            put_nodes(second, nodes)?;
            Node::Both
        }
    };
    nodes.push(node)?;
    Ok(())
}

/// Returns the menu of a message; none if the nodes are those of no menu.
pub fn menu_of(alloc: Global, message: &Nodes) -> Result<Option<Menu>, AllocError> {
    let mut built: Vec<Menu> = Vec::new(alloc);
    for node in &message.0 {
        let menu = match node {
            Node::Entry(number) => Menu::Entry(*number),
            Node::Both => {
                let (Some(second), Some(first)) = (built.pop(), built.pop()) else {
                    return Ok(None);
                };
                Menu::Both(Box::new(alloc, first)?, Box::new(alloc, second)?)
            }
        };
        built.push(menu)?;
    }
    let last = built.pop();
    Ok(if built.is_empty() { last } else { None })
}

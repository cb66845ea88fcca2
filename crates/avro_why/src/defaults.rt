//! Defaults that are not valid data of their fields.

use crate::fault::Fault;
use crate::nodes::{Node, NodeId};
use crate::walk::{FieldDefault, Members, Walk};
use serde_json::{Number, Value};
use std::alloc::{AllocError, Global};

/// How many values are compared with types at the most. What is left then is taken to fit.
const MAX_STEPS: u32 = 4_194_304;

/// A comparison of values with types.
#[derive(Drop)]
struct Fitting<'n, 'a> {
    nodes: &'n [Node<'a>],
    steps: u32,
}

impl<'a> Walk<'a> {
    /// Notes the defaults that are not valid data of their fields.
    pub(crate) fn check_defaults(&mut self) -> Result<(), AllocError> {
        let misfits = misfits(self.alloc, &self.nodes, &self.defaults)?;
        for default in &misfits {
            let fault = match self.nodes.get(default.node) {
                Some(Node::Union(_)) => Fault::NoBranchFits,
                _ => Fault::Default(self.title(default.node)),
            };
            self.note(default.place, fault)?;
        }
        Ok(())
    }
}

/// The defaults that are not valid data of their fields.
fn misfits<'a>(
    alloc: Global,
    nodes: &[Node<'a>],
    defaults: &[FieldDefault<'a>],
) -> Result<Vec<FieldDefault<'a>>, AllocError> {
    let mut fitting = Fitting { nodes, steps: 0 };
    let mut misfits = Vec::new(alloc);
    for default in defaults {
        if !fitting.fits(default.value, default.node) {
            misfits.push(*default)?;
        }
    }
    Ok(misfits)
}

impl<'n, 'a> Fitting<'n, 'a> {
    /// Whether a value is a datum of a node, as far as that is known.
    #[cycle(fitting)]
    fn fits(&mut self, value: &Value, node: NodeId) -> bool {
        let nodes = self.nodes;
        match nodes.get(node) {
            Some(Node::Union(branches)) => {
                for branch in branches {
                    if self.fits_branch(value, *branch) {
                        return true;
                    }
                }
                false
            }
            _ => self.fits_branch(value, node),
        }
    }

    /// The same for a node that is no union.
    #[cycle(fitting)]
    fn fits_branch(&mut self, value: &Value, node: NodeId) -> bool {
        if self.steps >= MAX_STEPS {
            return true;
        }
        self.steps += 1;
        let nodes = self.nodes;
        let Some(node) = nodes.get(node) else {
            return true;
        };
        match value {
            Value::Array(items) => self.fit_items(items, node),
            Value::Object(members) => self.fit_members(members, node),
            leaf => fits_leaf(leaf, node),
        }
    }

    /// Whether items are an array of a node.
    #[cycle(fitting)]
    fn fit_items(&mut self, items: &Vec<Value>, node: &'n Node<'a>) -> bool {
        let part = match node {
            Node::Unknown => return true,
            Node::Array(part) => *part,
            _ => return false,
        };
        for item in items {
            if !self.fits(item, part) {
                return false;
            }
        }
        true
    }

    /// Whether members are a map or a record of a node.
    #[cycle(fitting)]
    fn fit_members(&mut self, members: &Members, node: &'n Node<'a>) -> bool {
        let count = match node {
            Node::Unknown | Node::Record(_, None) => return true,
            Node::Map(_) => members.len(),
            Node::Record(_, Some(fields)) => fields.len(),
            _ => return false,
        };
        if members.len() != count {
            return false;
        }
        for (key, value) in members.iter() {
            let Some(part) = part_of(node, key.as_str()) else {
                return false;
            };
            if !self.fits(value, part) {
                return false;
            }
        }
        true
    }
}

/// The type of the member of a key.
fn part_of(node: &Node<'_>, key: &str) -> Option<NodeId> {
    match node {
        Node::Map(part) => Some(*part),
        Node::Record(_, Some(fields)) => fields.get(key).copied(),
        _ => None,
    }
}

/// Whether a value without parts is a datum of a node.
fn fits_leaf(value: &Value, node: &Node<'_>) -> bool {
    match (value, node) {
        (_, Node::Unknown) => true,
        (Value::Null, Node::Null) => true,
        (Value::Bool(_), Node::Boolean) => true,
        (Value::Number(number), _) => fits_number(number, node),
        (Value::String(text), _) => fits_text(text.as_str(), node),
        _ => false,
    }
}

/// Whether a number is a datum of a node. One that is not whole has a fault of its own.
fn fits_number(number: &Number, node: &Node<'_>) -> bool {
    if number.is_f64() {
        return true;
    }
    match (number.as_i64(), node) {
        (Some(value), Node::Int) => i32::try_from(value).is_ok(),
        (Some(_), Node::Long) => true,
        _ => false,
    }
}

/// Whether a text is a datum of a node.
fn fits_text(text: &str, node: &Node<'_>) -> bool {
    match node {
        Node::Str | Node::Enum(_, None) => true,
        Node::Enum(_, Some(symbols)) => symbols.contains_key(text),
        Node::Bytes => is_bytes(text),
        Node::Fixed(_, None) => is_bytes(text),
        Node::Fixed(_, Some(size)) => is_bytes(text) && text.chars().count() as u64 == *size,
        _ => false,
    }
}

/// Whether each character of a text stands for a byte.
fn is_bytes(text: &str) -> bool {
    text.chars().all(|character| u32::from(character) < 256)
}

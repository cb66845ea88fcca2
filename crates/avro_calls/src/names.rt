//! What texts mean as names and as namespaces.

use crate::escapes::halves;
use anyhow::{Result, ensure};
use avro_name::{FullName, Namespace};
use std::alloc::Global;
use std::io::Write;

/// Tells a name or a namespace.
pub(crate) fn put(alloc: Global, word: &str, text: &str, out: &mut Vec<u8>) -> Result<()> {
    if word == "namespace" {
        return put_namespace(alloc, text, out);
    }
    let (namespace, name) = halves(text);
    let enclosing = Namespace::read(alloc, namespace)?;
    put_full_name(alloc, &enclosing, name, out)
}

/// What a text means inside a namespace, or the refusal's code.
fn put_full_name(
    alloc: Global,
    enclosing: &Namespace,
    text: &str,
    out: &mut Vec<u8>,
) -> Result<()> {
    match FullName::read(alloc, text, enclosing) {
        Ok(name) => put_parts(&name, out),
        Err(error) => Ok(writeln!(out, "{error}")?),
    }
}

/// The parts of a name, which are those of its copy.
fn put_parts(name: &FullName, out: &mut Vec<u8>) -> Result<()> {
    let copy = name.clone()?;
    ensure!(copy == *name, "the copy is another name");
    Ok(writeln!(out, "{} {}", name.namespace(), copy.simple())?)
}

/// The namespace of a text, or the refusal's code.
fn put_namespace(alloc: Global, text: &str, out: &mut Vec<u8>) -> Result<()> {
    match Namespace::read(alloc, text) {
        Ok(namespace) => put_copied(&namespace, out),
        Err(error) => Ok(writeln!(out, "{error}")?),
    }
}

/// The text of a namespace, which is that of its copy.
fn put_copied(namespace: &Namespace, out: &mut Vec<u8>) -> Result<()> {
    let copy = namespace.clone()?;
    ensure!(copy == *namespace, "the copy is another namespace");
    Ok(writeln!(out, "namespace {}", copy.as_str())?)
}

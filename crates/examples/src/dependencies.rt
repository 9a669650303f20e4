//! Prints the dependencies of a Maven project: the group, the name, the version and the scope of each. Properties, as in
//! `${junit.version}`, are replaced by their values.
//!
//! Of this project
//!
//! ```text
//! <project>
//!   <properties><v>1.7</v></properties>
//!   <dependencies>
//!     <dependency><groupId>org.slf4j</groupId><artifactId>slf4j-api</artifactId><version>${v}</version></dependency>
//!     <dependency><artifactId>tools</artifactId><scope>test</scope></dependency>
//!   </dependencies>
//! </project>
//! ```
//!
//! it prints
//!
//! ```text
//! org.slf4j:slf4j-api:1.7 compile
//! -:tools:- test
//! ```

use anyhow::{Context, Result};
use roxmltree::{Document, Node};
use std::alloc::{AllocError, Global};
use std::fs;
use std::io::Write;

/// The most rounds in which the properties of a value are replaced: the value of one may name others, or itself.
const MOST_ROUNDS: usize = 8;

/// A value of more bytes is left as it is, so that properties that name each other do not make it explode.
const MOST_BYTES: usize = 4096;

/// Runs this example for the project in this file.
pub fn run(rt: &HostRuntime, file: &str) -> Result<()> {
    let text = fs::read_to_string(rt, file).context(format_args!("reading {file}"))?;
    let document = Document::parse(rt.alloc(), text.as_str()).context(format_args!(
        "parsing {file}"
    ))?;
    print_dependencies(&document.root_element(), rt.alloc(), &mut rt.stdout())
}

/// Prints what is in the element `dependencies` of a project, if it has one.
fn print_dependencies<W: Write>(project: &Node<'_, '_>, alloc: Global, out: &mut W) -> Result<()> {
    match child(project, "dependencies") {
        Some(dependencies) => print_each(&dependencies, alloc, project, out),
        None => Ok(()),
    }
}

/// Prints each child element `dependency`.
fn print_each<W: Write>(
    dependencies: &Node<'_, '_>,
    alloc: Global,
    project: &Node<'_, '_>,
    out: &mut W,
) -> Result<()> {
    for dependency in dependencies.children() {
        if dependency.has_local_name("dependency") {
            print_dependency(&dependency, alloc, project, out)?;
        }
    }
    Ok(())
}

/// Prints the line of a dependency.
fn print_dependency<W: Write>(
    dependency: &Node<'_, '_>,
    alloc: Global,
    project: &Node<'_, '_>,
    out: &mut W,
) -> Result<()> {
    // what comes before a value, its element, and what is printed if there is none
    for (before, name, otherwise) in &[
        ("", "groupId", "-"),
        (":", "artifactId", "-"),
        (":", "version", "-"),
        (" ", "scope", "compile"),
    ] {
        let text = child_text(dependency, name).unwrap_or(otherwise);
        let value = with_properties(project, alloc, text)?;
        write!(out, "{before}{value}")?;
    }
    writeln!(out)?;
    Ok(())
}

/// Returns the first child element of this name, in whatever namespace: poms are written with one and without.
fn child<'a, 'input>(element: &Node<'a, 'input>, name: &str) -> Option<Node<'a, 'input>> {
    for child in element.children() {
        if child.has_local_name(name) {
            return Some(child);
        }
    }
    None
}

/// Returns the text of the first child element of this name.
fn child_text<'a>(element: &Node<'a, '_>, name: &str) -> Option<&'a str> {
    Some(child(element, name)?.text()?.trim())
}

/// Returns the text with its properties replaced, and those in their values, in at most `MOST_ROUNDS` rounds.
fn with_properties(
    project: &Node<'_, '_>,
    alloc: Global,
    text: &str,
) -> Result<String, AllocError> {
    let mut value = String::from_str(alloc, text)?;
    for _ in 0..MOST_ROUNDS {
        if value.len() > MOST_BYTES || !value.as_str().contains("${") {
            break;
        }
        value = replaced_once(project, alloc, value.as_str())?;
    }
    Ok(value)
}

/// Returns the text with each `${name}` replaced by the value of the property. One that is unknown stays as it is.
fn replaced_once(project: &Node<'_, '_>, alloc: Global, text: &str) -> Result<String, AllocError> {
    let mut value = String::new(alloc);
    push_replaced(project, &mut value, text)?;
    Ok(value)
}

/// Appends the text with each `${name}` replaced.
fn push_replaced(project: &Node<'_, '_>, value: &mut String, text: &str) -> Result<(), AllocError> {
    let mut parts = text.split("${");
    value.push_str(parts.next().unwrap_or(""))?;
    for part in parts {
        push_property(project, value, part)?;
    }
    Ok(())
}

/// Appends the value of the property `name`, and what comes after, of a part `name}..`.
fn push_property(project: &Node<'_, '_>, value: &mut String, part: &str) -> Result<(), AllocError> {
    if let Some((name, after)) = part.split_once('}') {
        if let Some(property) = property(project, name) {
            value.push_str(property)?;
            return value.push_str(after);
        }
    }
    value.push_str("${")?;
    value.push_str(part)
}

/// Returns the value of a property: a part of the project's own identity, or else the child of its `properties` with this name.
fn property<'a>(project: &Node<'a, '_>, name: &str) -> Option<&'a str> {
    match name {
        "project.version" => own_or_parents(project, "version"),
        "project.groupId" => own_or_parents(project, "groupId"),
        "project.parent.version" => grandchild_text(project, "parent", "version"),
        _ => grandchild_text(project, "properties", name),
    }
}

/// Returns what a project says, or else what it says of its parent.
fn own_or_parents<'a>(project: &Node<'a, '_>, name: &str) -> Option<&'a str> {
    match child_text(project, name) {
        Some(text) => Some(text),
        None => grandchild_text(project, "parent", name),
    }
}

/// Returns the text of the first child element `name` of the first child element `of`.
fn grandchild_text<'a>(element: &Node<'a, '_>, of: &str, name: &str) -> Option<&'a str> {
    child_text(&child(element, of)?, name)
}

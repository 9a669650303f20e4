//! Prints the shapes of an SVG image: the row and the column where each starts, its kind, its fill, and what it refers to, if it
//! refers to anything.
//!
//! Of this image
//!
//! ```text
//! <svg xmlns="http://www.w3.org/2000/svg" fill="red">
//!   <g fill="green"><circle r="4"/></g>
//!   <path style="stroke: none; fill: #6a0"/>
//!   <use href="#a"/>
//! </svg>
//! ```
//!
//! it prints
//!
//! ```text
//! 2:19 circle fill=green
//! 3:3 path fill=#6a0
//! 4:3 use fill=red href=#a
//! ```

use anyhow::{Context, Result};
use roxmltree::{Document, Node};
use std::io::Write;
use std::{fs, io};

const SVG: &str = "http://www.w3.org/2000/svg";

/// The attribute `xlink:href`, by which SVG 1.1 refers to another element.
const XLINK_HREF: (&str, &str) = ("http://www.w3.org/1999/xlink", "href");

/// The basic shapes (SVG 1.1 section 9), `path` and `use`.
const SHAPES: [&str; 8] = [
    "circle", "ellipse", "line", "path", "polygon", "polyline", "rect", "use",
];

/// Runs this example for the image in this file.
pub fn run(rt: &HostRuntime, file: &str) -> Result<()> {
    let text = fs::read_to_string(rt, file).context(format_args!("reading {file}"))?;
    let document = Document::parse(rt.alloc(), text.as_str()).context(format_args!(
        "parsing {file}"
    ))?;
    print_shapes(&document, &mut rt.stdout())?;
    Ok(())
}

/// Prints each shape, in document order.
fn print_shapes<W: Write>(document: &Document<'_>, out: &mut W) -> io::Result<()> {
    for node in document.descendants() {
        if is_shape(&node) {
            print_shape(&node, out)?;
        }
    }
    Ok(())
}

/// Prints the line of a shape.
fn print_shape<W: Write>(shape: &Node<'_, '_>, out: &mut W) -> io::Result<()> {
    let place = shape.document().text_pos_at(shape.range().start);
    let kind = shape.tag_name().name();
    let fill = fill(*shape);
    write!(out, "{place} {kind} fill={fill}")?;
    if let Some(target) = target(*shape) {
        write!(out, " href={target}")?;
    }
    writeln!(out)
}

/// Returns whether a node is a shape: an element in the namespace of SVG with one of these local names.
fn is_shape(node: &Node<'_, '_>) -> bool {
    let name = node.tag_name();
    name.namespace() == Some(SVG) && SHAPES.contains(&name.name())
}

/// Returns what an element refers to: its `href`, which is that of SVG 2, or else its `xlink:href`.
fn target<'a>(element: Node<'a, '_>) -> Option<&'a str> {
    element
        .attribute("href".into())
        .or(element.attribute(XLINK_HREF.into()))
}

/// Returns the fill of a shape: its own, or else that of the nearest element around it that has one, or else black
/// (SVG 1.1 section 11.3).
fn fill<'a>(shape: Node<'a, '_>) -> &'a str {
    for node in shape.ancestors() {
        match own_fill(node) {
            None | Some("inherit") => {}
            Some(fill) => return fill,
        }
    }
    "black"
}

/// Returns the fill of the element itself: that of its `style`, or else its attribute `fill`.
fn own_fill<'a>(element: Node<'a, '_>) -> Option<&'a str> {
    if let Some(style) = element.attribute("style".into()) {
        if let Some(fill) = fill_of_style(style) {
            return Some(fill);
        }
    }
    element.attribute("fill".into())
}

/// Returns the value of the last `fill` among the declarations of a style, for example `red` of `stroke:none; fill: red`.
fn fill_of_style(style: &str) -> Option<&str> {
    let mut found = None;
    for declaration in style.split(';') {
        if let Some((name, value)) = declaration.split_once(':') {
            if name.trim() == "fill" {
                found = Some(value.trim());
            }
        }
    }
    found
}

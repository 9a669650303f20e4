//! Prints the circles of a small drawing: the range of bytes and the radius of each.

use anyhow::Result;
use roxmltree::Document;

/// Runs this example.
pub fn run(rt: &HostRuntime) -> Result<()> {
    let alloc = rt.alloc();
    let svg = "<svg xmlns='http://www.w3.org/2000/svg'><circle r='4'/><g><circle r='2'/></g></svg>";
    let document = Document::parse(alloc, svg)?;
    for node in document.descendants() {
        if node.has_tag_name(("http://www.w3.org/2000/svg", "circle").into()) {
            let radius = node.attribute("r".into()).unwrap_or("none");
            println!(rt; "{:?} has the radius {radius}", node.range())?;
        }
    }
    Ok(())
}

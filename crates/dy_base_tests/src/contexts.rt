//! A context that is read, changed and written as a text, which no program of the workspace does.

use dy_dots::{Context, Dot, Fault, NodeId};
use std::alloc::Global;
use std::test::Fail;

/// The text of the set that the text spells, with the dot.
fn with_dot(alloc: Global, text: &str, dot: Dot) -> Result<String, Fault> {
    let mut context = Context::read_text(alloc, text)?;
    context.insert(dot)?;
    let mut written = String::new(alloc);
    context.write_text(alloc, &mut written)?;
    Ok(written)
}

#[test]
fn a_context_is_written_as_its_text(rt: HostRuntime) -> Result<(), Fail> {
    let dot = Dot::new(NodeId::nth(0), 2).ok_or("a dot")?;
    let text = with_dot(rt.alloc(), "n0:1,3,5 n31:1000000", dot)?;
    assert_eq!(rt; text.as_str(), "n0:1-3,5 n31:1000000");
    Ok(())
}

//! The texts that `Fault` prints.

use dy_dots::{Dot, Fault, NodeId};
use std::alloc::Global;
use std::test::Fail;

/// Whether the refusal is printed as the text.
fn prints(alloc: Global, fault: Fault, text: &str) -> Result<bool, Fail> {
    let own = fault.to_string(alloc)?;
    Ok(own.as_str() == text)
}

/// Whether each refusal is printed as its text.
fn print(alloc: Global, cases: &[(Fault, &str)]) -> Result<bool, Fail> {
    for (fault, text) in cases {
        if !prints(alloc, *fault, text)? {
            return Ok(false);
        }
    }
    Ok(true)
}

const PLAIN: [(Fault, &str); 9] = [
    (Fault::OutOfMemory, "E0 OutOfMemory"),
    (Fault::ContextSyntax, "E1 ContextSyntax"),
    (Fault::KeySize, "E2 KeySize"),
    (Fault::ValueSize, "E3 ValueSize"),
    (Fault::TooMany, "E6 TooMany"),
    (Fault::CounterFull, "E7 CounterFull"),
    (Fault::VersionsFull, "E9 VersionsFull"),
    (Fault::SharesMissing, "E11 SharesMissing"),
    (Fault::StepsFull, "E12 StepsFull"),
];

/// Those of nodes that are asked.
const ASKED: [(Fault, &str); 4] = [
    (Fault::Down, "E13 Down"),
    (Fault::NoNode, "E14 NoNode"),
    (Fault::NotEnough, "E15 NotEnough"),
    (Fault::BadQuorum, "E16 BadQuorum"),
];

const NUMBERED: [(Fault, &str); 4] = [
    (
        Fault::TokenClash { position: 1 << 125 },
        "E4 TokenClash 20000000000000000000000000000000",
    ),
    (
        Fault::TokenClash { position: 10 },
        "E4 TokenClash 0000000000000000000000000000000a",
    ),
    (Fault::ScriptSyntax { command: 2 }, "E17 ScriptSyntax 2"),
    (Fault::UnknownCommand { command: 3 }, "E18 UnknownCommand 3"),
];

/// Whether those that carry nothing are printed as their texts.
fn print_plain(alloc: Global) -> Result<bool, Fail> {
    Ok(print(alloc, PLAIN.as_slice())? && print(alloc, ASKED.as_slice())?)
}

/// Whether those that carry a number are.
fn print_numbered(alloc: Global) -> Result<bool, Fail> {
    print(alloc, NUMBERED.as_slice())
}

/// Whether those that name a node or a dot are.
fn print_named(alloc: Global, node: NodeId, dot: Dot) -> Result<bool, Fail> {
    let named = [
        (Fault::NodeWithoutToken { node }, "E5 NodeWithoutToken 2"),
        (Fault::ContextUnknown { dot }, "E8 ContextUnknown n2:7"),
        (Fault::NotIssued { dot }, "E10 NotIssued n2:7"),
    ];
    print(alloc, named.as_slice())
}

#[test]
fn prints_each_refusal(rt: HostRuntime) -> Result<(), Fail> {
    let node = NodeId::nth(2);
    let dot = Dot::new(node, 7).ok_or("a dot")?;
    assert!(rt; print_plain(rt.alloc())?);
    assert!(rt; print_numbered(rt.alloc())?);
    assert!(rt; print_named(rt.alloc(), node, dot)?);
    Ok(())
}

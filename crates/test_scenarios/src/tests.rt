//! Tests of texts, and of the first faults in them. Many more are in tests/worked/first-faults.txt, which the built program reads.

ghost use Rattle.std.specs.Prelude.{◌≡◌, ◌<◌, IfOk, [], ◌∷◌};
ghost use Rattle.link_trace.specs.Sealed.{no_lines};

use link_trace::Trace;
use lwb_base::{INPUT_LIMIT, NodeId, Profile};
use scenario_text::FaultKind::{
    BadNumber, BadWord, Missing, NotUtf8, Order, Range, TooBig, Twice, UnknownNode,
};
use scenario_text::{Act, FaultKind, NodeLine, ParseFault, Scenario, ScriptLine, parse, print};
use std::alloc::Global;
use std::test::Fail;
use test_texts::{ONE_PACKET, scenario};

/// The first fault of a text of a scenario, unless that is longer than it may be.
pub fn first_fault(alloc: Global, text: &[u8]) -> Option<Option<ParseFault>> {
    if text.len() > INPUT_LIMIT {
        return None;
    }
    Some(parse(alloc, text).err())
}

// Whether that is the first fault.
fn is_first(alloc: Global, text: &[u8], line: u32, kind: FaultKind) -> bool {
    first_fault(alloc, text) == Some(Some(ParseFault::Line(line, kind)))
}

#[test]
fn first_faults(rt: HostRuntime) {
    let alloc = rt.alloc();
    assert!(rt; is_first(alloc, b"profile 3", 1, Range));
    assert!(rt; is_first(alloc, b"sends \xff\n", 1, NotUtf8));
    assert!(rt; is_first(alloc, b"frames 2\r\n", 2, Missing));
}

fn printed(alloc: Global, scenario: &Scenario) -> Result<String, Fail> {
    Ok(print(alloc, scenario)?)
}

fn read_and_printed(alloc: Global, parts: &[&str]) -> Result<String, Fail> {
    printed(alloc, &scenario(alloc, parts)?)
}

// Whether that is the canonical text of a text in parts, and its own.
fn is_canonical(alloc: Global, parts: &[&str], canonical: &str) -> Result<bool, Fail> {
    let once = read_and_printed(alloc, parts)?;
    let twice = read_and_printed(alloc, &[once.as_str()])?;
    Ok(once.as_str() == canonical && twice.as_str() == canonical)
}

#[test]
fn one_packet_in_its_canonical_text(rt: HostRuntime) -> Result<(), Fail> {
    let canonical =
        "profile 1\nframes 12\nsends 2\nnode 1 0\nnode 2 0\nhost 0 1\nlink 1 2\nlink 2 1\non 0 1\n\
        on 0 2\nstream 0 2 0 4\nput 0 2 0 aa\n";
    assert!(rt; is_canonical(rt.alloc(), ONE_PACKET, canonical)?);
    Ok(())
}

#[test]
fn all_kinds_of_lines_in_their_canonical_text(rt: HostRuntime) -> Result<(), Fail> {
    let text = "profile 2\ncontend 3\nnode 9 7\nnode 4 0\nhost 0 9\nhost 1 4\nsends 1\npair 9 4\n\
        rate 9 5 -20\nrate 4 6 0\nframes 3\ncapture 1 45 2 9 4\nlose 1 0 11 9 4\nlose 0 0 0 9 4\n\
        \tput 0 9 3 - \r\ncut 2 1 0 4\nput 0 9 0 00Af\nleave 1 9 3\noff 2 4";
    let canonical =
        "profile 2\ncontend 3\nframes 3\nsends 1\nnode 4 0\nnode 9 7\nrate 4 6 0\nrate 9 5 -20\n\
        host 0 9\nhost 1 4\nlink 4 9\nlink 9 4\nput 0 9 3 -\nput 0 9 0 00af\nleave 1 9 3\n\
        off 2 4\nlose 0 0 0 9 4\nlose 1 0 11 9 4\ncut 2 1 0 4\ncapture 1 45 2 9 4\n";
    assert!(rt; is_canonical(rt.alloc(), &[text], canonical)?);
    Ok(())
}

fn node(id: u8) -> Result<NodeId, Fail>
    ensures { IfOk result (λ n. n ≡ id) }
{
    match NodeId::new(id) {
        Some(node) => Ok(node),
        None => Err("id")?,
    }
}

// The links of a pair of nodes, sealed with both.
fn trace_of_two(alloc: Global, one: NodeId, two: NodeId) -> Result<Trace, Fail>
    requires { one < two }
    ensures { IfOk result (λ t. t
        ≡ record { lines = record no_lines { links = record { from = one; to = two } ∷ record { from = two; to = one } ∷ [] }; nodes = one ∷ two ∷ [] }) }
{
    let mut trace = Trace::new(alloc);
    if trace.link(one, two) != Ok(true) || trace.link(two, one) != Ok(true) {
        return Err("links")?;
    }
    match trace.seal(&[one, two]) {
        Ok(()) => Ok(trace),
        Err(_) => Err("memory")?,
    }
}

fn first_round(alloc: Global) -> Result<Scenario, Fail> {
    let (one, two) = (node(1)?, node(2)?);
    let trace = trace_of_two(alloc, one, two)?;
    let nodes = vec![in alloc;
        NodeLine {
            node: one,
            offset: 0
        },
        NodeLine {
            node: two,
            offset: 0
        },
    ]?;
    let hosts = vec![in alloc; one]?;
    let script = vec![in alloc;
        ScriptLine {
            frame: 0,
            node: one,
            act: Act::On
        },
        ScriptLine {
            frame: 0,
            node: two,
            act: Act::On
        },
    ]?;
    Ok(Scenario::of_parts(
        &Profile::one(),
        6,
        2,
        nodes,
        Vec::new(alloc),
        hosts,
        trace,
        script,
    ))
}

fn text_of_first_round(alloc: Global) -> Result<String, Fail> {
    printed(alloc, &first_round(alloc)?)
}

#[test]
fn a_scenario_of_its_parts(rt: HostRuntime) -> Result<(), Fail> {
    let text = text_of_first_round(rt.alloc())?;
    let canonical =
        "profile 1\nframes 6\nsends 2\nnode 1 0\nnode 2 0\nhost 0 1\nlink 1 2\nlink 2 1\non 0 1\non 0 2\n";
    assert!(rt; text.as_str() == canonical);
    Ok(())
}

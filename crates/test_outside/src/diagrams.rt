//! Diagrams of names that would be read as marks of the page or of the text. The compiler takes no such name.
ghost use Rattle.std.specs.Prelude.{◌≤◌, IfOk, length};

use ffm_model::{
    ActorId, Budget, Class, List, Name, Partition, Policy, Priority, Region, RotType, Service, Sid,
    System,
};
use memory_image::Image;
use std::alloc::{AllocError, Global};
use std::process::Abort;
use std::test::Fail;
use trace_print::read_trace;
use view_diagram::{Format, Part, diagram};

fn name(alloc: Global, text: &str) -> Result<Name, AllocError> {
    Ok(Name::of(String::from_str(alloc, text)?))
}

fn partition(alloc: Global) -> Result<Partition, AllocError> {
    Ok(Partition {
        name: name(alloc, "<b>&\"A'")?,
        rot: RotType::PsaRot,
        priority: Priority::High,
        domain: 1,
        ram: 0,
        sfn: false,
        heap: 0,
    })
}

fn service(alloc: Global) -> Result<Service, AllocError> {
    Ok(Service {
        name: name(alloc, "end;#%%{x}\n<i>é")?,
        sid: Sid(64),
        owner: 0,
        nonsecure: true,
        version: 1,
        policy: Policy::Strict,
        signal: 16,
        stateless: 0,
        mm: false,
    })
}

fn regions(alloc: Global) -> Result<List<Region>, AllocError>
    ensures { IfOk result (λ r. length r ≤ 2) }
{
    let ram = Region {
        base: 0x3000_0000,
        size: 0x100,
        class: Class::Ram { domain: 1 },
    };
    let nonsecure = Region {
        base: 0x2000_0000,
        size: 0x100,
        class: Class::NonSecure,
    };
    Ok(List::of(vec![in alloc; ram, nonsecure]?))
}

fn named_system(alloc: Global) -> Result<System, Fail> {
    let budget = Budget {
        client: ActorId(1),
        service: 0,
        count: 1,
    };
    let made = System::new(
        1,
        List::of(vec![in alloc; partition(alloc)?]?),
        List::of(vec![in alloc; service(alloc)?]?),
        List::of(Vec::new(alloc)),
        regions(alloc)?,
        List::of(vec![in alloc; name(alloc, "A&B")?]?),
        List::of(vec![in alloc; budget]?),
    );
    match made {
        Some(system) => Ok(system),
        None => Err(Fail::from("a system is wanted")),
    }
}

const TRACE: &str = "p1 wait 0x00000010 0x80000000 -> blocked
n1 connect 0x00000040 1 -> blocked
p1 resume -> signals 0x00000010
p1 stop end -> done
stalled 4
";

// The diagram of a trace, from a memory whose bytes are 0. The part ends behind the last entry.
#[tactic(auto, using(memory_image::proofs::Systems::system_fits))]
fn drawn(alloc: Global, system: &System, text: &str, format: Format) -> Result<Vec<u8>, Fail> {
    let trace = read_trace(alloc, system.counts(), text.as_bytes())?;
    if system.regions.len() >= 2147483648 || trace.entries.len() >= 2147483648 {
        return Err(Fail::from("too many regions or entries"));
    }
    let image = Image::new(alloc, system.regions.list(), &List::of(Vec::new(alloc)))?;
    let part = Part { from: 1, to: 1000 };
    let diagram = diagram(alloc, system, &image, 1000, &trace, part, None, format)?;
    Ok(diagram.text(alloc, system, &trace)?)
}

fn assert_text(rt: &impl Abort, alloc: Global, system: &System) -> Result<(), Fail> {
    let text = drawn(alloc, system, TRACE, Format::Mermaid)?;
    let wanted = "sequenceDiagram
    participant p1 as p1 #60;b#62;#38;#34;A#39;
    participant n1 as n1 A#38;B
    n1->>p1: 2 connect end#59;#35;#37;#37;#123;x#125; #60;i#62;#233;
    Note over p1: 3 wakes: end#59;#35;#37;#37;#123;x#125; #60;i#62;#233;
    Note over p1,n1: stalled 4
";
    assert!(rt; text.as_slice() == wanted.as_bytes());
    Ok(())
}

fn assert_page(rt: &impl Abort, alloc: Global, system: &System) -> Result<(), Fail> {
    let page = String::from_utf8(drawn(alloc, system, TRACE, Format::Html)?)?;
    for piece in [
        ">&lt;b&gt;&amp;&quot;A&#39;<small>p1</small>",
        ">A&amp;B<small>n1</small>",
        ">connect end;#%%{x}\n&lt;i&gt;é</text>",
        ">p1 <tspan class=\"wake\">wakes: end;#%%{x}\n&lt;i&gt;é</tspan></text>",
    ] {
        assert!(rt; page.contains(piece), "{}", piece);
    }
    Ok(())
}

#[test]
fn names_escaped(rt: HostRuntime) -> Result<(), Fail> {
    let system = named_system(rt.alloc())?;
    assert_text(&rt, rt.alloc(), &system)?;
    assert_page(&rt, rt.alloc(), &system)
}

//! A state as bytes, and back.
ghost use Rattle.std.specs.Prelude.{◌≡◌, [], ◌∷◌, IfOk};
ghost use Rattle.ffm_model.specs.Ranges.{ranges_of};
ghost use Rattle.memory_image.specs.Pieces.{regions_of};

use ffm_model::{
    ActorId, ActorPhase, Class, ConnPhase, Handle, List, OpenConnection, PendingMessage, Region,
    SourceFlags, Span, Vectors,
};
use machine_calls::{Machine, Objects};
use memory_image::Image;
use mm_iovec::{HeldItem, HeldVector, VectorState};
use packed_state::{
    Contexts, Engine, Holding, Point, SlotName, SlotsInUse, Snapshot, pack, unpack,
};
use std::alloc::{AllocError, Global};
use std::process::Abort;
use std::test::Fail;

// Four bytes at 0x20000000.
const REGION: Region = Region {
    base: 536870912,
    size: 4,
    class: Class::NonSecure,
};

// The bytes of the state, by hand: the connection, the number made, the message, what actors do, doorbell and
// source, the slots twice, a change behind two equal bytes, and the two engines.
const BYTES: [u8; 76] = [
    1, 0, 1, 0, 2, 255, 112, 17, 1, 0, 1, 254, 0, 8, 1, 1, 0, 1, 1, 0, 0, 1, 255, 2, 0, 0, 32, 2,
    0, 0, 0, 0, 0, 0, 0, 0, 0, 0, 0, 2, 2, 16, 1, 1, 1, 1, 1, 0, 0, 1, 0, 1, 1, 1, 1, 0, 1, 1, 1,
    1, 2, 7, 2, 0, 5, 16, 254, 44, 1, 3, 0, 1, 1, 0, 0, 0,
];

// A client waits for the answer to a request of two bytes.
fn objects(alloc: Global) -> Result<Objects, AllocError> {
    let none = Span::default();
    let given = Span {
        base: 536870914,
        len: 2,
        moved: 0,
    };
    Ok(Objects {
        connections: vec![in alloc;
            OpenConnection {
                serial: 0,
                client: ActorId(1),
                service: 0,
                phase: ConnPhase::Busy,
                rhandle: 70000,
                handle: Some(Handle(1024)),
            },
        ]?,
        connections_made: 1,
        messages: vec![in alloc;
            PendingMessage {
                service: 0,
                client: ActorId(1),
                connection: Some(0),
                kind: 0,
                vectors: Vectors {
                    input: [given, none, none, none],
                    output: [none, none, none, none],
                    out_vec: 0,
                    out_len: 0,
                },
                handle: None,
            },
        ]?,
        phases: vec![in alloc; ActorPhase::Waiting { mask: 16 }, ActorPhase::Blocked]?,
        doorbells: vec![in alloc; true]?,
        sources: vec![in alloc;
            SourceFlags {
                enabled: true,
                pending: false,
                asserted: false,
            },
        ]?,
    })
}

fn first_slot(alloc: Global) -> Result<SlotsInUse, AllocError> {
    Ok(SlotsInUse {
        live: vec![in alloc;
            SlotName {
                index: 0,
                generation: 1,
            },
        ]?,
        uses: vec![in alloc; 1u32]?,
    })
}

// A partition's script at its fourth line, and a client's context at its start.
fn engines(alloc: Global) -> Result<Vec<Engine>, AllocError> {
    let mut registers = [0; 16];
    registers[0] = 16;
    registers[2] = 300;
    Ok(vec![in alloc;
        Engine::Holding(Holding {
            at: Point {
                registers,
                place: 3,
            },
            table: Vec::new(alloc),
        }),
        Engine::Turning(Contexts {
            points: vec![in alloc;
                Point {
                    registers: [0; 16],
                    place: 0,
                },
            ]?,
            turn: 0,
        }),
    ]?)
}

// The region with zeros.
#[tactic(auto, unfolding(memory_image::specs::Pieces::fit_an_image))]
fn zeros(alloc: Global) -> Result<Image, Fail>
    ensures { IfOk result (λ image. regions_of image ≡ ranges_of (REGION ∷ [])) }
{
    let regions = List::of(vec![in alloc; REGION]?);
    Ok(Image::new(alloc, &regions, &List::of(Vec::new(alloc)))?)
}

#[test]
fn states_as_bytes(rt: HostRuntime) -> Result<(), Fail> {
    let alloc = rt.alloc();
    let opening = zeros(alloc)?;
    let mut memory = zeros(alloc)?;
    memory.store(536870914, 1, 7);
    let snapshot = Snapshot {
        machine: Machine {
            objects: objects(alloc)?,
            memory,
        },
        connections: first_slot(alloc)?,
        messages: first_slot(alloc)?,
        engines: engines(alloc)?,
    };
    let bytes = pack(alloc, &snapshot, &[REGION], &opening)?;
    assert!(rt; bytes.as_slice() == BYTES.as_slice());
    let again = unpack(alloc, &BYTES, &[REGION], &opening)?;
    assert!(rt; again.machine.memory.load(536870914, 1) == 7);
    assert!(rt; again.machine.objects.messages.len() == 1);
    assert!(rt; pack(alloc, &again, &[REGION], &opening)?.as_slice() == BYTES.as_slice());
    Ok(())
}

// The script of a partition that holds a request, of whose vectors the first input of eight bytes is mapped.
fn holder(alloc: Global) -> Result<Engine, AllocError> {
    let none = HeldVector {
        size: 0,
        state: VectorState::Used,
    };
    let mapped = HeldVector {
        size: 8,
        state: VectorState::Mapped,
    };
    Ok(Engine::Holding(Holding {
        at: Point {
            registers: [0; 16],
            place: 7,
        },
        table: vec![in alloc;
            HeldItem {
                handle: Handle(600),
                kind: 0,
                mm: true,
                input: [mapped, none, none, none],
                output: [none, none, none, none],
            },
        ]?,
    }))
}

// No object, no slot and no change, and one engine: where it stands, and its message, by hand.
const HOLDER: [u8; 37] = [
    0, 0, 0, 0, 0, 0, 0, 0, 0, 0, 0, 1, 0, 0, 7, 1, 254, 176, 4, 0, 1, 8, 2, 0, 1, 0, 1, 0, 1, 0,
    1, 0, 1, 0, 1, 0, 1,
];

fn no_slots(alloc: Global) -> SlotsInUse {
    SlotsInUse {
        live: Vec::new(alloc),
        uses: Vec::new(alloc),
    }
}

#[test]
fn held_messages_as_bytes(rt: HostRuntime) -> Result<(), Fail> {
    let alloc = rt.alloc();
    let opening = zeros(alloc)?;
    let snapshot = Snapshot {
        machine: Machine {
            objects: Objects {
                connections: Vec::new(alloc),
                connections_made: 0,
                messages: Vec::new(alloc),
                phases: Vec::new(alloc),
                doorbells: Vec::new(alloc),
                sources: Vec::new(alloc),
            },
            memory: zeros(alloc)?,
        },
        connections: no_slots(alloc),
        messages: no_slots(alloc),
        engines: vec![in alloc; holder(alloc)?]?,
    };
    let bytes = pack(alloc, &snapshot, &[REGION], &opening)?;
    assert!(rt; bytes.as_slice() == HOLDER.as_slice());
    let again = unpack(alloc, &HOLDER, &[REGION], &opening)?;
    assert!(rt; pack(alloc, &again, &[REGION], &opening)?.as_slice() == HOLDER.as_slice());
    Ok(())
}

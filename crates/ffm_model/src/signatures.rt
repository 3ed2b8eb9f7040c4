//! The calls that a script can make, by their words: one table for scripts and for traces.
ghost use Rattle.std.specs.Prelude.{◌≡◌, ◌≤◌, IfSome, get_or, length, map, true};
ghost use Rattle.std.specs.List.{list_all};
ghost use Rattle.std.specs.Option.{option_map};
ghost use Rattle.ffm_model.specs.ScriptRuns.{call_of};
ghost use Rattle.ffm_model.specs.Signatures.{CallsAreMadeAgain, CallsHaveTheirOperands, KindsAreDue, OthersHaveNone, has_few, seen, signature_in, signatures};

use crate::machine::{Call, Handle, Sid, Status};
use crate::script::CallName;
use OperandKind::{Hexadecimal, Signed, Unsigned};

/// How a trace writes an operand.
#[derive(Clone, Copy)]
pub enum OperandKind {
    /// `0x` and eight lower-case digits.
    Hexadecimal,
    /// Decimal, without leading zeros.
    Unsigned,
    /// Decimal, without leading zeros, and with a `-` where it is negative.
    Signed,
}

/// A call's word, its name, and how a trace writes each of its operands, in the order of the call's
/// fields. There are at most six.
pub type Signature = (&'static str, CallName, &'static [OperandKind]);

/// The calls whose words begin the lines of scripts, as they begin those of a trace. The end of a
/// script has other words in a trace.
pub const SIGNATURES: [Signature; 21] = [
    ("framework_version", CallName::FrameworkVersion, &[]),
    ("version", CallName::Version, &[Hexadecimal]),
    ("connect", CallName::Connect, &[Hexadecimal, Unsigned]),
    (
        "call",
        CallName::Invoke,
        &[Signed, Signed, Hexadecimal, Unsigned, Hexadecimal, Unsigned],
    ),
    ("close", CallName::Close, &[Signed]),
    ("wait", CallName::Wait, &[Hexadecimal, Hexadecimal]),
    ("get", CallName::Get, &[Hexadecimal, Hexadecimal]),
    ("set_rhandle", CallName::SetRhandle, &[Signed, Hexadecimal]),
    (
        "read",
        CallName::Read,
        &[Signed, Unsigned, Hexadecimal, Unsigned],
    ),
    ("skip", CallName::Skip, &[Signed, Unsigned, Unsigned]),
    (
        "write",
        CallName::Write,
        &[Signed, Unsigned, Hexadecimal, Unsigned],
    ),
    ("reply", CallName::Reply, &[Signed, Signed]),
    ("notify", CallName::Notify, &[Signed]),
    ("clear", CallName::Clear, &[]),
    ("eoi", CallName::Eoi, &[Hexadecimal]),
    ("irq_enable", CallName::IrqEnable, &[Hexadecimal]),
    ("irq_disable", CallName::IrqDisable, &[Hexadecimal]),
    ("reset_signal", CallName::ResetSignal, &[Hexadecimal]),
    ("panic", CallName::Panic, &[]),
    ("load", CallName::Load, &[Hexadecimal, Unsigned]),
    (
        "store",
        CallName::Store,
        &[Hexadecimal, Unsigned, Hexadecimal],
    ),
];

/// The interrupts of the device, whose lines in a script name the source.
pub const INTERRUPT_SIGNATURES: [Signature; 2] = [
    ("raise", CallName::Raise, &[Unsigned]),
    ("fire", CallName::Fire, &[Unsigned, Unsigned]),
];

/// The first of some signatures with that word. Each is of at most six operands.
pub fn signature_in(signatures: &[Signature], word: &[u8]) -> Option<Signature>
    requires { list_all (λ s. has_few (seen s)) signatures.now ≡ true }
    ensures gives { option_map seen result ≡ signature_in (map seen signatures.now) word.now }
    ensures few { IfSome result (λ s. length s.2.now ≤ 6) }
{
    for signature in signatures {
        if signature.0.as_bytes() == word {
            return Some(*signature);
        }
    }
    None
}

/// The signature of the call that a trace writes with that word. A stop and a return have none.
#[tactic(auto, unfolding(crate::specs::Signatures::line_signatures, crate::specs::Signatures::interrupt_signatures), using(crate::proofs::SignatureLemmas::in_both))]
pub fn signature_of(word: &[u8]) -> Option<Signature>
    ensures gives { option_map seen result ≡ signature_in signatures word.now }
    ensures few { IfSome result (λ s. length s.2.now ≤ 6) }
{
    match signature_in(&SIGNATURES, word) {
        Some(signature) => Some(signature),
        None => signature_in(&INTERRUPT_SIGNATURES, word),
    }
}

fn value_at(values: &[u32], place: usize) -> u32
    ensures { result ≡ get_or values.now place 0 }
{
    values.get(place).copied().unwrap_or(0)
}

/// The call of a name, where these are the 32 bits of its operands, in the order of its fields. One that
/// isn't there is 0.
pub fn call_of(name: CallName, values: &[u32]) -> Call
    ensures { result ≡ call_of name (λ i. get_or values.now i 0) }
{
    let values = [
        value_at(values, 0),
        value_at(values, 1),
        value_at(values, 2),
        value_at(values, 3),
        value_at(values, 4),
        value_at(values, 5),
    ];
    match name {
        CallName::FrameworkVersion => Call::FrameworkVersion,
        CallName::Version => Call::Version {
            sid: Sid(values[0]),
        },
        CallName::Connect => Call::Connect {
            sid: Sid(values[0]),
            version: values[1],
        },
        CallName::Invoke => Call::Invoke {
            handle: Handle(values[0].cast_signed()),
            kind: values[1].cast_signed(),
            in_vec: values[2],
            in_len: values[3],
            out_vec: values[4],
            out_len: values[5],
        },
        CallName::Close => Call::Close {
            handle: Handle(values[0].cast_signed()),
        },
        CallName::Wait => Call::Wait {
            mask: values[0],
            timeout: values[1],
        },
        CallName::Get => Call::Get {
            signal: values[0],
            msg: values[1],
        },
        CallName::SetRhandle => Call::SetRhandle {
            handle: Handle(values[0].cast_signed()),
            rhandle: values[1],
        },
        CallName::Read => Call::Read {
            handle: Handle(values[0].cast_signed()),
            index: values[1],
            buffer: values[2],
            len: values[3],
        },
        CallName::Skip => Call::Skip {
            handle: Handle(values[0].cast_signed()),
            index: values[1],
            len: values[2],
        },
        CallName::Write => Call::Write {
            handle: Handle(values[0].cast_signed()),
            index: values[1],
            buffer: values[2],
            len: values[3],
        },
        CallName::Reply => Call::Reply {
            handle: Handle(values[0].cast_signed()),
            status: Status(values[1].cast_signed()),
        },
        CallName::Notify => Call::Notify {
            partition: values[0].cast_signed(),
        },
        CallName::Clear => Call::Clear,
        CallName::Eoi => Call::Eoi { signal: values[0] },
        CallName::IrqEnable => Call::IrqEnable { signal: values[0] },
        CallName::IrqDisable => Call::IrqDisable { signal: values[0] },
        CallName::ResetSignal => Call::ResetSignal { signal: values[0] },
        CallName::Panic => Call::Panic,
        CallName::Load => Call::Load {
            address: values[0],
            size: values[1],
        },
        CallName::Store => Call::Store {
            address: values[0],
            size: values[1],
            value: values[2],
        },
        CallName::Raise => Call::Raise { source: values[0] },
        CallName::Fire => Call::Fire {
            source: values[0],
            result: values[1],
        },
        CallName::Stop => Call::Stop { spent: false },
    }
}

/// The four laws of calls and their signatures. It does nothing.
pub fn calls_and_operands_agree()
    // The operands of a call are of the kinds that its signature says.
    ensures kinds { KindsAreDue }
    // A call is made again of its name and its operands.
    ensures made { CallsAreMadeAgain }
    // A call that is made of a name and operands has them.
    ensures operands { CallsHaveTheirOperands }
    // Only a stop and the return of a call have no signature.
    ensures others { OthersHaveNone }
{}

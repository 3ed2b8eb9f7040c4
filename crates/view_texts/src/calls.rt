//! The names of the calls.

ghost use Rattle.std.specs.Prelude.{◌≡◌, ◌<◌, map};
ghost use Rattle.view_texts.specs.Calls.{call_name, name_at, name_in, place_of};

use ffm_model::Call;

/// How many calls there are.
pub const CALL_COUNT: usize = 25;

/// The functions of `psa/client.h` and `psa/service.h` and this simulator's own calls, each at its place.
const CALL_NAMES: [&str; CALL_COUNT] = [
    "psa_framework_version",
    "psa_version",
    "psa_connect",
    "psa_call",
    "psa_close",
    "psa_wait",
    "psa_get",
    "psa_set_rhandle",
    "psa_read",
    "psa_skip",
    "psa_write",
    "psa_reply",
    "psa_notify",
    "psa_clear",
    "psa_eoi",
    "psa_irq_enable",
    "psa_irq_disable",
    "psa_reset_signal",
    "psa_panic",
    "load",
    "store",
    "raise",
    "fire",
    "stop",
    "resume",
];

/// The place of a call's name among the names.
pub fn place_of(call: Call) -> usize
    ensures place { result ≡ place_of call }
    ensures within { result < CALL_COUNT }
{
    match call {
        Call::FrameworkVersion => 0,
        Call::Version { .. } => 1,
        Call::Connect { .. } => 2,
        Call::Invoke { .. } => 3,
        Call::Close { .. } => 4,
        Call::Wait { .. } => 5,
        Call::Get { .. } => 6,
        Call::SetRhandle { .. } => 7,
        Call::Read { .. } => 8,
        Call::Skip { .. } => 9,
        Call::Write { .. } => 10,
        Call::Reply { .. } => 11,
        Call::Notify { .. } => 12,
        Call::Clear => 13,
        Call::Eoi { .. } => 14,
        Call::IrqEnable { .. } => 15,
        Call::IrqDisable { .. } => 16,
        Call::ResetSignal { .. } => 17,
        Call::Panic => 18,
        Call::Load { .. } => 19,
        Call::Store { .. } => 20,
        Call::Raise { .. } => 21,
        Call::Fire { .. } => 22,
        Call::Stop { .. } => 23,
        Call::Resume => 24,
    }
}

fn name_in(names: &[&'static str], place: usize) -> &'static str
    ensures { result.now ≡ name_in (map (λ n. n.now) names.now) place }
{
    match names.get(place) {
        Some(name) => *name,
        None => "",
    }
}

/// The name at a place.
pub fn name_at(place: usize) -> &'static str
    ensures { result.now ≡ name_at place }
{
    name_in(&CALL_NAMES, place)
}

/// The name of a call.
pub fn call_name(call: Call) -> &'static str
    ensures { result.now ≡ call_name call }
{
    name_at(place_of(call))
}

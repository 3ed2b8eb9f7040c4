//! First words, and what they ask for.
ghost use Rattle.std.specs.Prelude.{◌≡◌, IfSome, map, true};
ghost use Rattle.std.specs.List.{list_all};
ghost use Rattle.script_asm.specs.Words.{head_of, look_up};
ghost use Rattle.script_asm.specs.Operands.{has_room, HasRoom};

use ffm_model::{CallName, Comparison, MapName, Operation, SIGNATURES, signature_in};

/// What the first word of a line asks for; a call, and what is done with a vector, with the number of
/// its operands.
#[derive(Clone, Copy, Debug, PartialEq, Eq)]
pub enum Head {
    Change(Operation),
    Jump,
    JumpIf(Comparison),
    Make(CallName, usize),
    Map(MapName, usize),
}

// All but those of calls.
const FIRST_WORDS: [(&str, Head); 15] = [
    ("set", Head::Change(Operation::Set)),
    ("add", Head::Change(Operation::Add)),
    ("sub", Head::Change(Operation::Sub)),
    ("and", Head::Change(Operation::And)),
    ("or", Head::Change(Operation::Or)),
    ("xor", Head::Change(Operation::Xor)),
    ("jmp", Head::Jump),
    ("jeq", Head::JumpIf(Comparison::Equal)),
    ("jne", Head::JumpIf(Comparison::Different)),
    ("jlt", Head::JumpIf(Comparison::Less)),
    ("end", Head::Make(CallName::Stop, 0)),
    ("map_in", Head::Map(MapName::MapIn, 2)),
    ("unmap_in", Head::Map(MapName::UnmapIn, 2)),
    ("map_out", Head::Map(MapName::MapOut, 2)),
    ("unmap_out", Head::Map(MapName::UnmapOut, 3)),
];

fn head_in(table: &[(&'static str, Head)], word: &[u8]) -> Option<Head>
    requires { list_all (λ t. has_room t.1) table.now ≡ true }
    ensures gives { result ≡ look_up (map (λ t. (t.0.now, t.1)) table.now) word.now }
    ensures room { IfSome result HasRoom }
{
    for (name, head) in table {
        if name.as_bytes() == word {
            return Some(*head);
        }
    }
    None
}

/// What the first word of a line asks for; None where it is unknown.
#[tactic(auto, unfolding(crate::specs::Words::first_words, crate::specs::Words::head_of, ffm_model::specs::Signatures::line_signatures))]
pub fn head_of(word: &[u8]) -> Option<Head>
    ensures gives { result ≡ head_of word.now }
    ensures room { IfSome result HasRoom }
{
    if let Some(head) = head_in(&FIRST_WORDS, word) {
        return Some(head);
    }
    let (_, name, kinds) = signature_in(&SIGNATURES, word)?;
    Some(Head::Make(name, kinds.len()))
}

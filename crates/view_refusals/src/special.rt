//! Words for a value that is right by itself, and that another one forbids.

use crate::explain::Refused;
use ffm_model::{Key, PathStep};
use file_places::{Kind, number_of};
use manifest_json::is_name;

impl Refused<'_> {
    /// What is to be said of a value that another one forbids.
    pub fn special_words(&self) -> Option<&'static str> {
        let Some(PathStep::Key(key)) = self.steps.last() else {
            return None;
        };
        let is_list = self.spot.node.kind == Kind::List;
        let name = std::str::from_utf8(self.word).unwrap_or("");
        let is_named = self.spot.node.kind == Kind::Text && is_name(name);
        let words = match (*key, number_of(self.word)) {
            (Key::StackSize, Some(0..=47)) => {
                "wrong: this stack is too small\nexpected: at least 48 where `model` is SFN\n"
            }
            (Key::Services, _) if is_list => {
                "wrong: this list is empty\nexpected: at least one service where `model` is SFN\n"
            }
            (Key::Irqs, _) if is_list => {
                "wrong: a partition of which `model` is SFN has no interrupts\nhint: take the list out, or make `model` IPC\n"
            }
            (Key::Size, Some(0)) => "wrong: a region has a byte at least\n",
            (Key::Size, Some(_)) => {
                "wrong: the region ends above 4294967296\nexpected: `base` and `size` together up to 4294967296\n"
            }
            (Key::Version, Some(0)) => "wrong: a version is above 0\n",
            (Key::Clients, _) if is_list => "wrong: there are more than 16 clients\n",
            (Key::Manifests, _) if is_list => "wrong: there are more than 256 manifests\n",
            (Key::Lines, _) if is_list => "wrong: a script has more than 4096 lines\n",
            (Key::Restarts, Some(1..=15)) => {
                "wrong: a trace is of one run, and this scenario has several\nexpected: 0; cut the text at its lines `restart K`, and judge each part by itself\n"
            }
            (Key::RaiseResult, Some(0 | 1)) => {
                "wrong: this source has no first-level handler, and so no result\nhint: write the source alone\n"
            }
            (Key::Actor, _) if is_named => {
                "wrong: this actor has a script above, or this client has eight\nhint: write one script for a partition, and up to eight for a client\n"
            }
            _ => return None,
        };
        Some(words)
    }
}

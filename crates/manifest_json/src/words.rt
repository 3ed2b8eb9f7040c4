//! Texts of manifests that stand for something.
ghost use Rattle.ffm_model.specs.ManifestItems.{IsFramework};
ghost use Rattle.ffm_model.specs.Manifests.{framework_text, rot_text, priority_text, policy_text, permission_text, model_text, mapping_text, handling_text};

use crate::reader::Word;
use ffm_model::{FRAMEWORK_1_0, FRAMEWORK_1_1, Policy, Priority, RotType};

/// The version of the framework that a manifest is written for.
#[derive(Clone, Copy)]
pub(crate) struct FrameworkWord;

impl Word for FrameworkWord {
    type Meaning = u32;

    ghost meaning = { λ _. framework_text };

    ghost keeps = { λ _. IsFramework };

    fn meaning(&self, text: &str) -> Option<u32> {
        match text {
            "1.0" => Some(FRAMEWORK_1_0),
            "1.1" => Some(FRAMEWORK_1_1),
            _ => None,
        }
    }
}

#[derive(Clone, Copy)]
pub(crate) struct RotTypeWord;

impl Word for RotTypeWord {
    type Meaning = RotType;

    ghost meaning = { λ _. rot_text };

    fn meaning(&self, text: &str) -> Option<RotType> {
        match text {
            "PSA-ROT" => Some(RotType::PsaRot),
            "APPLICATION-ROT" => Some(RotType::ApplicationRot),
            _ => None,
        }
    }
}

#[derive(Clone, Copy)]
pub(crate) struct PriorityWord;

impl Word for PriorityWord {
    type Meaning = Priority;

    ghost meaning = { λ _. priority_text };

    fn meaning(&self, text: &str) -> Option<Priority> {
        match text {
            "LOW" => Some(Priority::Low),
            "NORMAL" => Some(Priority::Normal),
            "HIGH" => Some(Priority::High),
            _ => None,
        }
    }
}

#[derive(Clone, Copy)]
pub(crate) struct PolicyWord;

impl Word for PolicyWord {
    type Meaning = Policy;

    ghost meaning = { λ _. policy_text };

    fn meaning(&self, text: &str) -> Option<Policy> {
        match text {
            "STRICT" => Some(Policy::Strict),
            "RELAXED" => Some(Policy::Relaxed),
            _ => None,
        }
    }
}

/// Whether a region may be written.
#[derive(Clone, Copy)]
pub(crate) struct PermissionWord;

impl Word for PermissionWord {
    type Meaning = bool;

    ghost meaning = { λ _. permission_text };

    fn meaning(&self, text: &str) -> Option<bool> {
        match text {
            "READ-ONLY" => Some(false),
            "READ-WRITE" => Some(true),
            _ => None,
        }
    }
}

/// Whether each service of a partition is a function.
#[derive(Clone, Copy)]
pub(crate) struct ModelWord;

impl Word for ModelWord {
    type Meaning = bool;

    ghost meaning = { λ _. model_text };

    fn meaning(&self, text: &str) -> Option<bool> {
        match text {
            "IPC" => Some(false),
            "SFN" => Some(true),
            _ => None,
        }
    }
}

/// Whether a service's vectors may be mapped.
#[derive(Clone, Copy)]
pub(crate) struct MappingWord;

impl Word for MappingWord {
    type Meaning = bool;

    ghost meaning = { λ _. mapping_text };

    fn meaning(&self, text: &str) -> Option<bool> {
        match text {
            "enable" => Some(true),
            "disable" => Some(false),
            _ => None,
        }
    }
}

/// Whether an interrupt has a first-level handler.
#[derive(Clone, Copy)]
pub(crate) struct HandlingWord;

impl Word for HandlingWord {
    type Meaning = bool;

    ghost meaning = { λ _. handling_text };

    fn meaning(&self, text: &str) -> Option<bool> {
        match text {
            "FLIH" => Some(true),
            "SLIH" => Some(false),
            _ => None,
        }
    }
}

//! Where no rule is broken, the parts of a system fit each other. No function here does anything:
//! each says a law of what `ffm_model` defines, and its proof shows it.
#![tactic(auto)]

ghost use Rattle.std.specs.Prelude.{◌≡◌, ◌==◌, true, List, [], ◌∷◌, map, Err, IsOkAnd};
ghost use Rattle.ffm_model.specs.declared.place.Refusal.{Refusal};
ghost use Rattle.ffm_model.specs.Compiled.{services_of, system_parts, compiled};
ghost use Rattle.ffm_model.specs.Parts.{are_numbered, do_fit, parts_of_system};
ghost use Rattle.ffm_model.specs.PartsItems.{PartsRecord, IsParts};
ghost use Rattle.ffm_model.specs.Permissions.{services_in};
ghost use Rattle.ffm_model.specs.Reading.{refused};
ghost use Rattle.ffm_model.specs.Rules.{broken};

/// Where no rule is broken, the parts of the system fit each other, and its services and its regions
/// are each fewer than 2^31.
#[tactic(auto, using(crate::proofs::Fit::parts_fit, crate::proofs::Fit::parts_are_numbered))]
pub fn admitted_parts_fit()
    ensures fit { (p : PartsRecord) → IsParts p → broken p ≡ [] → do_fit (system_parts p) ≡ true }
    ensures numbered { (p : PartsRecord) → IsParts p → broken p ≡ []
        → are_numbered (system_parts p) ≡ true }
{}

/// Where no rule is broken, each service has an index but those that clients connect to.
#[tactic(auto, using(crate::proofs::Fit::stateless_have_indices))]
pub fn stateless_services_have_indices()
    ensures { (p : PartsRecord) → IsParts p → broken p ≡ []
        → map (λ v. v.stateless == 0) (services_of p)
        ≡ map (λ x. x.value.connection_based) (services_in p) }
{}

/// A system file gives the system of its parts exactly where no rule is broken, and otherwise the
/// refusal for the first rule that is.
#[tactic(auto, using(crate::proofs::Fit::compiles, crate::proofs::Fit::refuses))]
pub fn a_system_or_the_first_refusal()
    ensures made { (p : PartsRecord) → IsParts p → broken p ≡ []
        → IsOkAnd (compiled p) (λ s. parts_of_system s ≡ system_parts p) }
    ensures refused { (p : PartsRecord) (r : Refusal) (rs : List Refusal) → broken p ≡ r ∷ rs
        → compiled p ≡ Err (refused r) }
{}

// What the steps of a receiver offer, container by container.
ghost use Rattle.std.specs.Prelude.{ℕ, Option, List, [], ◌∷◌, ◌++◌, flat_map};
ghost use Rattle.host.specs.Meaning.{listed};
ghost use Rattle.method_resolution.specs.declared.CandidateKind.TheVariants.{InherentImplCandidate};
ghost use Rattle.method_resolution.specs.Offers.{Offer, offers_as, own_offers, stray_offers, bound_offers, step_offers};
ghost use Rattle.assembly.specs.Contexts.{question};
ghost use Rattle.assembly.specs.Growth.{ListsHold, Added, offer_of, impl_offer, Grows};
ghost use Rattle.assembly.specs.Listing.{AnswersAs};

use super::context::ProbeContext;
use super::lists::CandidateLists;
use host::{ContainerKind, Form, Host, MOST_ENTRIES, Refusal};
use method_resolution::{Candidate, CandidateKind, CandidateStep};

impl<H: Host> ProbeContext<'_, H> {
    // The container's item, if it offers one, goes on its list.
    fn assemble_item(
        &self,
        kind: CandidateKind,
        container: u32,
        lists: &mut CandidateLists<'_>,
    ) -> Result<(), Refusal>
        ensures { (os : List Offer) → ListsHold (question H.meaning self.now) os lists.old → Added (question H.meaning self.now) os (offer_of kind container) lists.old.impl_dups result lists.new }
    {
        let holder = ContainerKind::from(kind);
        let Some(item) = self.impl_or_trait_item(holder, container) else {
            return Ok(());
        };
        self.push_candidate(Candidate { item, kind }, lists)
    }

    // An impl counts once, where it is met first. The number of impls is checked before its items are looked at.
    fn assemble_inherent_impl_probe(
        &self,
        impl_def_id: u32,
        receiver_steps: u32,
        lists: &mut CandidateLists<'_>,
    ) -> Result<(), Refusal>
        ensures { Grows (question H.meaning self.now) lists.old (impl_offer impl_def_id receiver_steps ∷ []) result lists.new }
    {
        if lists.impl_dups.has(&impl_def_id) {
            return Ok(());
        }
        lists
            .impl_dups
            .push(impl_def_id)
            .map_err(|_| Refusal::TooManyImpls)?;
        let kind = CandidateKind::InherentImplCandidate { receiver_steps };
        self.assemble_item(kind, impl_def_id, lists)
    }

    // One container more: an impl unless it was met before, a trait in any case.
    pub(crate) fn assemble_offer(
        &self,
        kind: CandidateKind,
        container: u32,
        lists: &mut CandidateLists<'_>,
    ) -> Result<(), Refusal>
        ensures { Grows (question H.meaning self.now) lists.old (offer_of kind container ∷ []) result lists.new }
    {
        match kind {
            CandidateKind::InherentImplCandidate { receiver_steps } => {
                self.assemble_inherent_impl_probe(container, receiver_steps, lists)
            }
            _ => self.assemble_item(kind, container, lists),
        }
    }

    // All containers on a list of the host, in order. A `map_while` over the places was tried, but not proved: with the
    // closure borrowed the check refuses it before any goal, and with the closure moved in five holes stayed open, the
    // invariant over the adapter's state among them.
    fn assemble_listed<F: Fn(u32) -> Option<u32>>(
        &self,
        kind: CandidateKind,
        offered_at: F,
        lists: &mut CandidateLists<'_>,
    ) -> Result<(), Refusal>
        requires { F.IsAlwaysCallable offered_at }
        ensures { (f : ℕ → Option ℕ) → AnswersAs (F.post offered_at) f → Grows (question H.meaning self.now) lists.old (offers_as kind (listed f)) result lists.new }
    {
        for place in 0..MOST_ENTRIES {
            let Some(container) = offered_at(place) else {
                return Ok(());
            };
            self.assemble_offer(kind, container, lists)?;
        }
        Ok(())
    }

    // The impls on one of the lists that a step asks for.
    fn assemble_listed_impls<F: Fn(u32) -> Option<u32>>(
        &self,
        step: CandidateStep,
        offered_at: F,
        lists: &mut CandidateLists<'_>,
    ) -> Result<(), Refusal>
        requires { F.IsAlwaysCallable offered_at }
        ensures { (f : ℕ → Option ℕ) → AnswersAs (F.post offered_at) f → Grows (question H.meaning self.now) lists.old (offers_as (InherentImplCandidate step.autoderefs) (listed f)) result lists.new }
    {
        let kind = CandidateKind::InherentImplCandidate {
            receiver_steps: step.autoderefs,
        };
        self.assemble_listed(kind, offered_at, lists)
    }

    // The impls that stand with the type, then its incoherent ones.
    fn assemble_impls(
        &self,
        step: CandidateStep,
        lists: &mut CandidateLists<'_>,
    ) -> Result<(), Refusal>
        ensures { Grows (question H.meaning self.now) lists.old (own_offers (H.meaning self.now.host.now) step ++ stray_offers (H.meaning self.now.host.now) step) result lists.new }
    {
        self.assemble_listed_impls(step, |place| self.host.own(step.self_ty, place), lists)?;
        self.assemble_listed_impls(step, |place| self.host.stray(step.self_ty, place), lists)
    }

    // What the form of the step's type makes it offer: an object its principal trait and the traits above it, a type
    // parameter its bounds, the others impls.
    pub(crate) fn assemble_probe(
        &self,
        step: CandidateStep,
        lists: &mut CandidateLists<'_>,
    ) -> Result<(), Refusal>
        ensures { Grows (question H.meaning self.now) lists.old (step_offers (H.meaning self.now.host.now) step) result lists.new }
    {
        let origin = step.self_ty;
        let ty = self.host.form(origin);
        match ty.form {
            Form::Dynamic => {
                let kind = CandidateKind::ObjectCandidate { origin };
                self.assemble_listed(kind, |place| self.host.supers(ty.definition, place), lists)?;
                self.assemble_impls(step, lists)
            }
            Form::Adt | Form::Foreign => self.assemble_impls(step, lists),
            Form::Param => {
                let kind = CandidateKind::WhereClauseCandidate { origin };
                self.assemble_listed(kind, |place| self.host.bound(origin, place), lists)
            }
            Form::Plain
            | Form::Array
            | Form::RawPtrMut
            | Form::Ref
            | Form::RefMut
            | Form::RawPtrConst => {
                self.assemble_listed_impls(step, |place| self.host.stray(origin, place), lists)
            }
            Form::Other => Ok(()),
        }
    }

    // What all steps offer, admitted or not.
    pub(crate) fn assemble_inherent_candidates(
        &self,
        lists: &mut CandidateLists<'_>,
    ) -> Result<(), Refusal>
        ensures { Grows (question H.meaning self.now) lists.old (flat_map (step_offers (H.meaning self.now.host.now)) self.now.steps.now) result lists.new }
    {
        for step in self.steps {
            self.assemble_probe(*step, lists)?;
        }
        Ok(())
    }
}

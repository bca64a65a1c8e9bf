// Laws of plans and commits.
ghost use Rattle.std.specs.Prelude.{◌≡◌, ◌≢◌, ◌⊎◌, ◌≤◌, ◌∷◌, [], ℕ, List, Some};
ghost use Rattle.apron_rules.specs.declared.parts.AirportParts.{AirportParts};
ghost use Rattle.apron_rules.specs.Clash.{HaveDifferentParts};
ghost use Rattle.visit_book.specs.declared.drafts.Draft.{Draft};
ghost use Rattle.visit_book.specs.declared.edits.EditFault.{EditFault};
ghost use Rattle.visit_book.specs.declared.edits.EditFault.TheVariants.{Memory};
ghost use Rattle.visit_book.specs.declared.visits.Visit.{Visit};
ghost use Rattle.visit_book.specs.NewVisits.{new_of};
ghost use Rattle.visit_book.specs.Numbers.{IsNumbered};
ghost use Rattle.visit_book.specs.Slots.{slots_of};
ghost use Rattle.plan_core.specs.Adding.{IsAddable, add_change, with_added};
ghost use Rattle.plan_core.specs.Drafts.{draft_version};
ghost use Rattle.plan_core.specs.Moving.{IsCancellable, cancelled_visit, move_change, with_cancelled};
ghost use Rattle.plan_core.specs.PlanState.{ChangeState, IsInstallable, IsPlan, PlanState, plan_after_change};
ghost use Rattle.plan_core.specs.Rebase.{IsRebased, Rebases, RefusesDraft, plan_after_commit};

/// Each part of visits that are numbered in order has at most one slot, so there is one first
/// clash.
pub fn slots_have_different_parts()
    ensures apart { (airport : AirportParts) (visits : List Visit)
        → IsNumbered visits
        → HaveDifferentParts (slots_of airport visits) }
{}

/// Apart from a lack of memory, a draft has at most one answer: it is refused by only one fault,
/// and not refused if its edits apply and leave a sound plan.
pub fn answer_is_one()
    ensures refusal { (plan : PlanState) (draft : Draft) (fault other : EditFault)
        → IsNumbered plan.visits → fault ≢ Memory → other ≢ Memory
        → RefusesDraft plan draft fault → RefusesDraft plan draft other → fault ≡ other }
    ensures either { (plan : PlanState) (draft : Draft) (new : List Visit) (fault : EditFault)
        → fault ≢ Memory → Rebases plan draft new → ¬ (RefusesDraft plan draft fault) }
{}

/// Apart from a lack of memory, each draft has an answer.
pub fn answer_exists()
    ensures some { (plan : PlanState) (draft : Draft)
        → ((new : List Visit) × Rebases plan draft new)
        ⊎ ((fault : EditFault) × (fault ≢ Memory) × RefusesDraft plan draft fault) }
{}

/// What a rebase gives makes the plan that the commit of the draft makes.
pub fn rebased_is_committed()
    ensures installed { (plan : PlanState) (draft : Draft) (change : ChangeState)
        → IsNumbered plan.visits
        → (rebased : IsRebased plan draft change)
        → plan_after_change plan change ≡ plan_after_commit plan draft rebased.new }
{}

/// The change that adds a visit makes the plan that has this visit last.
pub fn added_is_with_added()
    ensures installed { (plan : PlanState) (visit : Visit)
        → IsAddable plan visit
        → plan_after_change plan (add_change plan visit) ≡ with_added plan (new_of visit) }
{}

/// The change that cancels a visit makes the plan in which it is cancelled.
pub fn cancelling_is_with_cancelled()
    ensures installed { (plan : PlanState) (visit : Visit)
        → IsNumbered plan.visits
        → IsCancellable plan visit
        → plan_after_change plan (move_change plan (cancelled_visit visit ∷ []))
        ≡ with_cancelled plan visit }
{}

/// A plan stays a plan, and the version that a draft made is one that the plan had.
pub fn plan_is_kept()
    ensures installed { (plan : PlanState) (change : ChangeState)
        → IsPlan plan
        → IsInstallable plan change
        → IsPlan (plan_after_change plan change) }
    ensures drafts { (plan : PlanState) (desk : List ℕ) (number version : ℕ)
        → IsPlan plan
        → draft_version plan.drafts desk number ≡ Some version
        → (1 ≤ version) × (version ≤ plan.version) }
{}

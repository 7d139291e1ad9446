//! Repair times of plans: short runs within T slots, every packet within D, and neither deadline could be earlier. Definitions,
//! lemmas, and two laws.
#![tactic(auto)]

ghost use Rattle.std.specs.Prelude.{ℕ, ◌≤◌};
ghost use Rattle.codes.specs.Link.{link_of};
ghost use Rattle.plan.specs.Numbers.{PlanNumbers, IsPlan};
ghost use Rattle.plan.specs.Codes.{CodeOf, plan_link};
ghost use Rattle.plan.specs.declared.code.PlanCode.{PlanCode};
ghost use Rattle.repair.specs.Law.{RepairsInTime};
ghost use Rattle.repair.specs.Tight.{NoEarlier};

use arithmetic::arithmetic::Arithmetic;
use codes::code::Code;
use plan::PlanCode;

/// Promises, for every plan and every arithmetic, that packets are repaired in time, on the plan's link, and on that of a code made
/// of its parts with any number of symbols. Wherever each run of losses is short or long, and the arrivals behind it are enough, all
/// streams that agree with what was heard have the same packet in each slot of a short run once the slot T after it is settled, and
/// in every slot once the slot D after it is. It does nothing.
pub fn plans_repair_in_time<A: Arithmetic>()
    ensures plan { (plan : PlanNumbers) → IsPlan plan
        → RepairsInTime (plan_link A.operations plan) plan }
    ensures code { let code = ⟦<PlanCode as Code<A::Coef>>⟧ in
        let link = link_of A.operations code.shape code.coefficients in
        (plan : PlanNumbers) (c : PlanCode) (l : ℕ) → IsPlan plan
        → CodeOf plan.burst plan.width plan.stretch c → RepairsInTime (link c l) plan }
{}

/// Promises, for the same links with a symbol at least, that neither deadline could be a slot earlier. There is a log up to the slot
/// before slot T in which slot 0 alone was lost, and one up to the slot before slot D in which the first α·B slots were lost. The
/// plan allows both, and after each there are two streams that agree with what was heard and differ in the packet of slot 0. It does
/// nothing.
pub fn deadlines_are_tight<A: Arithmetic>()
    ensures plan { (plan : PlanNumbers) → IsPlan plan
        → NoEarlier (plan_link A.operations plan) plan }
    ensures code { let code = ⟦<PlanCode as Code<A::Coef>>⟧ in
        let link = link_of A.operations code.shape code.coefficients in
        (plan : PlanNumbers) (c : PlanCode) (l : ℕ) → IsPlan plan → 1 ≤ l
        → CodeOf plan.burst plan.width plan.stretch c → NoEarlier (link c l) plan }
{}

//! Makes runs by rounds and prints them.
ghost use Rattle.std.specs.Prelude.{◌≡◌, length, IfOk};
ghost use Rattle.pop_model.specs.Stacks.{variables_of};
ghost use Rattle.pop_print.specs.declared.facts.Facts.TheVariants.{Formula as FormulaFacts};
ghost use Rattle.pop_print.specs.Ends.{IsOfPairs};
ghost use Rattle.prs_rounds.specs.Units.{IsListed, IsIndexOf};
ghost use Rattle.told_runs.specs.Outcomes.{AnswersBy};
ghost use Rattle.told_runs.specs.Ends.{IsRoundsEndOf};

use crate::call::Call;
use crate::running::status_by;
use growing_instances::GrowingInstance;
use job_subjects::Answer;
use pop_instance::{Family, Index, Instance};
use pop_print::text_of_rounds;
use run_makers::Maker;
use std::alloc::{AllocError, Global};

// The index of the instance's listed events.
fn index_of(alloc: Global, instance: &Instance) -> Result<Index, AllocError>
    requires listed { IsListed instance.now.family }
    ensures index { IfOk result (λ index. IsIndexOf instance.now.family index) }
    ensures count { IfOk result
        (λ index. length index ≡ variables_of instance.now.stacks) }
{
    // Read for its contract, which says what holds of every instance.
    let _units = instance.units();
    match instance.family() {
        Family::Listed(events) => Ok(Index::build(alloc, events, instance.stacks().count())?),
        Family::Cycles(_) => unreachable!(),
    }
}

// Makes the run by rounds of an instance of a formula's events, and prints its end.
fn tell_rounds<M: Maker>(call: &Call<M>, instance: &Instance) -> Result<Answer, AllocError>
    requires maker { M.fits call.now.maker.now }
    requires pairs { IsOfPairs (variables_of instance.now.stacks) instance.now }
    ensures { IfOk result (λ a.
        AnswersBy (IsRoundsEndOf (FormulaFacts (variables_of instance.now.stacks)) instance.now)
        a.status a.text.items) }
{
    let index = index_of(call.alloc, instance)?;
    let rounds = call.maker.rounds(call.alloc, instance, &index);
    drop(index);
    let end = rounds?;
    let text = text_of_rounds(call.alloc, instance.stacks().count(), instance, &end);
    let status = status_by(&end.stuck);
    drop(end);
    Ok(Answer {
        status,
        text: text?,
    })
}

/// Like `tell_rounds`, for an instance that may grow. The run is made at the last height at once:
/// growing in stages would give the same result more slowly.
pub fn round_and_tell<M: Maker>(
    call: &Call<M>,
    growing: GrowingInstance,
) -> Result<Answer, AllocError>
    requires maker { M.fits call.now.maker.now }
    requires pairs { IsOfPairs (variables_of growing.stacks) growing }
    ensures { IfOk result (λ a.
        AnswersBy (IsRoundsEndOf (FormulaFacts (variables_of growing.stacks)) growing)
        a.status a.text.items) }
{
    let instance = growing.raised();
    let told = tell_rounds(call, &instance);
    drop(instance);
    told
}

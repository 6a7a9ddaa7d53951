//! Carries out scripts, and notes in a log what is spoken.
ghost use Rattle.std.specs.Prelude.{◌≡◌, ◌≤◌, [], List, IfErr, IfOk, count_by};
ghost use Rattle.hart_line.specs.Types.{Primary, Secondary, Spoken};
ghost use Rattle.hart_master.specs.declared.hand.Hand.TheVariants.{Empty};
ghost use Rattle.hart_line.specs.world.Faults.{IsNotDetectable};
ghost use Rattle.hart_line.specs.world.Kept.{KeepsPromises};
ghost use Rattle.hart_line.specs.world.Step.{Led};
ghost use Rattle.hart_line.specs.world.Needs.{is_submission};
ghost use Rattle.hart_line.specs.world.Noted.{IsLoggedFault, IsNotingFault};
ghost use Rattle.hart_line.specs.world.Promises.{start_from};

use crate::line::Line;
use crate::line::log::Log;
use crate::line::report::Ending;
use crate::line::room::room_for_outcomes;
use crate::{Filling, LineEvent, LineFault, Outcome};
use hart_device::laws::processes_are_well_made;
use hart_device::{Device, Process, RegisterStore};
use hart_master::Master;
use std::alloc::Global;

/// Carries out a script as [`run`](crate::run) does. After each event, notes the frames of this event in the log, and then keeps none of
/// these frames.
///
/// # Errors
///
/// [`LineFault::Memory`] if memory was refused. It can be refused before the first event, for an outcome of each submission. It can also be
/// refused after an event, in the log, for a frame that was spoken in this event.
///
/// [`LineFault::Undetected`] for the same leg as in [`run`](crate::run), if no memory was refused before this leg. Everything that was
/// spoken before the event of this leg has then been noted. Only the fault is returned.
#[tactic(auto, using(std::proofs::lemmas::Grind::common_steps))]
pub fn run_logged<S: RegisterStore + Drop, L: Log>(
    alloc: Global,
    device: Device<S>,
    primary: Master,
    secondary: Master,
    events: &[LineEvent],
    process: &Process,
    log: &mut L,
) -> Result<Ending<S>, LineFault>
    requires primary { (primary.id ≡ Primary) × (primary.hand ≡ Empty) }
    requires secondary { (secondary.id ≡ Secondary) × (secondary.hand ≡ Empty) }
    // The script has a last world. The device, the outcomes and the noted frames are those of this world.
    ensures led { let start = start_from device process.now primary secondary in IfOk result (λ ending.
        (spoken : List Spoken) × Led start events.now ending.device ending.outcomes spoken × L.notes log.old spoken log.new) }
    // The script, the returned device and the returned outcomes keep the promises that are made of every script.
    ensures promises { IfOk result (λ ending.
        KeepsPromises (start_from device process.now primary secondary) events.now ending.device ending.outcomes) }
    // A fault has one of three reasons. First, a leg has undetected damage: the fault names the first such leg, and what was spoken before
    // the event of this leg has been noted. Second, there is no room for the outcomes: the fault has their number, and nothing has been
    // noted. Third, a spoken frame has no room in the log: the fault has the room that is missing.
    ensures fault { let start = start_from device process.now primary secondary in
        IfErr result (IsLoggedFault L.needs (λ spoken. L.notes log.old spoken log.new) start events.now) }
    // A clean or lost leg never stops a script, nor does a leg in which the message sent is heard with marked or check damage
    // (docs/PROOFS.md).
    ensures detectable_damage_is_detected { IfErr result (IsNotDetectable (start_from device process.now primary secondary) events.now) }
{
    let outcomes = room_for_outcomes(alloc, events)?;
    carry_out(outcomes, device, primary, secondary, events, process, log)
}

/// Carries out a script as [`run_logged`] does, with memory for its outcomes already reserved, so that only the log can run out of memory.
/// If [`run`](crate::run) called [`run_logged`] in place of this function, no contract would say which of the reservations may be refused.
pub fn carry_out<S: RegisterStore + Drop, L: Log>(
    outcomes: Filling<Outcome>,
    device: Device<S>,
    primary: Master,
    secondary: Master,
    events: &[LineEvent],
    process: &Process,
    log: &mut L,
) -> Result<Ending<S>, LineFault>
    requires empty { outcomes.items ≡ [] }
    requires room { count_by is_submission events.now ≤ outcomes.room }
    requires primary { (primary.id ≡ Primary) × (primary.hand ≡ Empty) }
    requires secondary { (secondary.id ≡ Secondary) × (secondary.hand ≡ Empty) }
    ensures led { let start = start_from device process.now primary secondary in IfOk result (λ ending.
        (spoken : List Spoken) × Led start events.now ending.device ending.outcomes spoken × L.notes log.old spoken log.new) }
    ensures promises { IfOk result (λ ending.
        KeepsPromises (start_from device process.now primary secondary) events.now ending.device ending.outcomes) }
    ensures stopped { let start = start_from device process.now primary secondary in IfErr result (λ fault.
        IsNotingFault L.needs (λ spoken. L.notes log.old spoken log.new) start events.now fault × IsNotDetectable start events.now fault) }
{
    // A no-op: its contract says that the process is well made.
    processes_are_well_made(process);
    let mut line = Line::new(outcomes, device, primary, secondary);
    for (index, event) in events.iter().enumerate() {
        if let Err(leg) = line.step(event, process) {
            return Err(LineFault::Undetected { event: index, leg });
        }
        line.tell(log)?;
    }
    Ok(line.into_ending())
}

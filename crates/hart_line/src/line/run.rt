//! Carries out scripts.
ghost use Rattle.std.specs.Prelude.{◌≡◌, IfErr, IfOk};
ghost use Rattle.hart_line.specs.Types.{Primary, Secondary};
ghost use Rattle.hart_master.specs.declared.hand.Hand.TheVariants.{Empty};
ghost use Rattle.hart_line.specs.world.Faults.{IsFault, IsNotDetectable};
ghost use Rattle.hart_line.specs.world.Kept.{KeepsPromises};
ghost use Rattle.hart_line.specs.world.Step.{Led};
ghost use Rattle.hart_line.specs.world.Promises.{start_from};

use crate::line::log::KeptFrames;
use crate::line::logged::carry_out;
use crate::line::room::{room_for_all_spoken, room_for_outcomes};
use crate::{LineEvent, LineFault, Report, SpokenList};
use hart_device::{Device, Process, RegisterStore};
use hart_master::Master;
use std::alloc::Global;

/// Carries out the events of a script, in order.
///
/// In a turn the master sends the request in its hand, if there is one. The device hears the characters of the leg up, and answers. Both
/// masters hear the characters of the leg down. If the master of the turn then still awaits a reply, this master stops waiting. The device
/// and both masters hear noise. Both masters also hear the device's answer to noise, without damage. A restart sets both cold start bits of
/// the device.
///
/// The masters are the primary and the secondary master, with no request in hand. The device is handed the values of `process`.
///
/// # Errors
///
/// [`LineFault::Memory`] if memory was refused. Before the first event, memory is reserved for an outcome of each submission, for two
/// spoken frames of each turn and for one spoken frame of each noise. Otherwise [`LineFault::Undetected`] for the first leg with undetected
/// damage: a frame was heard that was not sent in this leg, or several frames were heard. The fault has the number of the event, counted
/// from 0. Only the fault is returned; the device is dropped, so its store has to be `Drop`.
pub fn run<S: RegisterStore + Drop>(
    alloc: Global,
    device: Device<S>,
    primary: Master,
    secondary: Master,
    events: &[LineEvent],
    process: &Process,
) -> Result<Report<S>, LineFault>
    requires primary { (primary.id ≡ Primary) × (primary.hand ≡ Empty) }
    requires secondary { (secondary.id ≡ Secondary) × (secondary.hand ≡ Empty) }
    // The script has a last world. The device, the outcomes and the spoken frames are those of this world.
    ensures led { IfOk result (λ report.
        Led (start_from device process.now primary secondary) events.now report.device report.outcomes report.spoken) }
    // The script, the returned device and the returned outcomes keep the promises that are made of every script.
    ensures promises { IfOk result (λ report.
        KeepsPromises (start_from device process.now primary secondary) events.now report.device report.outcomes) }
    // A fault names the first leg with undetected damage, or the number of outcomes or spoken frames for which there is no room.
    ensures fault { IfErr result (IsFault (start_from device process.now primary secondary) events.now) }
    // A clean or lost leg never stops a script, nor does a leg in which the message sent is heard with marked or check damage
    // (docs/PROOFS.md).
    ensures detectable_damage_is_detected { IfErr result (IsNotDetectable (start_from device process.now primary secondary) events.now) }
{
    let outcomes = room_for_outcomes(alloc, events)?;
    let frames = room_for_all_spoken(alloc, events)?;
    let mut kept = KeptFrames { frames };
    let ending = carry_out(
        outcomes, device, primary, secondary, events, process, &mut kept,
    )?;
    Ok(Report {
        device: ending.device,
        outcomes: ending.outcomes,
        spoken: SpokenList::new(kept.frames.finish()),
    })
}

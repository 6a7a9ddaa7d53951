//! The memory that a script needs. Memory that stays unused costs only address space.
ghost use Rattle.std.specs.Prelude.{◌≡◌, ◌≤◌, ◌*◌, [], IfErr, IfOk, count_by, length};
ghost use Rattle.hart_line.specs.world.Needs.{IsNeededBy, IsNeededForOutcomes, is_noise, is_submission, is_turn, most_spoken};

use crate::{Filling, LineEvent, NoRoom, Outcome, Spoken};
use std::alloc::Global;

/// Reserves memory for an outcome of each submission in these events. If the memory is refused, the error has the number of submissions.
pub fn room_for_outcomes(alloc: Global, events: &[LineEvent]) -> Result<Filling<Outcome>, NoRoom>
    ensures empty { IfOk result (λ outcomes. outcomes ≡ record { items = []; room = count_by is_submission events.now }) }
    ensures refused { IfErr result (λ none. IsNeededForOutcomes events.now none.items) }
{
    Filling::with_room(alloc, submissions(events))
}

/// Reserves memory for the greatest number of frames that can be spoken in these events. If the memory is refused, the error has this
/// number.
pub fn room_for_all_spoken(alloc: Global, events: &[LineEvent]) -> Result<Filling<Spoken>, NoRoom>
    ensures empty { IfOk result (λ spoken. spoken ≡ record { items = []; room = most_spoken events.now }) }
    ensures refused { IfErr result (λ none. IsNeededBy events.now none.items) }
{
    Filling::with_room(alloc, most_spoken(events))
}

/// Returns the number of submissions among these events.
fn submissions(events: &[LineEvent]) -> usize
    ensures count { result ≡ count_by is_submission events.now }
    ensures bound { result ≤ length events.now }
{
    events
        .iter()
        .filter(|event| matches!(event, LineEvent::Submit { .. }))
        .count()
}

/// Returns the greatest number of frames that can be spoken in these events: two in each turn, and one at each noise.
fn most_spoken(events: &[LineEvent]) -> usize
    ensures { result ≡ most_spoken events.now }
{
    2 * turns(events) + noises(events)
}

/// Returns the number of turns among these events.
fn turns(events: &[LineEvent]) -> usize
    ensures count { result ≡ count_by is_turn events.now }
    ensures bound { result ≤ length events.now }
{
    events
        .iter()
        .filter(|event| matches!(event, LineEvent::Turn { .. }))
        .count()
}

/// Returns the number of noise events among these events.
fn noises(events: &[LineEvent]) -> usize
    ensures count { result ≡ count_by is_noise events.now }
    ensures bound { result ≤ length events.now }
{
    events
        .iter()
        .filter(|event| matches!(event, LineEvent::Noise(_)))
        .count()
}

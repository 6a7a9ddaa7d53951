//! Laws about the definitions alone, for the crates that build on this crate.
ghost use Rattle.std.specs.Prelude.{◌≡◌, ◌⊎◌, ◌<◌, ◌≤◌, ◌^◌, [], List, ℕ, Some};
ghost use Rattle.std.specs.List.{AllPass};
ghost use Rattle.hart_line.specs.Types.{Address, MasterId, Character, Reply, LineEvent, Leg, LineFault, Memory, Undetected};
ghost use Rattle.hart_values.specs.declared.address.Address.TheVariants.{Unique};
ghost use Rattle.hart_commands.specs.declared.content.ReplyContent.TheVariants.{Identity};
ghost use Rattle.hart_device.specs.Identity.{AreIdentityParts, identity_content, own_numbers};
ghost use Rattle.hart_device.specs.answer.Answer.{after_refusal};
ghost use Rattle.hart_device.specs.declared.identity_parts.IdentityParts.{IdentityParts};
ghost use Rattle.hart_master.specs.Unique.{unique_in};
ghost use Rattle.hart_line.specs.script.Items.{AreItems};
ghost use Rattle.hart_line.specs.script.Rows.{HasFirstBadLine, IsScript, IsScriptFault, is_skipped, lines_in_words};
ghost use Rattle.hart_line.specs.script.Words.{IsAddressWord, IsCommandWord, IsDataWord, IsWho};
ghost use Rattle.hart_line.specs.world.Faults.{AreAllDetected, IsFault, IsNotDetectable};
ghost use Rattle.hart_line.specs.world.Kept.{KeepsPromises};
ghost use Rattle.hart_line.specs.world.Noted.{IsLoggedFault};
ghost use Rattle.hart_line.specs.world.Promises.{AreWellMade, IsRefusedByDevice, IsWellMadeStart};
ghost use Rattle.hart_line.specs.world.Step.{IsLast};
ghost use Rattle.hart_line.specs.world.World.{Start, World, first_world, state_of};
ghost use Rattle.hart_line.specs.declared.memory.NoRoom.{NoRoom};

use crate::Log;

/// A word means at most one master, one address, one command, one list of data bytes and one list of characters.
pub fn words_have_one_value()
    ensures who { (word : List ℕ) (m n : MasterId) → IsWho word m → IsWho word n → m ≡ n }
    ensures address { (word : List ℕ) (m n : Address) → IsAddressWord word m → IsAddressWord word n → m ≡ n }
    ensures command { (word : List ℕ) (m n : ℕ) → IsCommandWord word m → IsCommandWord word n → m ≡ n }
    ensures payload { (word xs ys : List ℕ) → IsDataWord word xs → IsDataWord word ys → xs ≡ ys }
    ensures items { (word : List ℕ) (xs ys : List Character) → AreItems word xs → AreItems word ys → xs ≡ ys }
{}

/// Every text has a script or a first bad line. By [`texts_have_one_script`], no text has both.
pub fn every_text_is_a_script_or_has_a_first_bad_line()
    ensures { (text : List ℕ)
        → ((events : List LineEvent) × IsScript text events) ⊎ ((number : ℕ) × HasFirstBadLine text number) }
{}

/// A text has at most one script and at most one first bad line. A text with a script has no first bad line.
pub fn texts_have_one_script()
    ensures one_script { (text : List ℕ) (xs ys : List LineEvent) → IsScript text xs → IsScript text ys → xs ≡ ys }
    ensures one_bad_line { (text : List ℕ) (number other : ℕ)
        → HasFirstBadLine text number → HasFirstBadLine text other → number ≡ other }
    ensures no_bad_line { (text : List ℕ) (events : List LineEvent) (number : ℕ)
        → IsScript text events → HasFirstBadLine text number → ⊥ }
{}

/// A script has at most one last world: exactly one if all damage is detected, and none if an event has undetected damage. All faults for
/// undetected damage in a script name the same event and the same leg.
pub fn scripts_have_one_last_world()
    ensures one_world { (start : Start) (events : List LineEvent) (a b : World)
        → IsLast start events a → IsLast start events b → a ≡ b }
    ensures detected { (start : Start) (events : List LineEvent)
        → AreAllDetected start (first_world start) events → (last : World) × IsLast start events last }
    ensures no_fault { (start : Start) (events : List LineEvent) (world : World) (number : ℕ) (leg : Leg)
        → IsLast start events world → IsFault start events (Undetected number leg) → ⊥ }
    ensures one_fault { (start : Start) (events : List LineEvent) (number other : ℕ) (leg another : Leg)
        → IsFault start events (Undetected number leg) → IsFault start events (Undetected other another)
        → (number ≡ other) × (leg ≡ another) }
{}

/// `Memory` is never the fault of a script without events, nor of a text whose lines are all skipped.
pub fn empty_scripts_need_no_room<L: Log>()
    ensures events { (start : Start) (none : NoRoom) → IsFault start [] (Memory none) → ⊥ }
    ensures noted { (old new : L) (start : Start) (none : NoRoom)
        → IsLoggedFault L.needs (λ spoken. L.notes old spoken new) start [] (Memory none) → ⊥ }
    ensures text { (text : List ℕ) (none : NoRoom) → AllPass is_skipped (lines_in_words text)
        → IsScriptFault text (Memory none) → ⊥ }
{}

/// From the identity in a reply with code 0, a master reads a unique address: the unique address of the device that replied.
#[tactic(auto, using(std::proofs::lemmas::Grind::common_steps, std::proofs::lemmas::Bool::Decides::nat_tests))]
pub fn identities_give_their_address()
    ensures { (parts : IdentityParts) (counter extended_device_status : ℕ) (reply : Reply) → AreIdentityParts parts
        → reply.code ≡ 0 → reply.content ≡ Identity (identity_content parts counter extended_device_status)
        → unique_in reply ≡ Some (Unique (own_numbers parts)) }
{}

/// If the device refuses a command in a turn of a script, only the cold start bit of the turn's master changes. The reply shows and clears
/// this bit. If the device does not answer, nothing in the device changes.
pub fn refused_turns_change_nothing()
    ensures { (start : Start) (events : List LineEvent) (before next : World)
        (refused : IsRefusedByDevice start events before next)
        → state_of start.device next ≡ after_refusal (state_of start.device before) refused.frame }
{}

/// In the first world of a script, the device is as it was given. If the device, the process values and the requests are well made, the
/// device and the outcomes of the last world keep the promises (`KeepsPromises`). Every value of their types is well made. A script never
/// fails because of detectable damage.
pub fn scripts_keep_their_promises()
    ensures first_world { (start : Start) → start.device.counter < 2 ^ 16 → state_of start.device (first_world start) ≡ start.device }
    ensures kept { (start : Start) (events : List LineEvent) (world : World)
        → IsWellMadeStart start → AreWellMade events → IsLast start events world
        → KeepsPromises start events (state_of start.device world) world.outcomes }
    ensures detected { (start : Start) (events : List LineEvent) (fault : LineFault)
        → 5 ≤ start.device.identity.response_preambles → IsFault start events fault → IsNotDetectable start events fault }
{}

//! Laws about damage that can be detected. They follow from the definitions alone, and are for the crates that use this crate.
ghost use Rattle.std.specs.Prelude.{◌⊎◌, List, ℕ, [], ◌∷◌, length};
ghost use Rattle.hart_frame.specs.heard.Character.{Character};
ghost use Rattle.hart_frame.specs.heard.Damage.{IsCheckDamage, IsMarkedDamage};
ghost use Rattle.hart_frame.specs.heard.Damage.{faulty_address, identity_request, other_address, other_request, preamble_in_body};
ghost use Rattle.hart_frame.specs.wire.FrameParts.{FrameParts};
ghost use Rattle.hart_frame.specs.heard.Frames.{AreFrames};

/// A damaged message has no frame other than its own.
///
/// In marked damage, every changed character has a fault bit. The message then has no frame, or only its own frame, which starts at the
/// message's delimiter. In check damage, every byte is heard without faults but the parity is not even. The message then has no frame.
/// Neither kind allows two faultless `FF` in a row after the delimiter, since another frame could stand there. Check damage keeps the
/// delimiter and the byte count, since they say how long the body is.
pub fn damaged_messages_have_no_other_frame()
    ensures marked { (frame : FrameParts) (preambles : ℕ) (chars : List Character) (damage : IsMarkedDamage frame preambles chars)
        → AreFrames chars 0 [] ⊎ AreFrames chars 0 (record { start = damage.left; stop = length chars; frame = frame } ∷ []) }
    ensures check { (frame : FrameParts) (preambles : ℕ) (chars : List Character) → IsCheckDamage frame preambles chars
        → AreFrames chars 0 [] }
{}

/// Shows each kind of damage by example: a list of characters that is a request with this damage, and a list that is not.
pub fn damage_by_example()
    ensures marked { IsMarkedDamage identity_request 5 faulty_address }
    ensures not_marked { IsMarkedDamage identity_request 5 other_address → ⊥ }
    ensures check { IsCheckDamage identity_request 5 other_address }
    ensures not_check { IsCheckDamage identity_request 5 other_request → ⊥ }
    ensures not_with_a_preamble { IsCheckDamage identity_request 5 preamble_in_body → ⊥ }
{}

//! Laws: facts about the definitions, not about code. They are for the crates that use this crate.
ghost use Rattle.std.specs.Prelude.{◌≡◌, ◌↔◌, Bool, true, false, List, ℕ};
ghost use Rattle.hart_values.specs.address.AddressBytes.{IsAddressBytes};
ghost use Rattle.hart_values.specs.hart_date.Calendar.{IsDateBytes, is_date};
ghost use Rattle.hart_values.specs.packed_text.Packing.{IsPacked, IsTextFault};
ghost use Rattle.hart_values.specs.declared.fault.ValueFault.{ValueFault};
ghost use Rattle.hart_values.specs.declared.master_id.MasterId.{MasterId};
ghost use Rattle.hart_values.specs.declared.address.Address.{Address};

use crate::{CommFaults, DeviceStatus};

/// Address bytes determine the master bit, the burst bit and the address, and these three determine the bytes.
#[tactic(auto, using(crate::proofs::lemmas::Laws::address_bytes_are_unambiguous))]
pub fn address_bytes_are_unambiguous()
    ensures one_reading { (m n : MasterId) (b c : Bool) (x y : Address) (bytes : List ℕ)
        → IsAddressBytes m b x bytes → IsAddressBytes n c y bytes → (m ≡ n) × (b ≡ c) × (x ≡ y) }
    ensures one_list { (m : MasterId) (b : Bool) (x : Address) (bytes others : List ℕ)
        → IsAddressBytes m b x bytes → IsAddressBytes m b x others → bytes ≡ others }
{}

/// A text has at most one packed form, and bytes are the packed form of at most one text.
#[tactic(auto, using(crate::proofs::lemmas::Laws::packed_text_and_bytes_determine_each_other))]
pub fn packed_text_and_bytes_determine_each_other()
    ensures one_list { (text bytes others : List ℕ)
        → IsPacked text bytes → IsPacked text others → bytes ≡ others }
    ensures one_text { (text others bytes : List ℕ)
        → IsPacked text bytes → IsPacked others bytes → text ≡ others }
{}

/// A text is refused with at most one fault.
#[tactic(auto, using(crate::proofs::lemmas::Laws::texts_have_one_fault))]
pub fn texts_have_one_fault()
    ensures { (characters : ℕ) (text : List ℕ) (fault other : ValueFault)
        → IsTextFault characters text fault → IsTextFault characters text other → fault ≡ other }
{}

/// The test `is_date` is true exactly for the bytes of a date.
pub fn dates_are_decided()
    ensures date { (bytes : List ℕ) → (is_date bytes ≡ true) ↔ IsDateBytes bytes }
    ensures no_date { (bytes : List ℕ) → (is_date bytes ≡ false) ↔ (¬ IsDateBytes bytes) }
{}

/// The named communication faults have these bits (HCF_SPEC-099).
pub fn communication_faults_have_their_bits()
    ensures vertical_parity { CommFaults.VERTICAL_PARITY ≡ 0x40 }
    ensures overrun { CommFaults.OVERRUN ≡ 0x20 }
    ensures framing { CommFaults.FRAMING ≡ 0x10 }
    ensures longitudinal_parity { CommFaults.LONGITUDINAL_PARITY ≡ 0x08 }
    ensures buffer_overflow { CommFaults.BUFFER_OVERFLOW ≡ 0x02 }
{}

/// The named states of a device have these bits in its device status (HCF_SPEC-099).
pub fn device_states_have_their_bits()
    ensures device_malfunction { DeviceStatus.DEVICE_MALFUNCTION ≡ 0x80 }
    ensures configuration_changed { DeviceStatus.CONFIGURATION_CHANGED ≡ 0x40 }
    ensures cold_start { DeviceStatus.COLD_START ≡ 0x20 }
    ensures more_status_available { DeviceStatus.MORE_STATUS_AVAILABLE ≡ 0x10 }
    ensures loop_current_fixed { DeviceStatus.LOOP_CURRENT_FIXED ≡ 0x08 }
    ensures loop_current_saturated { DeviceStatus.LOOP_CURRENT_SATURATED ≡ 0x04 }
    ensures non_primary_variable_out_of_limits { DeviceStatus.NON_PRIMARY_VARIABLE_OUT_OF_LIMITS ≡ 0x02 }
    ensures primary_variable_out_of_limits { DeviceStatus.PRIMARY_VARIABLE_OUT_OF_LIMITS ≡ 0x01 }
{}

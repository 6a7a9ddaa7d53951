//! A device: its identity and its state.
ghost use Rattle.std.specs.Prelude.{◌≡◌, false};
ghost use Rattle.hart_values.specs.EachMaster.{of_master};
ghost use Rattle.hart_frame.specs.wire.Message.{IsPreambleCount};
ghost use Rattle.hart_commands.specs.Registers.{AreValid};
ghost use Rattle.hart_device.specs.Device.{IsDevice, for_both, new_device, restarted};
ghost use Rattle.hart_device.specs.Registers.{values_of};

use crate::{Identity, RegisterStore, RegisterValues};
use hart_values::{EachMaster, MasterId};
use std::marker::Model;

/// A HART field device (HCF_SPEC-081, HCF_SPEC-127), generic over the store of its registers.
///
/// In contracts, a device is its identity, the contents of its registers, its configuration change counter and write protection, and for
/// each master a configuration-changed bit and a cold start bit. Every register holds bytes that are valid in it, so the image of a device
/// can always be read.
#[derive(Debug, Drop)]
pub struct Device<S: RegisterStore> {
    pub(crate) identity: Identity,
    pub(crate) registers: S,
    pub(crate) counter: u16,
    pub(crate) changed: EachMaster<bool>,
    pub(crate) protected: bool,
    pub(crate) cold_start: EachMaster<bool>,
}

impl<S: RegisterStore> Model for Device<S> {
    ghost use Rattle.std.specs.Prelude.{◌<◌, ◌^◌};
    ghost use Rattle.hart_commands.specs.Registers.{AreValid};
    ghost use Rattle.hart_device.specs.Device.{DeviceState};

    ghost Value = { DeviceState };

    ghost view = { λ device. record {
      identity = device.identity;
      contents = S.contents device.registers;
      counter = device.counter;
      changed = device.changed;
      protected = device.protected;
      cold_start = device.cold_start;
    } };

    ghost invariant = { λ device. AreValid (S.contents device.registers) × (device.counter < 2 ^ 16) };
}

impl<S: RegisterStore> Device<S> {
    /// Makes a device with this identity and these register values. Its counter is 0, its configuration-changed bits and cold start
    /// bits are clear, and it is not write protected.
    pub fn new(identity: Identity, values: &RegisterValues) -> Self
        ensures { result ≡ new_device identity values.now }
    {
        let changed = EachMaster {
            primary: false,
            secondary: false,
        };
        Device::restored(identity, values, 0, changed, false)
    }

    /// Makes a device with these values, counter, configuration-changed bits and write protection. Its cold start bits are clear.
    pub(crate) fn restored(
        identity: Identity,
        values: &RegisterValues,
        counter: u16,
        changed: EachMaster<bool>,
        protected: bool,
    ) -> Self
        ensures { result ≡ record {
          identity = identity;
          contents = values_of values.now;
          counter = counter;
          changed = changed;
          protected = protected;
          cold_start = for_both false;
        } }
    {
        Device {
            identity,
            registers: S::with(values),
            counter,
            changed,
            protected,
            cold_start: EachMaster {
                primary: false,
                secondary: false,
            },
        }
    }

    /// Restarts the device: sets the cold start bits of both masters, and changes nothing else. So the first reply with a response code to
    /// each master shows a cold start, and later replies do not.
    pub fn restart(&mut self)
        ensures { self.new ≡ restarted self.old }
    {
        self.cold_start = EachMaster {
            primary: true,
            secondary: true,
        };
    }

    /// Returns true if the next reply with a response code to this master shows a cold start.
    pub fn cold_start(&self, master: MasterId) -> bool
        ensures { result ≡ of_master master self.now.cold_start }
    {
        *self.cold_start.get(master)
    }

    /// Sets the cold start bits of both masters to the bits in `cold_start`, and leaves the rest of the device unchanged. This is for
    /// a device from [`Device::from_image`], which has clear cold start bits.
    pub fn restore_cold_start(&mut self, cold_start: EachMaster<bool>)
        ensures { self.new ≡ record self.old { cold_start = cold_start } }
    {
        self.cold_start = cold_start;
    }

    /// Switches write protection on or off. A protected device refuses configuration writes.
    pub fn protect(&mut self, protected: bool)
        ensures { self.new ≡ record self.old { protected = protected } }
    {
        self.protected = protected;
    }

    /// Returns true if the device is write protected.
    pub fn is_protected(&self) -> bool
        ensures { result ≡ self.now.protected }
    {
        self.protected
    }

    /// Returns the store of the registers.
    pub fn registers(&self) -> &S
        ensures contents { S.contents result.now ≡ self.now.contents }
        ensures valid { AreValid self.now.contents }
    {
        &self.registers
    }

    /// Returns the configuration change counter: the number of executed configuration writes modulo 65536.
    pub fn counter(&self) -> u16
        ensures { result ≡ self.now.counter }
    {
        self.counter
    }

    /// Returns this master's configuration-changed bit: true if a configuration write was executed since the master last reset this bit.
    pub fn changed(&self, master: MasterId) -> bool
        ensures { result ≡ of_master master self.now.changed }
    {
        *self.changed.get(master)
    }

    /// Returns the number of preamble bytes of the device's replies, 5 to 20.
    pub fn response_preambles(&self) -> u8
        ensures same { result ≡ self.now.identity.response_preambles }
        ensures in_range { IsPreambleCount result }
        ensures device { IsDevice self.now }
    {
        self.identity.response_preambles()
    }
}

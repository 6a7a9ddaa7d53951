//! Commands that the maker of a device adds to the known commands.
ghost use Rattle.std.specs.Prelude.{◌≡◌, ◌≤◌, length};
ghost use Rattle.hart_device.specs.Device.{after_reply};
ghost use Rattle.hart_device.specs.answer.Own.{after_own, asks_own, own_reply};

use crate::{Device, Process, RegisterStore};
use hart_commands::command_name;
use hart_frame::{Frame, Payload};
use hart_values::ResponseCode;

impl<S: RegisterStore> Device<S> {
    /// Returns true if a frame asks for one of the maker's own commands. Such a frame is a request without expansion bytes to the device's
    /// unique address, and its command is not known. [`Device::receive`] refuses such a request with
    /// [`ResponseCode::COMMAND_NOT_IMPLEMENTED`]. Instead, a maker carries out the request and calls [`Device::answer_own`].
    pub fn asks_own(&self, frame: &Frame) -> bool
        ensures { result ≡ asks_own self.now frame.now }
    {
        self.is_addressed(frame) && command_name(frame.command()).is_none()
    }

    /// Returns the reply to a request that the maker has carried out, with this response code and these data. The device status is added.
    /// If `is_write` is true, the command counts as a configuration write. The reply shows the master's cold start bit and clears this bit.
    pub fn answer_own(
        &mut self,
        frame: &Frame,
        process: &Process,
        code: ResponseCode,
        is_write: bool,
        data: &[u8],
    ) -> Frame
        requires { length «data».now ≤ 253 }
        ensures reply { result ≡ own_reply (after_own is_write self.old) process.now frame.now code «data».now }
        ensures state { self.new ≡ after_reply frame.now.master (after_own is_write self.old) }
    {
        if is_write {
            self.count();
        }
        let mut payload = Payload::new();
        payload.push(code.value());
        payload.push(self.status(process, frame.master()).0);
        payload.extend_from_slice(data);
        self.cold_start.set(frame.master(), false);
        frame.reply(payload)
    }
}

ghost use Rattle.std.specs.Prelude.{◌≡◌, ◌≤◌, length, IfSome};
ghost use Rattle.hart_commands.specs.ReplyData.{IsReply, content_bytes, reply_reading, reply_payload};

use crate::ReplyContent;
use crate::commands::is_known;
use hart_values::{DeviceStatus, Payload, ResponseCode};

/// The reply of a device to a command (HCF_SPEC-127).
#[derive(Debug, Drop, PartialEq, Eq)]
pub struct Reply {
    /// The number of the command.
    pub command: u8,
    /// The response code; 0 is success.
    pub code: ResponseCode,
    /// The state of the device.
    pub status: DeviceStatus,
    /// The content: with code 0 a content of the command, and otherwise [`ReplyContent::Refused`].
    pub content: ReplyContent,
}

impl Reply {
    /// Reads the reply to a command from a payload. Returns `None` in each of these cases:
    ///
    /// - The payload has fewer than two bytes.
    /// - Bit 7 of the first byte is set.
    /// - The command is not known.
    /// - The code is 0 and the data hold no content of the command.
    ///
    /// Data after the content are ignored, except that the data of Command 9 must end with the time stamp. With any code other than
    /// 0, all data are ignored.
    ///
    /// ```rust
    /// let reply = Reply::read(16, &[0x00, 0x40, 0x01, 0x23, 0x45]).ok_or("no reply")?;
    /// assert_eq!(rt; reply.content, ReplyContent::Assembly([0x01, 0x23, 0x45]));
    /// ```
    #[tactic(auto, using(crate::proofs::lemmas::Reply::result_made))]
    pub fn read(command: u8, payload: &[u8]) -> Option<Self>
        ensures read { result ≡ reply_reading command payload.now }
        ensures well_made { IfSome result IsReply }
    {
        reply_in(command, payload)
    }

    /// Replaces `payload` by the two status bytes and the data of the content.
    ///
    /// If a reply was read with [`Reply::read`], the payload that is written is read back as the same reply. A reply whose content does not
    /// belong to its command can be written too, although no device sends such a reply.
    pub fn write(&self, payload: &mut Payload)
        ensures { payload.new ≡ reply_payload self.now }
    {
        payload.clear();
        payload.push(self.code.value());
        payload.push(self.status.0);
        self.content.push_to(payload);
    }

    /// Returns the number of data bytes that [`Reply::write`] writes after the two status bytes.
    pub fn data_len(&self) -> usize
        ensures len { result ≡ length (content_bytes self.now.content) }
        ensures few { result ≤ 255 }
    {
        let mut data = Payload::new();
        self.content.push_to(&mut data);
        data.len()
    }
}

/// Reads the reply to a command from a payload: two status bytes, then the data.
fn reply_in(command: u8, payload: &[u8]) -> Option<Reply>
    ensures { result ≡ reply_reading command payload.now }
{
    let (first, rest) = payload.split_first()?;
    let (second, bytes) = rest.split_first()?;
    let code = ResponseCode::new(*first).ok()?;
    let content = if code.value() == 0 {
        ReplyContent::read(command, bytes)?
    } else if is_known(command) {
        ReplyContent::Refused
    } else {
        return None;
    };
    Some(Reply {
        command,
        code,
        status: DeviceStatus(*second),
        content,
    })
}

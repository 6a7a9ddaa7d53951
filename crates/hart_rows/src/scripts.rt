//! Scripts that are carried out on the bench device. The tests of `run` and of `hart sim` use the same scripts.

/// A reply is lost, and the write is executed again.
pub const REPLY_LOST: &str = "submit P 37420A1B2C 19 012345\nturn P ok lost\nturn P ok ok";

/// Both masters write, and the primary master sends its write again.
pub const TWO_MASTERS: &str = "submit P 37420A1B2C 19 012345\nsubmit S 37420A1B2C 19 0A0B0C\n\
    turn P ok lost\nturn S ok ok\nturn P ok ok";

/// Like `TWO_MASTERS`, but the device is protected when the primary master sends again.
pub const PROTECTED_MEANWHILE: &str =
    "submit P 37420A1B2C 19 012345\nsubmit S 37420A1B2C 19 0A0B0C\n\
    turn P ok lost\nturn S ok ok\nprotect on\nturn P ok ok";

/// Command 38 is sent with a counter value. Before it is sent again, a write of the other master increments the counter.
pub const RESET_OVERTAKEN: &str = "submit P 37420A1B2C 38 0001\nsubmit S 37420A1B2C 19 0A0B0C\n\
    turn P ok lost\nturn S ok ok\nturn P ok ok";

pub const WRITTEN: &str = "submit P 37420A1B2C 19 012345\nturn P ok ok";

/// The polling address changes between two sendings of a request to the old one.
pub const ADDRESS_MOVES: &str = "submit P @0 0\nsubmit S 37420A1B2C 6 0501\n\
    turn P ok lost\nturn S ok ok\nturn P ok ok";

/// No request is heard in four turns. In the two scripts below, no request is heard in one turn, and no reply is heard in two turns.
pub const REQUESTS_LOST: &str = "submit P 37420A1B2C 19 012345\n\
    turn P lost ok\nturn P lost ok\nturn P lost ok\nturn P lost ok";

pub const REQUEST_LOST: &str = "submit P 37420A1B2C 19 012345\nturn P lost ok";

pub const REPLIES_LOST: &str = "submit P 37420A1B2C 19 012345\nturn P ok lost\nturn P ok lost";

/// A request that must not be sent to all devices, and a second request for a master that has a request in hand.
pub const REFUSED: &str = "submit P all 0\nsubmit S 37420A1B2C 16\nsubmit S 37420A1B2C 16";

/// The first address byte of a request is heard with a vertical parity fault.
pub const ADDRESS_FAULTY: &str =
    "submit P 37420A1B2C 19 012345\nturn P FFFF82B7!40420A1B2C13030123453D ok";

/// The first address byte of a request is heard as another byte, so the check byte is wrong.
pub const ADDRESS_REPLACED: &str =
    "submit P 37420A1B2C 19 012345\nturn P FFFF82B6420A1B2C13030123453D ok";

/// Only one preamble byte of a request is heard.
pub const ONE_PREAMBLE_BYTE: &str =
    "submit P 37420A1B2C 19 012345\nturn P FF82B7420A1B2C13030123453D ok";

/// The check byte of a request has a fault bit, and the device reports it. After a retry a byte of the reply has a fault bit.
pub const BOTH_LEGS_DAMAGED: &str =
    "submit P 37420A1B2C 19 012345\nturn P FFFF82B7420A1B2C13030123453D!02 ok\n\
    turn P ok FFFF86B7420A1B2C130500400123!10457F";

/// Only three preamble bytes of a request are heard, the first one with a fault bit.
pub const PREAMBLE_FAULTY: &str =
    "submit P 37420A1B2C 19 012345\nturn P FF!40FFFF82B7420A1B2C13030123453D ok";

/// A request is heard with a wrong check byte, which the device reports. When the request is sent again, it is heard unchanged.
pub const CHECK_REPLACED: &str = "submit P 37420A1B2C 19 012345\n\
    turn P FFFF82B7420A1B2C13030123453C ok\nturn P ok ok";

/// A request is heard twice with a wrong check byte. The first reply is lost, and the second reply is damaged. Then noise is heard twice:
/// a request of each master with a wrong check byte.
pub const COMMUNICATION_FAULTS: &str =
    "submit P 37420A1B2C 19 012345\nsubmit S 37420A1B2C 19 012345\n\
    turn P FFFF82B7420A1B2C13030123453C lost\n\
    turn P FFFF82B7420A1B2C13030123453C FFFF86B7420A1B2C130288!4000D7\n\
    noise FFFF82B7420A1B2C13030123453C\nnoise FFFF8237420A1B2C13030A0B0CD6";

/// Neither master has a request in hand, but in each turn the device hears a request with a wrong check byte.
pub const NOTHING_ASKED: &str =
    "turn P FFFF82B7420A1B2C13030123453C ok\nturn S FFFF82B7420A1B2C13030123453C lost";

/// Three times a request is heard with a wrong check byte. The device's reply is heard first as it was sent, then with a fault bit, then
/// with a wrong check byte.
pub const REPLY_HEARD: &str = "submit P 37420A1B2C 19 012345\n\
    turn P FFFF82B7420A1B2C13030123453C FFFF86B7420A1B2C13028800D7\n\
    turn P FFFF82B7420A1B2C13030123453C FFFF86B7420A1B2C13028800D7!02\n\
    turn P FFFF82B7420A1B2C13030123453C FFFF86B7420A1B2C13028800D6";

/// The characters of `REPLY_HEARD`, in turns without a request in hand.
pub const REPLY_HEARD_UNASKED: &str =
    "turn P FFFF82B7420A1B2C13030123453C FFFF86B7420A1B2C13028800D7\n\
    turn S FFFF82B7420A1B2C13030123453C FFFF86B7420A1B2C13028800D7!02\n\
    turn P FFFF82B7420A1B2C13030123453C FFFF86B7420A1B2C13028800D6";

pub const GARBLED_NOISE: &str = "noise FFFF82B7420A1B2C13030123453C";

/// A restart is shown once to each master, whatever the response code.
pub const RESTART_SHOWN: &str = "restart\nsubmit P 37420A1B2C 19 012345\nturn P ok ok\n\
    submit P 37420A1B2C 7\nturn P ok ok\nsubmit S 37420A1B2C 7\nturn S ok ok";

/// After two restarts, a communication-fault reply and silence do not show the restarts, but a reply that refuses a request does.
pub const RESTART_REFUSED: &str =
    "restart\nprotect on\nrestart\nnoise FFFF82B7420A1B2C13030123453C\n\
    submit P 37420A1B2D 7\nturn P ok ok\nsubmit P 37420A1B2C 19 012345\nturn P ok ok\n\
    submit P 37420A1B2C 7\nturn P ok ok";

/// The reply that shows a restart is lost.
pub const RESTART_LOST: &str =
    "restart\nsubmit P 37420A1B2C 7\nturn P ok lost\nturn P ok ok\nsubmit S @0 0";

/// The device restarts between two sendings of a request, which stays in hand.
pub const RESTART_MEANWHILE: &str =
    "submit P 37420A1B2C 19 012345\nturn P ok lost\nrestart\nturn P ok ok\nturn S ok ok";

/// Command 21 asks all devices for the one with a long tag of spaces. Then a different long tag is written and read.
pub const LONG_TAG_WRITTEN: &str =
    "submit P all 21 2020202020202020202020202020202020202020202020202020202020202020\n\
    turn P ok ok\n\
    submit S 37420A1B2C 22 F0F1F2F3F4F5F6F7F8F9FAFBFCFDFEFF000102030405060708090A0B0C0D0E0F\nturn S ok ok\n\
    submit P 37420A1B2C 20\nturn P ok ok";

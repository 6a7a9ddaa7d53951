//! The texts of help for words and options.

pub const WHO_HELP: &str = "The master that asks: P for the primary, S for the secondary";

pub const ADDRESS_HELP: &str = "\
The device that is asked: @ and its polling address, @0 to @63; or
ten hex digits, four of its type and six of its id; or all, for
every device";

pub const COMMAND_HELP: &str = "The number of the command, 0 to 255";

pub const DATA_HELP: &str = "\
The data of the command in hex, two digits for each byte, at most
255 bytes; left out if there are none";

pub const FIELD_HELP: &str = "A field of the request as NAME=VALUE, for example date=2026-11-27";

pub const IMAGE_HELP: &str = "\
The image that the device goes on from, two hex digits a
byte, as hart sim writes it; left out for a new device";

pub const RAW_HELP: &str = "Read bytes as they are, and not as hex";

pub const JSON_HELP: &str = "Write JSON, one object a line";

pub const PREAMBLES_HELP: &str = "The number of preamble bytes FF, 5 to 20";

pub const MASTER_WHO_HELP: &str =
    "Which of the two masters it is: P for the primary, S for the secondary";

pub const RETRIES_HELP: &str = "How often a request is sent again, 0 to 15 times";

pub const LIMIT_HELP: &str = "\
How many character times a reply is awaited, 1 to 255; left out for
33 of the primary master and 41 of the secondary";

//! The table of the commands (HCF_SPEC-099, HCF_SPEC-127). An earlier version with one file for each command was a tenth longer and took a
//! seventh longer to check. A new command needed changes in at least as many files as it does with the table.
use crate::FieldSize::{AllBut, Exactly};
use crate::{FieldKind, FieldRow, Register};

/// A command: its number, its name, and the fields of its request data. `needed` is the number of request data bytes that it needs, `reply`
/// the fields of its reply data with code 0, and `writes` the registers that it writes. A write sets the first of these registers to the
/// first field of its request data, the second register to the second field, and so on.
pub struct Command {
    pub number: u8,
    pub name: &'static str,
    pub request: &'static [FieldRow],
    pub needed: u8,
    pub reply: &'static [FieldRow],
    pub writes: &'static [Register],
}

/// Makes a list of fields from one line for each field: the words of its name, its size and its kind.
macro_rules! fields {
    ($($first:ident $($next:ident)*, $size:expr, $kind:ident;)*) => {
        &[$(FieldRow {
            name: concat!(stringify!($first) $(, "_", stringify!($next))*),
            words: concat!(stringify!($first) $(, " ", stringify!($next))*),
            size: $size,
            kind: FieldKind::$kind,
        }),*]
    };
}

/// Makes a list of commands from one line for each command.
macro_rules! commands {
    ($($number:literal, $name:literal, $request:expr, $needed:literal, $reply:expr, [$($register:ident),*];)*) => {
        &[$(Command {
            number: $number, name: $name, request: $request, needed: $needed, reply: $reply, writes: &[$(Register::$register),*]
        }),*]
    };
}

/// The fields of an identity, of which the first byte is 254 (Commands 0, 11 and 21).
const IDENTITY: &[FieldRow] = fields! {
    first byte, Exactly(1), Number;
    expanded device type, Exactly(2), Bytes;
    preamble bytes of a request, Exactly(1), Number;
    protocol revision, Exactly(1), Number;
    device revision, Exactly(1), Number;
    software revision, Exactly(1), Number;
    hardware revision and signalling code, Exactly(1), Bytes;
    flags, Exactly(1), Bytes;
    device id, Exactly(3), Bytes;
    preamble bytes of a response, Exactly(1), Number;
    greatest number of device variables, Exactly(1), Number;
    configuration change counter, Exactly(2), Number;
    extended device status, Exactly(1), Bytes;
    manufacturer, Exactly(2), Number;
    private label distributor, Exactly(2), Number;
    device profile, Exactly(1), Number;
};

/// The fields of the primary variable (Command 1).
const PRIMARY: &[FieldRow] = fields! {
    primary variable unit, Exactly(1), UnitCode;
    primary variable, Exactly(4), Float;
};

/// The fields of the loop current and the percent of range (Command 2).
const CURRENT: &[FieldRow] = fields! {
    loop current, Exactly(4), Float;
    percent of range, Exactly(4), Float;
};

/// The loop current, and the fields of up to four dynamic variables (Command 3).
const DYNAMIC: &[FieldRow] = fields! {
    loop current, Exactly(4), Float;
    primary variable unit, Exactly(1), UnitCode;
    primary variable, Exactly(4), Float;
    secondary variable unit, Exactly(1), UnitCode;
    secondary variable, Exactly(4), Float;
    tertiary variable unit, Exactly(1), UnitCode;
    tertiary variable, Exactly(4), Float;
    quaternary variable unit, Exactly(1), UnitCode;
    quaternary variable, Exactly(4), Float;
};

/// The polling address and the loop current mode; older masters leave out the mode (Commands 6 and 7).
const POLLING: &[FieldRow] = fields! {
    polling address, Exactly(1), Number;
    loop current mode, Exactly(1), Number;
};

/// The classification of each dynamic variable (Command 8).
const CLASSES: &[FieldRow] = fields! {
    primary variable classification, Exactly(1), Number;
    secondary variable classification, Exactly(1), Number;
    tertiary variable classification, Exactly(1), Number;
    quaternary variable classification, Exactly(1), Number;
};

/// The extended device status, the device variables that were asked for, and their time stamp (Command 9).
const VARIABLES: &[FieldRow] = fields! {
    extended device status, Exactly(1), Bytes;
    device variables, AllBut(4), Variables;
    time stamp, Exactly(4), Bytes;
};

/// The message (Commands 12 and 17).
const MESSAGE: &[FieldRow] = fields! { message, Exactly(24), PackedText; };

/// The tag, the descriptor and the date (Commands 13 and 18).
const TAG_AND_MORE: &[FieldRow] = fields! {
    tag, Exactly(6), PackedText;
    descriptor, Exactly(12), PackedText;
    date, Exactly(3), Date;
};

/// The fields of the sensor (Command 14).
const SENSOR: &[FieldRow] = fields! {
    serial number, Exactly(3), Bytes;
    unit, Exactly(1), UnitCode;
    upper limit, Exactly(4), Float;
    lower limit, Exactly(4), Float;
    minimum span, Exactly(4), Float;
};

/// The fields of the loop current output (Command 15).
const OUTPUT: &[FieldRow] = fields! {
    alarm code, Exactly(1), Number;
    transfer function, Exactly(1), Number;
    unit, Exactly(1), UnitCode;
    upper range value, Exactly(4), Float;
    lower range value, Exactly(4), Float;
    damping, Exactly(4), Float;
    write protect code, Exactly(1), Number;
    reserved byte, Exactly(1), Number;
    channel flags, Exactly(1), Bytes;
};

/// The final assembly number (Commands 16 and 19).
const ASSEMBLY: &[FieldRow] = fields! { final assembly number, Exactly(3), Bytes; };

/// The long tag (Commands 20, 21 and 22).
const LONG_TAG: &[FieldRow] = fields! { long tag, Exactly(32), LatinText; };

/// The configuration change counter (Command 38).
const COUNTER: &[FieldRow] = fields! { configuration change counter, Exactly(2), Number; };

/// The known commands, one row each: number, name, request fields, bytes needed, reply fields, registers written. Command 6 needs
/// only the first of its two bytes.
pub const TABLE: &[Command] = commands! {
    0, "read unique identifier", &[], 0, IDENTITY, [];
    1, "read primary variable", &[], 0, PRIMARY, [];
    2, "read loop current and percent of range", &[], 0, CURRENT, [];
    3, "read dynamic variables and loop current", &[], 0, DYNAMIC, [];
    6, "write polling address", POLLING, 1, POLLING, [Polling, Mode];
    7, "read loop configuration", &[], 0, POLLING, [];
    8, "read dynamic variable classifications", &[], 0, CLASSES, [];
    9, "read device variables with status", fields! { device variable codes, AllBut(0), Bytes; }, 1, VARIABLES, [];
    11, "read unique identifier associated with tag", fields! { tag, Exactly(6), PackedText; }, 6, IDENTITY, [];
    12, "read message", &[], 0, MESSAGE, [];
    13, "read tag, descriptor, date", &[], 0, TAG_AND_MORE, [];
    14, "read primary variable transducer information", &[], 0, SENSOR, [];
    15, "read device information", &[], 0, OUTPUT, [];
    16, "read final assembly number", &[], 0, ASSEMBLY, [];
    17, "write message", MESSAGE, 24, MESSAGE, [Message];
    18, "write tag, descriptor, date", TAG_AND_MORE, 21, TAG_AND_MORE, [Tag, Descriptor, Date];
    19, "write final assembly number", ASSEMBLY, 3, ASSEMBLY, [Assembly];
    20, "read long tag", &[], 0, LONG_TAG, [];
    21, "read unique identifier associated with long tag", LONG_TAG, 32, IDENTITY, [];
    22, "write long tag", LONG_TAG, 32, LONG_TAG, [LongTag];
    38, "reset configuration changed flag", COUNTER, 2, COUNTER, [];
    48, "read additional device status", &[], 0, fields! { additional status, AllBut(0), Bytes; }, [];
};

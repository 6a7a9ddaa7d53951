//! Worked messages: what a new bench device replies to a delivery. The tests of hart_device and of `hart answer` use the same rows.

/// A request to the device's own unique address, up to its command.
pub const REQUEST: &str = "FF FF FF FF FF 82 B7 42 0A 1B 2C ";

/// The reply to such a request, up to its command.
pub const REPLY: &str = "FF FF FF FF FF 86 B7 42 0A 1B 2C ";

/// A request and its reply, both from the command on, and the device's counter afterwards.
pub type OwnRow<'a> = (&'a str, &'a str, u16);

/// At least one row for each command, in the order of the command numbers.
pub const OWN: &[OwnRow] = &[
    (
        "00 00 4A",
        "00 18 00 00 FE 37 42 05 07 01 02 18 00 0A 1B 2C 05 04 00 00 00 00 37 00 37 01 F9",
        0,
    ),
    ("01 00 4B", "01 07 00 00 20 41 C8 00 00 E1", 0),
    ("02 00 48", "02 0A 00 00 41 40 00 00 42 48 00 00 4D", 0),
    ("03 00 49", "03 0B 00 00 41 40 00 00 20 41 C8 00 00 EE", 0),
    ("04 00 4E", "04 02 40 00 08", 0),
    ("06 02 40 01 0F", "06 02 02 00 48", 0),
    ("06 02 3F 02 73", "06 02 0C 00 46", 0),
    ("06 01 05 48", "06 04 00 48 05 00 01", 1),
    ("07 00 4D", "07 04 00 00 00 01 4C", 0),
    ("08 00 42", "08 06 00 00 00 00 00 00 40", 0),
    (
        "09 02 F5 09 BD",
        "09 17 00 00 00 F5 00 27 41 40 00 00 C0 09 00 FA 7F A0 00 00 30 00 00 00 00 5F",
        0,
    ),
    (
        "0B 06 82 08 20 82 08 20 47",
        "0B 18 00 00 FE 37 42 05 07 01 02 18 00 0A 1B 2C 05 04 00 00 00 00 37 00 37 01 F2",
        0,
    ),
    (
        "0C 00 46",
        "0C 1A 00 00 82 08 20 82 08 20 82 08 20 82 08 20 82 08 20 82 08 20 82 08 20 82 08 20 58",
        0,
    ),
    (
        "0D 00 47",
        "0D 17 00 00 82 08 20 82 08 20 82 08 20 82 08 20 82 08 20 82 08 20 00 00 00 54",
        0,
    ),
    (
        "0E 00 44",
        "0E 12 00 00 00 00 00 20 43 48 00 00 00 00 00 00 41 20 00 00 18",
        0,
    ),
    (
        "0F 00 45",
        "0F 14 00 00 00 00 20 42 C8 00 00 00 00 00 00 3F 80 00 00 00 FA 00 BA",
        0,
    ),
    ("10 00 5A", "10 05 00 00 00 00 00 5B", 0),
    (
        "11 18 82 08 20 82 08 20 82 08 20 82 08 20 82 08 20 82 08 20 82 08 20 82 08 20 43",
        "11 1A 00 40 82 08 20 82 08 20 82 08 20 82 08 20 82 08 20 82 08 20 82 08 20 82 08 20 05",
        1,
    ),
    (
        "12 15 41 53 50 B7 1C 31 82 08 20 82 08 20 82 08 20 82 08 20 1D 02 00 8A",
        "12 02 09 00 57",
        0,
    ),
    (
        "12 15 41 53 50 B7 1C 31 82 08 20 82 08 20 82 08 20 82 08 20 1D 02 64 EE",
        "12 17 00 40 41 53 50 B7 1C 31 82 08 20 82 08 20 82 08 20 82 08 20 1D 02 64 A8",
        1,
    ),
    ("13 03 01 23 45 3D", "13 05 00 40 01 23 45 7F", 1),
    ("13 03 01 23 45 3C", "13 02 88 00 D7", 0),
    ("13 03 01 23!40 45 3D", "13 02 C0 00 9F", 0),
    ("13 03!20 01 23 45 3C", "13 02 A8 00 F7", 0),
    ("13 02 01 23 79", "13 02 05 00 5A", 0),
    ("13 04 01 23 45 67 5D", "13 05 00 40 01 23 45 7F", 1),
    (
        "14 00 5E",
        "14 22 00 00 20 20 20 20 20 20 20 20 20 20 20 20 20 20 20 20 20 20 20 20 20 20 20 20 20 20 20 20 20 20 20 20 78",
        0,
    ),
    (
        "15 20 20 20 20 20 20 20 20 20 20 20 20 20 20 20 20 20 20 20 20 20 20 20 20 20 20 20 20 20 20 20 20 20 7F",
        "15 18 00 00 FE 37 42 05 07 01 02 18 00 0A 1B 2C 05 04 00 00 00 00 37 00 37 01 EC",
        0,
    ),
    (
        "15 1F 20 20 20 20 20 20 20 20 20 20 20 20 20 20 20 20 20 20 20 20 20 20 20 20 20 20 20 20 20 20 20 60",
        "15 02 05 00 5C",
        0,
    ),
    (
        "16 20 50 55 4D 50 2D 31 30 31 20 20 20 20 20 20 20 20 20 20 20 20 20 20 20 20 20 20 20 20 20 20 20 20 79",
        "16 22 00 40 50 55 4D 50 2D 31 30 31 20 20 20 20 20 20 20 20 20 20 20 20 20 20 20 20 20 20 20 20 20 20 20 20 3F",
        1,
    ),
    (
        "16 20 FF FF FF FF FF FF FF FF FF FF FF FF FF FF FF FF FF FF FF FF FF FF FF FF FF FF FF FF FF FF FF FF 7C",
        "16 22 00 40 FF FF FF FF FF FF FF FF FF FF FF FF FF FF FF FF FF FF FF FF FF FF FF FF FF FF FF FF FF FF FF FF 3A",
        1,
    ),
    (
        "16 1F FF FF FF FF FF FF FF FF FF FF FF FF FF FF FF FF FF FF FF FF FF FF FF FF FF FF FF FF FF FF FF BC",
        "16 02 05 00 5F",
        0,
    ),
    ("17 00 5D", "17 02 40 00 1B", 0),
    ("26 00 6C", "26 04 00 00 00 00 6C", 0),
    ("26 01 00 6D", "26 02 05 00 6F", 0),
    ("26 02 00 01 6F", "26 02 09 00 63", 0),
    (
        "30 00 7A",
        "30 1B 00 00 00 00 00 00 00 00 00 00 00 00 00 00 00 00 00 00 00 00 00 00 00 00 00 00 00 65",
        0,
    ),
];

/// What is heard, and the reply, which is empty if the device is silent.
pub type Heard<'a> = (&'a str, &'a str);

/// Requests to a polling address, requests to all devices, and garbled requests.
pub const HEARD: &[Heard] = &[
    ("FF FF FF FF FF 02 80 00 00 82", FOUND_BY_PRIMARY),
    ("FF FF 02 00 00 00 02", FOUND_BY_SECONDARY),
    ("FF FF 82 80 00 00 00 00 0B 06 41 53 50 B7 1C 31 D7", ""),
    (
        "FF FF 82 80 00 00 00 00 15 20 \
        20 20 20 20 20 20 20 20 20 20 20 20 20 20 20 20 20 20 20 20 20 20 20 20 20 20 20 20 20 20 20 20 37",
        "FF FF FF FF FF 86 80 00 00 00 00 15 18 00 00 FE 37 42 05 07 01 02 18 00 0A 1B 2C 05 04 00 00 00 00 37 00 37 01 A4",
    ),
    (
        "FF FF 82 80 00 00 00 00 15 20 \
        21 20 20 20 20 20 20 20 20 20 20 20 20 20 20 20 20 20 20 20 20 20 20 20 20 20 20 20 20 20 20 20 36",
        "",
    ),
    (
        "FF FF 82 37 42 0A 1B 2C 13 03 0A 0B 0C D6",
        "FF FF FF FF FF 86 37 42 0A 1B 2C 13 02 88 00 57",
    ),
    ("FF FF 82 B7 42!10 0A 1B 2C 13 03 01 23 45 3D", ""),
];

/// The replies by which a new bench device is found at polling address 0.
const FOUND_BY_PRIMARY: &str =
    "FF FF FF FF FF 06 80 00 18 00 00 FE 37 42 05 07 01 02 18 00 0A 1B 2C 05 04 00 00 00 00 37 00 37 01 31";

const FOUND_BY_SECONDARY: &str =
    "FF FF FF FF FF 06 00 00 18 00 00 FE 37 42 05 07 01 02 18 00 0A 1B 2C 05 04 00 00 00 00 37 00 37 01 B1";
